//! The ASCII marks with which signs of an author's intention begin. Most texts have few of them, so a text is looked
//! through for all at once, and only for those that are there again.

/// Which of the marks a text has.
#[derive(Clone, Copy)]
pub(crate) struct Marks {
    // One bit a mark.
    bits: u8,
}

impl Marks {
    /// The marks of a text.
    pub(crate) fn of(text: &str) -> Marks {
        // Each byte is compared with each mark, so that the compiler can look at many at once.
        let mut bits = 0;
        for &byte in text.as_bytes() {
            bits = bits | bit_of(byte);
        }
        Marks { bits }
    }

    /// Whether the text has this mark.
    pub(crate) fn has(self, mark: u8) -> bool {
        self.bits & bit_of(mark) != 0
    }
}

// The bit of a mark; 0 of all else.
fn bit_of(byte: u8) -> u8 {
    bit_if(byte == b' ', 1)
        | bit_if(byte == b'$', 2)
        | bit_if(byte == b'%', 4)
        | bit_if(byte == b'<', 8)
        | bit_if(byte == b'@', 16)
        | bit_if(byte == b'[', 32)
        | bit_if(byte == b'{', 64)
        | bit_if(byte == b'|', 128)
}

// The bit if that holds, and otherwise 0.
fn bit_if(holds: bool, bit: u8) -> u8 {
    if holds { bit } else { 0 }
}
