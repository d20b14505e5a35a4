//! Sets of ASCII bytes that are made of ranges, and the run of such a set at the start of a text.
ghost use Rattle.std.specs.Prelude.{◌≡◌, ◌<◌, ◌≤◌, IfSome, IsTrue, false, is_none, length};
ghost use Rattle.std.specs.List.{list_any, prefix_len};
ghost use Rattle.uv_calls.specs.ByteClass.{in_class, is_refused, is_wide, within};

use std::marker::Model;

/// A set of ASCII bytes: those within one of at most 12 ranges. Contracts see the ranges.
#[derive(Drop)]
pub struct ByteClass {
    kept: [(u8, u8); 12],
    count: usize,
}

impl Model for ByteClass {
    ghost use Rattle.std.specs.Prelude.{◌≡◌, ◌≤◌, ℕ, List, take, false};
    ghost use Rattle.std.specs.List.{list_any};
    ghost use Rattle.uv_calls.specs.ByteClass.{is_wide};

    ghost Value = { List (ℕ × ℕ) };

    ghost view = { λ c. take c.count c.kept };

    ghost invariant = { λ c. (c.count ≤ 12) × (list_any is_wide (take c.count c.kept) ≡ false) };
}

impl ByteClass {
    /// The set of the bytes within these ranges, each from its first byte to its last, so a reversed range holds no
    /// byte. `None` if there are more than 12 ranges, or if a bound is above 127.
    pub fn of(ranges: &[(u8, u8)]) -> Option<ByteClass>
        ensures class { IfSome result (λ class. class ≡ ranges.now) }
        ensures refused { is_none result ≡ is_refused ranges.now }
    {
        if ranges.len() > 12 || has_wide(ranges) {
            return None;
        }
        Some(ByteClass::holding(ranges))
    }

    // The set of ranges that are known to be few and within ASCII.
    fn holding(ranges: &[(u8, u8)]) -> ByteClass
        requires few { length ranges.now ≤ 12 }
        requires ascii { list_any is_wide ranges.now ≡ false }
        ensures { result ≡ ranges.now }
    {
        let mut kept = [(0, 0); 12];
        kept[..ranges.len()].copy_from_slice(ranges);
        ByteClass {
            kept,
            count: ranges.len(),
        }
    }

    /// Whether the byte is in the set. No byte above 127 is.
    pub fn has(&self, byte: u8) -> bool
        ensures value { result ≡ in_class self.now byte }
        ensures ascii { IsTrue result → byte < 128 }
    {
        self.kept[..self.count].iter().any(|r| is_within(*r, byte))
    }
}

// Whether a bound of one of the ranges is above 127.
fn has_wide(ranges: &[(u8, u8)]) -> bool
    ensures { result ≡ list_any is_wide ranges.now }
{
    ranges.iter().any(|r| r.0 > 127 || r.1 > 127)
}

// Whether the byte is in the range.
fn is_within(range: (u8, u8), byte: u8) -> bool
    ensures { result ≡ within range byte }
{
    range.0 <= byte && byte <= range.1
}

/// The length of the longest prefix whose bytes are all in the set.
pub fn unit_run(bytes: &[u8], class: &ByteClass) -> usize
    ensures { result ≡ prefix_len (in_class class.now) bytes.now }
{
    let mut run = 0;
    while run < bytes.len() && class.has(bytes[run]) {
        run += 1;
    }
    run
}
