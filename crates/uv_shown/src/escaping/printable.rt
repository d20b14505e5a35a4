//! Texts of only printable ASCII, which are shown as they are.
ghost use Rattle.std.specs.Prelude.{◌≡◌, ◌&&◌, ◌==◌};
ghost use Rattle.std.specs.List.{list_all};
ghost use Rattle.uv_shown.specs.Escaping.Printable.{is_printable};

/// Whether each byte of a text is printable ASCII.
pub fn is_printable_text(bytes: &[u8]) -> bool
    ensures { result ≡ list_all is_printable bytes.now }
{
    // Each byte is looked at, even after one that isn't printable, so that the compiler can look at many at once.
    let mut seen = 0;
    for &byte in bytes {
        seen = after_byte(seen, byte);
    }
    seen == 0
}

// What was seen up to and including a byte: 0 if all are printable ASCII.
fn after_byte(seen: u8, byte: u8) -> u8
    ensures { (result == 0) ≡ ((seen == 0) && is_printable byte) }
{
    seen | bit_of(byte)
}

// 0 for a printable ASCII byte.
fn bit_of(byte: u8) -> u8
    ensures { (result == 0) ≡ is_printable byte }
{
    if is_printable(byte) { 0 } else { 1 }
}

// Whether a byte is printable ASCII.
#[tactic(auto, using(std::proofs::lemmas::Bool::Decides::nat_tests))]
fn is_printable(byte: u8) -> bool
    ensures { result ≡ is_printable byte }
{
    match byte {
        b' '..=b'~' => true,
        _ => false,
    }
}
