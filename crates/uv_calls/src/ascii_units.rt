//! Tests of ASCII texts, byte by byte: whether they are URL units, and whether a code point is in them.
ghost use Rattle.std.specs.Prelude.{◌≡◌, ◌↔◌, IsTrue};
ghost use Rattle.uv_model.specs.Path.{is_spaced, is_without};
ghost use Rattle.uv_model.specs.Units as spec;
ghost use Rattle.uv_model.specs.Records.WellFormed.{IsAsciiUnits, is_ascii_text};

use uv_model::is_url_code_point;

/// Whether the text is ASCII URL units (URL Standard, section 4.3).
pub fn is_ascii_units(text: &[u8]) -> bool
    ensures { IsTrue result ↔ IsAsciiUnits text.now }
{
    if !is_ascii_text(text) {
        return false;
    }
    is_faultless(text)
}

/// Whether each byte is below 128.
pub fn is_ascii_text(text: &[u8]) -> bool
    ensures { result ≡ is_ascii_text text.now }
{
    text.iter().all(|byte| byte.is_ascii())
}

/// Whether the byte isn't in the text.
pub fn is_without(mark: u8, text: &[u8]) -> bool
    ensures { result ≡ is_without mark text.now }
{
    text.iter().all(|byte| *byte != mark)
}

// Whether each byte, read as a code point, is a URL code point, or `%` before two hex digits.
fn is_faultless(text: &[u8]) -> bool
    ensures { result ≡ spec.is_faultless text.now }
{
    let mut left = text;
    while let [first, rest @ ..] = left {
        if !is_unit_at(*first, rest) {
            return false;
        }
        left = rest;
    }
    true
}

/// Whether each byte, read as a code point, is a space, a URL code point, or `%` before two hex digits.
pub fn is_spaced(text: &[u8]) -> bool
    ensures { result ≡ is_spaced text.now }
{
    let mut left = text;
    while let [first, rest @ ..] = left {
        if *first != b' ' && !is_unit_at(*first, rest) {
            return false;
        }
        left = rest;
    }
    true
}

// Whether a byte, read as a code point, is a URL code point, or `%` before two hex digits.
#[tactic(auto, unfolding(uv_model::specs::Units::is_unit_at))]
fn is_unit_at(first: u8, rest: &[u8]) -> bool
    ensures { result ≡ spec.is_unit_at first rest.now }
{
    if first == b'%' {
        starts_with_two_hex(rest)
    } else {
        is_url_code_point(char::from(first))
    }
}

fn starts_with_two_hex(text: &[u8]) -> bool
    ensures { result ≡ spec.starts_with_two_hex text.now }
{
    match text {
        [high, low, ..] => high.is_ascii_hexdigit() && low.is_ascii_hexdigit(),
        _ => false,
    }
}
