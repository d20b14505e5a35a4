//! The marks of a domain, and the number rule of its last label (URL Standard, sections 3.4 and 3.5).
ghost use Rattle.std.specs.Char.{is_ascii_digit, is_ascii_hexdigit};
ghost use Rattle.std.specs.List.{list_all};
ghost use Rattle.std.specs.Prelude.{chars, ◌≡◌};
ghost use Rattle.uv_model.specs.Hosts.Domain as spec;

use crate::profile::Profile;

/// Whether a code point is one of the marks that a domain of the profile may hold besides letters and digits: `-` and
/// `.`, under the wide profile also `_`, and under the parser's all other ASCII code points that aren't forbidden.
pub fn is_domain_mark(c: char, profile: Profile) -> bool
    ensures { result ≡ spec.is_domain_mark profile c }
{
    match profile {
        Profile::Standard => c == '-' || c == '.',
        Profile::Wide => c == '_' || c == '-' || c == '.',
        Profile::Parser => c.is_ascii() && !(c.is_ascii_alphanumeric() || is_forbidden_domain(c)),
    }
}

/// Whether a code point is a forbidden domain code point (URL Standard, section 3.3): a forbidden host code point, a C0
/// control, `%` or U+007F.
#[tactic(auto, using(std::proofs::lemmas::Bool::Decides::nat_tests))]
pub fn is_forbidden_domain(c: char) -> bool
    ensures { result ≡ spec.is_forbidden_domain c }
{
    match c {
        '\0'..='\u{1F}' | ' ' | '#' | '%' | '/' | ':' | '<' => true,
        '>' | '?' | '@' | '[' | '\\' | ']' | '^' | '|' | '\u{7F}' => true,
        _ => false,
    }
}

/// Whether the text ends in a number (URL Standard, section 3.5, the ends-in-a-number checker): its last label, after
/// one empty label at the end is dropped, has only digits, or is `0x` and then nothing or hex digits.
pub fn ends_in_number(text: &str) -> bool
    ensures { result ≡ spec.ends_in_number (chars text.now) }
{
    bytes_end_in_number(text.as_bytes())
}

/// Whether bytes end in a number, as `ends_in_number` says of a text.
#[tactic(auto, unfolding(crate::specs::Hosts::Domain::ends_in_number))]
fn bytes_end_in_number(text: &[u8]) -> bool
    ensures { result ≡ spec.ends_in_number text.now }
{
    let label = last_label(text);
    is_digits(label) || is_hexadecimal(label)
}

/// The text without one full stop at its end.
fn without_root(text: &[u8]) -> &[u8]
    ensures { result.now ≡ spec.without_root text.now }
{
    match text {
        [prefix @ .., b'.'] => prefix,
        _ => text,
    }
}

/// What follows the last full stop, not counting one full stop at the end.
fn last_label(text: &[u8]) -> &[u8]
    ensures { result.now ≡ spec.last_label text.now }
{
    let name = without_root(text);
    let mut start = name.len();
    while start > 0 && name[start - 1] != b'.' {
        start -= 1;
    }
    &name[start..]
}

/// Only digits, and at least one.
fn is_digits(label: &[u8]) -> bool
    ensures { result ≡ spec.is_digits label.now }
{
    !label.is_empty() && all_digits(label)
}

fn all_digits(label: &[u8]) -> bool
    ensures { result ≡ list_all is_ascii_digit label.now }
{
    label.iter().all(|b| b.is_ascii_digit())
}

/// `0x`, and then nothing or hex digits.
fn is_hexadecimal(label: &[u8]) -> bool
    ensures { result ≡ spec.is_hexadecimal label.now }
{
    label.starts_with(b"0x") && all_hexadecimal(&label[2..])
}

fn all_hexadecimal(label: &[u8]) -> bool
    ensures { result ≡ list_all is_ascii_hexdigit label.now }
{
    label.iter().all(|b| b.is_ascii_hexdigit())
}
