//! Tests of the start of a text, and of schemes and digits.
ghost use Rattle.std.specs.Prelude.{◌≡◌, ◌≤◌, ◌&&◌, ◌==◌, drop, length};
ghost use Rattle.std.specs.List.{list_all, prefix_len};
ghost use Rattle.std.specs.Char.{is_ascii_alphabetic, is_ascii_digit};
ghost use Rattle.std.specs.Str.{chars};
ghost use Rattle.uv_model.specs.Ascii.{colon};
ghost use Rattle.uv_model.specs.Violations.Violation.{starts_with_number_sign};
ghost use Rattle.uv_model.specs.Cut.{starts_with_two_slashes};
ghost use Rattle.uv_model.specs.Hosts.OpaqueHost.{starts_with_bracket};
ghost use Rattle.uv_model.specs.Path.{starts_with_drive_segment, starts_with_slash};
ghost use Rattle.uv_model.specs.Scheme.{is_scheme_code_point};
ghost use Rattle.uv_text.specs.Splits.{starts_in};
ghost use Rattle.uv_grammar.specs.TextSplits.{IsSchemeEnd};

use crate::links::prefixes::special_end;
use uv_model::is_drive_letter;

/// Whether the text begins with `/`.
pub(crate) fn has_slash(text: &str) -> bool
    ensures { result ≡ starts_with_slash (chars text.now) }
{
    slash_first(text.as_bytes())
}

fn slash_first(bytes: &[u8]) -> bool
    ensures { result ≡ starts_with_slash bytes.now }
{
    match bytes {
        [first, ..] => *first == b'/',
        [] => false,
    }
}

/// Whether the text begins with `//`.
pub(crate) fn has_two_slashes(text: &str) -> bool
    ensures { result ≡ starts_with_two_slashes (chars text.now) }
{
    two_slashes_first(text.as_bytes())
}

fn two_slashes_first(bytes: &[u8]) -> bool
    ensures { result ≡ starts_with_two_slashes bytes.now }
{
    match bytes {
        [first, second, ..] => *first == b'/' && *second == b'/',
        _ => false,
    }
}

/// Whether the text begins with `/`, a Windows drive letter and `/`.
pub(crate) fn has_drive(text: &str) -> bool
    ensures { result ≡ starts_with_drive_segment (chars text.now) }
{
    drive_first(text.as_bytes())
}

fn drive_first(bytes: &[u8]) -> bool
    ensures { result ≡ starts_with_drive_segment bytes.now }
{
    match bytes {
        [first, letter, mark, next, ..] => {
            *first == b'/' && (is_drive_letter(&[*letter, *mark]) && *next == b'/')
        }
        _ => false,
    }
}

/// Whether the text begins with `#`.
pub(crate) fn has_number_sign(text: &str) -> bool
    ensures { result ≡ starts_with_number_sign (chars text.now) }
{
    number_sign_first(text.as_bytes())
}

fn number_sign_first(bytes: &[u8]) -> bool
    ensures { result ≡ starts_with_number_sign bytes.now }
{
    match bytes {
        [first, ..] => *first == b'#',
        [] => false,
    }
}

/// Whether the text begins with `[`.
pub(crate) fn has_bracket(text: &str) -> bool
    ensures { result ≡ starts_with_bracket (chars text.now) }
{
    bracket_first(text.as_bytes())
}

/// Whether the bytes begin with `[`.
pub(crate) fn bracket_first(bytes: &[u8]) -> bool
    ensures { result ≡ starts_with_bracket bytes.now }
{
    match bytes {
        [first, ..] => *first == b'[',
        [] => false,
    }
}

/// The place of the `:` after the URL-scheme string with which the bytes begin (URL Standard, section 4.3). The search
/// ends at the first byte that no scheme holds, so that it doesn't go through the whole of a text without a scheme. The
/// special schemes that most links have are known at once.
#[tactic(auto, using(crate::proofs::SchemeEndLemmas::special_found))]
pub(crate) fn scheme_end(bytes: &[u8]) -> Option<usize>
    ensures { IsSchemeEnd bytes.now result }
{
    if let Some(end) = special_end(bytes) {
        return Some(end);
    }
    let end = scheme_prefix(bytes);
    if ends_scheme(bytes, end) {
        Some(end)
    } else {
        None
    }
}

// How many bytes that a scheme may hold the bytes begin with.
fn scheme_prefix(bytes: &[u8]) -> usize
    ensures { result ≡ prefix_len is_scheme_code_point bytes.now }
{
    bytes.iter().take_while(|b| is_scheme_byte(**b)).count()
}

// Whether a letter is at the start, and `:` at a place.
fn ends_scheme(bytes: &[u8], end: usize) -> bool
    requires { end ≤ length bytes.now }
    ensures { result ≡ (starts_in is_ascii_alphabetic bytes.now && starts_in (λ c. c == colon) (drop end bytes.now)) }
{
    letter_first(bytes) && colon_first(&bytes[end..])
}

fn letter_first(bytes: &[u8]) -> bool
    ensures { result ≡ starts_in is_ascii_alphabetic bytes.now }
{
    match bytes {
        [first, ..] => first.is_ascii_alphabetic(),
        [] => false,
    }
}

fn colon_first(bytes: &[u8]) -> bool
    ensures { result ≡ starts_in (λ c. c == colon) bytes.now }
{
    match bytes {
        [first, ..] => *first == b':',
        [] => false,
    }
}

fn is_scheme_byte(b: u8) -> bool
    ensures { result ≡ is_scheme_code_point b }
{
    b.is_ascii_alphanumeric() || (b == b'+' || (b == b'-' || b == b'.'))
}

/// Whether the text has only digits.
pub(crate) fn are_digits(text: &str) -> bool
    ensures { result ≡ list_all is_ascii_digit (chars text.now) }
{
    are_digit_bytes(text.as_bytes())
}

fn are_digit_bytes(bytes: &[u8]) -> bool
    ensures { result ≡ list_all is_ascii_digit bytes.now }
{
    bytes.iter().all(|b| b.is_ascii_digit())
}
