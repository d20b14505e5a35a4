//! The texts before the path of a plain link, each cut after an ASCII prefix: its scheme and `://`, its domain
//! and its port.
ghost use Rattle.std.specs.Prelude.{◌≡◌, ◌≤◌, ◌+◌, ◌++◌, ◌∷◌, Option, IfSome, IsTrue, drop, length, take};
ghost use Rattle.std.specs.Char.{is_ascii_digit};
ghost use Rattle.std.specs.Int.{from_le_bytes, w32};
ghost use Rattle.std.specs.List.{prefix_len};
ghost use Rattle.std.specs.Str.{chars};
ghost use Rattle.uv_model.specs.Scheme.{default_port};
ghost use Rattle.uv_grammar.specs.PlainLinks.{HasAsciiPrefix, IsPrefixCut, IsNameCut, IsPortCut, IsSpecialCut};
ghost use Rattle.uv_grammar.specs.PlainLinks.{IsSpecialPrefix};
ghost use Rattle.uv_grammar.specs.Slices.{chars_of, chars_of_option};

use crate::authority::port::check_port;
use crate::authority::without_default;
use crate::checked::Checked;
use uv_host::{is_plain_domain, name_prefix};
use uv_model::default_port;
use uv_text::Tail;

/// A special scheme but `file`, in lower case, and what is after its `://`.
#[inline(always)]
pub(crate) fn split_special<'t>(text: &'t str) -> Option<(&'t str, Tail<'t>)>
    ensures { IfSome result (λ r. IsSpecialCut (chars text.now) (chars_of r.0) (chars r.1)) }
{
    let Some(end) = special_end(text.as_bytes()) else {
        return None;
    };
    let (scheme, after) = split_prefix(&Tail::of(text), end);
    let (_, rest) = split_prefix(&after, 3);
    Some((scheme, rest))
}

/// How many bytes a special scheme but `file`, in lower case and with `://` after it, has at the start.
#[inline(always)]
pub(crate) fn special_end(bytes: &[u8]) -> Option<usize>
    ensures { IfSome result (IsSpecialPrefix bytes.now) }
{
    if has_prefix(bytes, b"https://") {
        Some(5)
    } else if has_prefix(bytes, b"http://") {
        Some(4)
    } else if has_prefix(bytes, b"ftp://") {
        Some(3)
    } else if has_prefix(bytes, b"wss://") {
        Some(3)
    } else if has_prefix(bytes, b"ws://") {
        Some(2)
    } else {
        None
    }
}

/// Whether the bytes begin with these, of which there are four to eight. Four bytes at the start are compared at once,
/// and the four that end there, since the compiler makes much more of eight comparisons.
pub(crate) fn has_prefix(bytes: &[u8], prefix: &[u8]) -> bool
    requires four { 4 ≤ length prefix.now }
    requires eight { length prefix.now ≤ 8 }
    ensures { IsTrue result → bytes.now ≡ prefix.now ++ drop (length prefix.now) bytes.now }
{
    if bytes.len() < prefix.len() {
        return false;
    }
    let last = prefix.len() - 4;
    four_at(bytes, 0) == four_at(prefix, 0) && four_at(bytes, last) == four_at(prefix, last)
}

// The four bytes at a place as one number.
fn four_at(bytes: &[u8], place: usize) -> u32
    requires { place + 4 ≤ length bytes.now }
    ensures { result ≡ from_le_bytes w32 (take 4 (drop place bytes.now)) }
{
    match bytes[place..].first_chunk::<4>() {
        Some(four) => u32::from_le_bytes(*four),
        None => 0,
    }
}

/// Whether the first byte is this one.
pub(crate) fn begins_with(bytes: &[u8], mark: u8) -> bool
    ensures { IsTrue result → bytes.now ≡ mark ∷ drop 1 bytes.now }
{
    match bytes {
        [first, ..] => *first == mark,
        [] => false,
    }
}

/// A plain domain, and what follows it.
#[inline(always)]
pub(crate) fn split_name<'t>(text: &Tail<'t>) -> Option<(&'t str, Tail<'t>)>
    ensures { IfSome result (λ r. IsNameCut (chars text.now) (chars_of r.0) r.0.now (chars r.1)) }
{
    let Some(end) = name_prefix(text) else {
        return None;
    };
    let (name, rest) = split_prefix(text, end);
    if is_plain_domain(name) {
        Some((name, rest))
    } else {
        None
    }
}

/// The text of a valid port, where there is a `:`, its number if it isn't the scheme's default, and what follows it.
pub(crate) fn split_port<'t>(
    text: Tail<'t>,
    scheme: &str,
) -> Option<(Option<&'t str>, Option<u16>, Tail<'t>)>
    ensures { IfSome result (λ r. IsPortCut (default_port (chars scheme.now)) (chars text.entry)
        (chars_of_option r.0) r.1 (chars r.2)) }
{
    if !begins_with(text.as_str().as_bytes(), b':') {
        return Some((None, None, text));
    }
    let (_, after) = split_prefix(&text, 1);
    let (port_text, rest) = split_prefix(&after, digits_prefix(after.as_str().as_bytes()));
    match check_port(port_text) {
        Checked::Valid(number) => {
            let port = without_default(default_port(scheme), number);
            Some((Some(port_text), port, rest))
        }
        Checked::Refused(_) => None,
    }
}

// How many digits the bytes begin with.
fn digits_prefix(bytes: &[u8]) -> usize
    ensures { result ≡ prefix_len is_ascii_digit bytes.now }
{
    bytes.iter().take_while(|b| b.is_ascii_digit()).count()
}

/// The two sides of the end of an ASCII prefix.
#[inline(always)]
pub(crate) fn split_prefix<'t>(text: &Tail<'t>, end: usize) -> (&'t str, Tail<'t>)
    requires { HasAsciiPrefix text.now end }
    ensures { IsPrefixCut text.now end result.0.now result.1 }
{
    text.split_at(end)
}
