//! Plain names: letters and digits with single marks between them.
ghost use Rattle.std.specs.Prelude.{◌≡◌, ◌^◌, ◌<◌, ◌≤◌, false, IfSome, IsTrue, chars, drop, length, slice_index};
ghost use Rattle.std.specs.Prelude.{true};
ghost use Rattle.uv_host.specs.PlainNames.{IsChainPrefix, IsJoined, is_rooted_chain, is_sign, is_word_letter};
ghost use Rattle.uv_model.specs.declared.profile.Profile.{Profile};
ghost use Rattle.uv_model.specs.Hosts.Domain as spec;

use crate::domains::{has_lengths, is_number};
use uv_text::{Tail, byte_rows};

// The lower-case letters and the digits, by the low half of a byte: a bit for each high half.
const SIGN_ROWS: [u8; 16] = byte_rows!(b'a'..=b'z' | b'0'..=b'9');

// The hyphen and the full stop.
const JOINT_ROWS: [u8; 16] = byte_rows!(b'-' | b'.');

/// How many bytes of a name are at the start of a text: lower-case letters and digits, with single hyphens and full
/// stops between them, and possibly the root's full stop. The name ends where none of these follows. No verdict depends
/// on that, only how long one takes, since a text whose name was missed or cut short is checked by its parts.
#[inline(always)]
pub fn name_prefix(text: &Tail<'_>) -> Option<usize>
    ensures { IfSome result (IsChainPrefix text.now) }
{
    let end = chain_end(text);
    if end == 0 || text.as_str().as_bytes()[end - 1] == b'-' {
        return None;
    }
    Some(end)
}

// The end of the bytes that form such a name, each of which may follow the one before it.
#[inline(always)]
fn chain_end(text: &Tail<'_>) -> usize
    ensures { IsJoined false text.now result }
{
    let mut end = 0;
    let (mut ahead, mut signed) = chain_run(text, 0, false);
    while ahead == 32 {
        end += ahead;
        (ahead, signed) = chain_run(text, end, signed);
    }
    end + ahead
}

// How many of the 32 bytes from a place on go on like this, where `signed` says whether a letter or a digit is before
// them; and if all of them do, whether the last is a letter or a digit.
#[inline(always)]
fn chain_run(text: &Tail<'_>, place: usize, signed: bool) -> (usize, bool)
    requires { place ≤ length text.now }
    ensures goes_on { IsJoined signed (drop place text.now) result.0 }
    ensures short { length text.now < 2 ^ 64 }
    ensures signed { result.0 ≡ 32 → result.1 ≡ is_sign (slice_index (drop place text.now) 31) }
{
    let load = text.load(place);
    let signs = load.row_bits(&SIGN_ROWS);
    let joints = load.row_bits(&JOINT_ROWS);
    let after_signs = signs << 1 | u64::from(signed);
    let joined = signs | joints & after_signs;
    (joined.trailing_ones() as usize, signs >> 31 == 1)
}

/// Whether such a name, with or without the root's full stop, is a valid domain in each profile (URL Standard, section
/// 3.3), and its own ASCII form. A no means only that this isn't known.
#[inline(always)]
pub fn is_plain_domain(name: &str) -> bool
    requires { is_rooted_chain name.now ≡ true }
    ensures { (profile : Profile) → IsTrue result → spec.IsDomain profile (chars name.now) name.now }
{
    if !is_fitting(name) {
        return false;
    }
    if ends_in_word(name.as_bytes()) {
        return true;
    }
    if ends_in_digit(name.as_bytes()) {
        return false;
    }
    !is_number(name)
}

// Whether the last byte is a digit, as in an address. Then the last label isn't read.
#[inline(always)]
fn ends_in_digit(name: &[u8]) -> bool {
    match name {
        [.., last] => last.is_ascii_digit(),
        [] => false,
    }
}

// Whether the last label ends with a letter that no number contains, as most do. A no means only that this wasn't seen.
pub(crate) fn ends_in_word(name: &[u8]) -> bool
    ensures { IsTrue result → spec.ends_in_number name.now ≡ false }
{
    match name {
        [.., last] if is_word_letter(*last) => true,
        [.., last, b'.'] => is_word_letter(*last),
        _ => false,
    }
}

// A lower-case letter after the hex digits and before the `x` of a number. A number doesn't contain `y` or `z` either,
// but few names end with them, so this comparison is enough.
fn is_word_letter(b: u8) -> bool
    ensures { result ≡ is_word_letter b }
{
    b > b'f' && b < b'x'
}

// Whether such a name has the lengths of a domain. It has them if it is no longer than one label may be.
#[inline(always)]
fn is_fitting(name: &str) -> bool
    requires { is_rooted_chain name.now ≡ true }
    ensures { result ≡ spec.has_lengths name.now }
{
    name.len() <= 63 || has_lengths(name)
}
