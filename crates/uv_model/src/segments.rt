//! What the parser sees in a segment of a path: dot segments and Windows drive letters.
ghost use Rattle.std.specs.Prelude.{◌≡◌, chars};
ghost use Rattle.uv_model.specs.Path as spec;

use crate::scheme::is_name;

/// Whether the segment is `..` in one of its spellings, also with `%2e` in any case (URL Standard, section 4.3).
#[tactic(auto, unfolding(crate::specs::Path::is_double_dot))]
pub fn is_double_dot(segment: &str) -> bool
    ensures { result ≡ spec.is_double_dot (chars segment.now) }
{
    if is_name(segment, "..") {
        return true;
    }
    if is_name(segment, ".%2e") {
        return true;
    }
    if is_name(segment, "%2e.") {
        return true;
    }
    is_name(segment, "%2e%2e")
}

/// Whether the segment is `.` or `%2e` in any case (URL Standard, section 4.3).
#[tactic(auto, unfolding(crate::specs::Path::is_single_dot))]
pub fn is_single_dot(segment: &str) -> bool
    ensures { result ≡ spec.is_single_dot (chars segment.now) }
{
    if is_name(segment, ".") {
        return true;
    }
    is_name(segment, "%2e")
}

/// Whether the text is an ASCII letter and `:` (URL Standard, section 4.2).
pub fn is_normalized_drive_letter(text: &[u8]) -> bool
    ensures { result ≡ spec.is_normalized_drive_letter text.now }
{
    match text {
        [letter, mark] => letter.is_ascii_alphabetic() && *mark == b':',
        _ => false,
    }
}

/// Whether the text is an ASCII letter, and `:` or `|` (URL Standard, section 4.2).
pub fn is_drive_letter(text: &[u8]) -> bool
    ensures { result ≡ spec.is_drive_letter text.now }
{
    match text {
        [letter, mark] => letter.is_ascii_alphabetic() && (*mark == b':' || *mark == b'|'),
        _ => false,
    }
}
