//! Links that are the text of their URL, as most are: `https://` or `http://`, a plain name, and a path, a query and a
//! fragment that the second parser writes as they are.
ghost use Rattle.std.specs.Prelude.{◌≡◌, ◌∷◌, ◌++◌, ℕ, List, IfSome, IsTrue, Option, Some, length, slice_index, true};
ghost use Rattle.std.specs.Char as char_spec;
ghost use Rattle.url.specs.Ascii.{dot, slash};
ghost use Rattle.url.specs.Input as input;
ghost use Rattle.url.specs.Parts.{Parts};
ghost use Rattle.uv_compare.specs.PlainLinks as spec;
ghost use Rattle.uv_compare.specs.PlainLinks.{FollowsName, FollowsScheme, HasNoDots};
ghost use Rattle.uv_compare.specs.Second.{text_against};

use uv_text::{byte_rows, row_end};

// The bytes of a plain name, by the low half of a byte: a bit for each high half.
const NAME_ROWS: [u8; 16] = byte_rows!(b'a'..=b'z' | b'0'..=b'9' | b'-' | b'.' | b'_');

// The bytes that are written as they are in a path, a query and a fragment, but the backslash, which becomes a slash.
const PLAIN_ROWS: [u8; 16] = byte_rows!(
    b'0'..=b'9' | b'A'..=b'Z' | b'a'..=b'z' | b'!' | b'#'..=b'&' | b'('..=b'/' | b':' | b';' | b'=' | b'?' | b'@' | b'['
    | b']' | b'_' | b'|' | b'~'
);

/// Whether a text is recognized as the text of the URL that the second parser reads in it, against any base. A no means
/// only that it wasn't recognized.
pub(crate) fn is_own_url(text: &str) -> bool
    ensures { (base : Option Parts) → IsTrue result → text_against base text.now ≡ Some text.now }
{
    match after_name(text) {
        Some(rest) => begins_with_slash(rest) && is_plain(rest),
        None => false,
    }
}

// What follows a web scheme, `://` and a plain name at the start of a text.
fn after_name(text: &str) -> Option<&[u8]>
    ensures { IfSome result (λ rest. FollowsName text.now rest.now) }
{
    let named = after_scheme(text)?.as_bytes();
    let (name, rest) = named.split_at(row_end(named, 0, &NAME_ROWS));
    if begins_with_letter(last_label(name)) {
        Some(rest)
    } else {
        None
    }
}

// What follows `https://` or `http://` at the start of a text.
fn after_scheme(text: &str) -> Option<&str>
    ensures { IfSome result (λ rest. FollowsScheme text.now rest.now) }
{
    if let Some(rest) = after(text, "https://") {
        return Some(rest);
    }
    let rest = after(text, "http://")?;
    Some(rest)
}

// What follows this prefix of a text.
fn after<'t>(text: &'t str, front: &str) -> Option<&'t str>
    ensures { IfSome result (λ rest. text.now ≡ front.now ++ rest.now) }
{
    let rest = text.strip_prefix(front)?;
    Some(rest)
}

// What is after the last dot of a name, or the whole name if it has none.
fn last_label(name: &[u8]) -> &[u8]
    ensures { result.now ≡ (input.rsplit_once dot name.now).1 }
{
    match name.iter().rposition(|&b| b == b'.') {
        Some(place) => &name[place + 1..],
        None => name,
    }
}

// Whether a label begins with a letter, so that it isn't a number.
fn begins_with_letter(label: &[u8]) -> bool
    ensures { result ≡ char_spec.is_ascii_lowercase (slice_index label.now 0) }
{
    match label {
        [first, ..] => first.is_ascii_lowercase(),
        [] => false,
    }
}

fn begins_with_slash(bytes: &[u8]) -> bool
    ensures { IsTrue result → (rest : List ℕ) × (bytes.now ≡ slash ∷ rest) }
{
    matches!(bytes, [b'/', ..])
}

// Whether bytes are recognized as plain.
fn is_plain(bytes: &[u8]) -> bool
    ensures { IsTrue result → spec.is_plain bytes.now ≡ true }
{
    row_end(bytes, 0, &PLAIN_ROWS) == bytes.len() && has_no_dots(bytes)
}

// Whether no `/` is followed by `.`, or by `%`, which may begin the escape of a dot. It looks at each byte, so that the
// compiler can look at many at once.
fn has_no_dots(bytes: &[u8]) -> bool
    ensures { IsTrue result → HasNoDots bytes.now (length bytes.now) }
{
    let mut found = false;
    for at in 1..bytes.len() {
        found |= (bytes[at - 1] == b'/') & may_be_dot(bytes[at]);
    }
    !found
}

// Whether a byte is a dot, or may begin the escape of one.
fn may_be_dot(byte: u8) -> bool
    ensures { result ≡ spec.may_be_dot byte }
{
    (byte == b'.') | (byte == b'%')
}
