//! What a URL keeps of a text: bytes that no part encodes, and segments that aren't dot segments.
ghost use Rattle.std.specs.Prelude.{◌≡◌, ◌<◌, ◌≤◌, ◌+◌, IsTrue, false, length, true};
ghost use Rattle.std.specs.List.{list_all};
ghost use Rattle.uv_resolve.specs.Kept.{has_no_dots, is_dot_mark, is_never_encoded};

// What is seen in a part of a text.
#[derive(Clone, Copy)]
struct Seen {
    is_never_encoded: bool,
    is_without_dots: bool,
}

/// Whether no part encodes a byte of the text.
pub(crate) fn is_never_encoded(text: &str) -> bool
    ensures { IsTrue result → list_all is_never_encoded text.now ≡ true }
{
    seen_in(text.as_bytes()).is_never_encoded
}

/// Whether no `.` and no `%` follows a `/`.
pub(crate) fn is_without_dots(path: &[u8]) -> bool
    ensures { result ≡ has_no_dots false path.now }
{
    seen_in(path).is_without_dots
}

// The parts of most links are short: two windows of a fixed length, which overlap, cover such a part, and each is
// compared at once. So is the end of a longer part.
#[inline(always)]
fn seen_in(part: &[u8]) -> Seen
    ensures encoded { result.is_never_encoded ≡ list_all is_never_encoded part.now }
    ensures dots { result.is_without_dots ≡ has_no_dots false part.now }
{
    match part.len() {
        0..=8 => seen_in_window(part),
        9..=16 => seen_in_windows(part, 9, 9),
        17..=32 => seen_in_windows(part, 17, 17),
        length => seen_in_windows(part, (length - 1) / 32 * 32 + 1, 33),
    }
}

// What is seen in the first so many bytes and the last so many, which overlap.
#[inline(always)]
fn seen_in_windows(part: &[u8], first: usize, last: usize) -> Seen
    requires first { first ≤ length part.now }
    requires last { last ≤ length part.now }
    requires overlap { length part.now < first + last }
    ensures encoded { result.is_never_encoded ≡ list_all is_never_encoded part.now }
    ensures dots { result.is_without_dots ≡ has_no_dots false part.now }
{
    let start = seen_in_window(&part[..first]);
    let end = seen_in_window(&part[part.len() - last..]);
    Seen {
        is_never_encoded: start.is_never_encoded & end.is_never_encoded,
        is_without_dots: start.is_without_dots & end.is_without_dots,
    }
}

#[inline(always)]
fn seen_in_window(part: &[u8]) -> Seen
    ensures encoded { result.is_never_encoded ≡ list_all is_never_encoded part.now }
    ensures dots { result.is_without_dots ≡ has_no_dots false part.now }
{
    Seen {
        is_never_encoded: is_window_never_encoded(part),
        is_without_dots: is_window_without_dots(part),
    }
}

// By each byte in turn. No branch is taken for a byte, so that many are compared at once.
#[inline(always)]
fn is_window_never_encoded(part: &[u8]) -> bool
    ensures { result ≡ list_all is_never_encoded part.now }
{
    let mut is_encoded = false;
    for at in 0..part.len() {
        is_encoded |= !is_kept_byte(part[at]);
    }
    !is_encoded
}

// Whether no `.` and no `%` follows a `/`, by each byte in turn. No branch is taken for a byte, since those at a
// segment's start would be guessed wrong, and no byte waits for what was found of the one before it.
#[inline(always)]
fn is_window_without_dots(path: &[u8]) -> bool
    ensures { result ≡ has_no_dots false path.now }
{
    let mut has_dots = false;
    for at in 1..path.len() {
        has_dots |= (path[at - 1] == b'/') & is_dot_mark(path[at]);
    }
    !has_dots
}

// Whether no part encodes the byte: it is ASCII, and not `'`.
fn is_kept_byte(byte: u8) -> bool
    ensures { result ≡ is_never_encoded byte }
{
    byte.is_ascii() & (byte != b'\'')
}

// Whether a dot segment may begin with a byte.
fn is_dot_mark(byte: u8) -> bool
    ensures { result ≡ is_dot_mark byte }
{
    (byte == b'.') | (byte == b'%')
}
