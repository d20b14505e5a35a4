//! Why bytes aren't JSON text, and where.
ghost use Rattle.std.specs.Prelude.{◌≡◌, ◌+◌, ◌≤◌, ◌++◌, ◌∷◌, [], ℕ, Decides, IsUtf8, List, length};
ghost use Rattle.std.specs.Fmt.{is_char_start};
ghost use Rattle.uv_vectors.specs.JsonFault.{IsFaultOf, IsOffsetOf, byte_place_after, place_after};
ghost use Rattle.uv_vectors.specs.Run.{most_bytes};

use serde_json::Error;

/// A place of a file: its line, and its column in the line, both from 1. A column counts code points.
#[derive(Clone, Copy, Debug, PartialEq, Eq)]
pub struct FilePlace {
    /// The line.
    pub line: usize,
    /// The column in the line.
    pub column: usize,
}

// The place of a byte: its line, and its column in the line, both from 1. A column counts bytes.
#[derive(Clone, Copy, PartialEq, Eq)]
struct BytePlace {
    line: usize,
    column: usize,
}

/// Why bytes aren't JSON text, and where.
#[derive(Clone, Copy, Debug, PartialEq, Eq)]
pub enum JsonFault {
    /// What is here isn't UTF-8.
    NotUtf8(FilePlace),
    /// They end here, within their JSON.
    CutShort(FilePlace),
    /// What is here can't be read as JSON.
    Unreadable(FilePlace),
}

impl JsonFault {
    /// Why bytes aren't JSON text, according to their reader's error.
    pub(crate) fn of(bytes: &[u8], error: &Error) -> JsonFault
        requires { length bytes.now ≤ most_bytes }
        ensures { IsFaultOf bytes.now result }
    {
        match str::from_utf8(bytes) {
            Ok(_) => text_fault(bytes, error),
            Err(fault) => JsonFault::NotUtf8(place_after(&bytes[..fault.valid_up_to()])),
        }
    }
}

// Why bytes that are UTF-8 aren't JSON text, according to their reader's error.
fn text_fault(bytes: &[u8], error: &Error) -> JsonFault
    requires utf8 { IsUtf8 bytes.now }
    requires few { length bytes.now ≤ most_bytes }
    ensures { IsFaultOf bytes.now result }
{
    let place = BytePlace {
        line: error.line(),
        column: error.column(),
    };
    let at = offset_of(bytes, place);
    if error.is_eof() || at >= bytes.len() {
        JsonFault::CutShort(place_after(bytes))
    } else {
        JsonFault::Unreadable(place_after(&bytes[..at]))
    }
}

// How many bytes come before the one at a place; all of them if none of them is there. No contract of the reader says
// what it means by a line and a column.
fn offset_of(bytes: &[u8], place: BytePlace) -> usize
    requires { length bytes.now ≤ most_bytes }
    ensures { IsOffsetOf bytes.now place result }
{
    let mut here = BytePlace { line: 1, column: 1 };
    for (at, byte) in bytes.iter().enumerate() {
        if is_same(here, place) {
            return at;
        }
        here = next_byte_place(here, *byte);
    }
    bytes.len()
}

// Whether two places are the same.
fn is_same(here: BytePlace, place: BytePlace) -> bool
    ensures { Decides result (here ≡ place) }
{
    here == place
}

// The place after one more byte, where columns count bytes.
fn next_byte_place(place: BytePlace, byte: u8) -> BytePlace
    requires line { place.line ≤ most_bytes }
    requires column { place.column ≤ most_bytes }
    ensures place { (bytes : List ℕ) → place ≡ byte_place_after bytes
        → result ≡ byte_place_after (bytes ++ byte ∷ []) }
    ensures line { result.line ≤ place.line + 1 }
    ensures column { result.column ≤ place.column + 1 }
{
    if byte == b'\n' {
        BytePlace {
            line: place.line + 1,
            column: 1,
        }
    } else {
        BytePlace {
            line: place.line,
            column: place.column + 1,
        }
    }
}

// The place after all of these bytes.
fn place_after(bytes: &[u8]) -> FilePlace
    requires { length bytes.now ≤ most_bytes }
    ensures { result ≡ place_after bytes.now }
{
    let mut place = FilePlace { line: 1, column: 1 };
    for byte in bytes {
        place = next_place(place, *byte);
    }
    place
}

// The place after one more byte: a line feed ends a line, and each code point is a column.
fn next_place(place: FilePlace, byte: u8) -> FilePlace
    requires line { place.line ≤ most_bytes }
    requires column { place.column ≤ most_bytes }
    ensures place { (bytes : List ℕ) → place ≡ place_after bytes → result ≡ place_after (bytes ++ byte ∷ []) }
    ensures line { result.line ≤ place.line + 1 }
    ensures column { result.column ≤ place.column + 1 }
{
    let FilePlace { line, column } = place;
    if byte == b'\n' {
        FilePlace {
            line: line + 1,
            column: 1,
        }
    } else if begins_code_point(byte) {
        FilePlace {
            line,
            column: column + 1,
        }
    } else {
        place
    }
}

// Whether a byte is the first of a code point.
fn begins_code_point(byte: u8) -> bool
    ensures { result ≡ is_char_start byte }
{
    byte < 0x80 || byte >= 0xC0
}
