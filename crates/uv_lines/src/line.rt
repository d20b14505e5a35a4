//! A line of a list, by whether it is known to be UTF-8.
ghost use Rattle.std.specs.Prelude.{◌≡◌, ◌+◌, ◌<◌, IfErr, MatchResult, drop, length, slice_index, take};
ghost use Rattle.std.specs.Str.{IsUtf8, IsValidUpTo, valid_up_to};
ghost use Rattle.std.specs.Str.Lines.{strip_carriage_return};
ghost use Rattle.std.specs.Str.Lossy.{utf8_valid_len};
ghost use Rattle.uv_lines.specs.Line.{bytes_of};
ghost use Rattle.uv_lines.specs.Lines.{line_feed};

use crate::line_parts::without_return;
use std::str::{Utf8Error, from_utf8};

/// A line of a list. Whole pieces of a list are checked for UTF-8, so most lines are known to be text.
#[derive(Clone, Copy)]
pub enum Line<'l> {
    /// It is UTF-8.
    Text(&'l str),
    /// It wasn't checked, or isn't UTF-8.
    Bytes(&'l [u8]),
}

impl<'l> Line<'l> {
    /// Its bytes.
    #[inline(always)]
    pub fn as_bytes(self) -> &'l [u8]
        ensures { result.now ≡ bytes_of self.entry }
    {
        match self {
            Line::Text(text) => text.as_bytes(),
            Line::Bytes(bytes) => bytes,
        }
    }

    /// Its text, if it is UTF-8.
    #[inline(always)]
    pub fn text(self) -> Result<&'l str, Utf8Error>
        ensures cases { MatchResult result (λ text. (text.now ≡ bytes_of self.entry) × IsUtf8 (bytes_of self.entry))
            (λ fault. ¬ (IsUtf8 (bytes_of self.entry)) × IsValidUpTo (bytes_of self.entry) (valid_up_to fault)) }
        ensures valid { IfErr result (λ fault. valid_up_to fault ≡ utf8_valid_len (bytes_of self.entry)) }
    {
        match self {
            Line::Text(text) => Ok(text),
            Line::Bytes(bytes) => from_utf8(bytes),
        }
    }

    /// The line without the one CR at its end, if it has one.
    #[inline(always)]
    pub(crate) fn without_return(self) -> Line<'l>
        ensures { bytes_of result ≡ strip_carriage_return (bytes_of self.entry) }
    {
        match self {
            Line::Text(text) => Line::Text(text_without_return(text)),
            Line::Bytes(bytes) => Line::Bytes(without_return(bytes)),
        }
    }
}

// A text without the one CR at its end, if it has one.
#[inline(always)]
fn text_without_return(text: &str) -> &str
    ensures { result.now ≡ strip_carriage_return text.now }
{
    match text.as_bytes() {
        [.., b'\r'] => &text[..text.len() - 1],
        _ => text,
    }
}

/// The line before an LF. `text` is the text that the bytes begin with, as far as it is known.
#[inline(always)]
pub(crate) fn line_before<'p>(bytes: &'p [u8], text: &'p str, end: usize) -> Line<'p>
    requires known { text.now ≡ take (length text.now) bytes.now }
    requires within { end < length bytes.now }
    requires feed { slice_index bytes.now end ≡ line_feed }
    ensures { bytes_of result ≡ take end bytes.entry.now }
{
    if end < text.len() {
        Line::Text(&text[..end])
    } else {
        Line::Bytes(&bytes[..end])
    }
}

/// The text that bytes begin with: the known one if it has more than this many bytes, otherwise the longest there is.
#[inline(always)]
pub(crate) fn text_beyond<'p>(bytes: &'p [u8], text: &'p str, end: usize) -> &'p str
    requires { text.now ≡ take (length text.now) bytes.now }
    ensures { result.now ≡ take (length result.now) bytes.entry.now }
{
    if end < text.len() {
        return text;
    }
    match bytes.utf8_chunks().next() {
        Some(chunk) => chunk.valid(),
        None => "",
    }
}

/// What comes after a line and its LF in a text.
#[inline(always)]
pub(crate) fn text_after(text: &str, end: usize) -> &str
    requires { end < length text.now → slice_index text.now end ≡ line_feed }
    ensures { result.now ≡ drop (end + 1) text.now }
{
    if end < text.len() {
        &text[end + 1..]
    } else {
        ""
    }
}
