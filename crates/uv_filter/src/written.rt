//! What is written for a line.
ghost use Rattle.std.specs.Prelude.{◌≡◌, ◌≤◌, ◌++◌, OnErr, OnOk, length};
ghost use Rattle.std.specs.Io.{StartsWith};
ghost use Rattle.uv_filter.specs.Fates.{written_of};
ghost use Rattle.uv_filter.specs.Lines as spec;
ghost use Rattle.uv_filter.specs.Lines.{feed_of, replaced, whole};

use crate::fate::Fate;
use std::alloc::AllocError;
use uv_lines::{line_text, without_mark};

/// A line: what comes before its LF, or after the last one, and whether an LF ends it.
#[derive(Clone, Copy)]
pub(crate) struct ListLine<'l> {
    pub(crate) bytes: &'l [u8],
    pub(crate) is_closed: bool,
}

/// The part of a line's text that is checked: in the first line not the byte order mark.
pub(crate) fn checked(text: &[u8], is_first: bool) -> &[u8]
    ensures value { result.now ≡ spec.checked_of is_first text.now }
    ensures within { length result.now ≤ length text.now }
{
    if is_first { without_mark(text) } else { text }
}

/// Appends what is written for a line, by what became of it. An error means that memory ran out: `out` then still
/// begins with what it held.
pub(crate) fn push_written(
    out: &mut Vec<u8>,
    line: ListLine<'_>,
    is_first: bool,
    fate: &Fate,
) -> Result<(), AllocError>
    ensures ok { OnOk result (out.new.items
        ≡ out.old.items ++ written_of is_first (spec.line_view line.entry) fate.now) }
    ensures err { OnErr result (StartsWith out.new.items out.old.items) }
{
    match fate {
        Fate::Mended { text, .. } => push_replaced(out, line, is_first, text.as_str()),
        _ => push_whole(out, line),
    }
}

// The whole line.
fn push_whole(out: &mut Vec<u8>, line: ListLine<'_>) -> Result<(), AllocError>
    ensures ok { OnOk result (out.new.items ≡ out.old.items ++ whole (spec.line_view line.entry)) }
    ensures err { OnErr result (StartsWith out.new.items out.old.items) }
{
    push(out, line.bytes)?;
    push_feed(out, line.is_closed)
}

// The line with another text in place of what was checked.
fn push_replaced(
    out: &mut Vec<u8>,
    line: ListLine<'_>,
    is_first: bool,
    other: &str,
) -> Result<(), AllocError>
    ensures ok { OnOk result (out.new.items
        ≡ out.old.items ++ replaced is_first (spec.line_view line.entry) other.now) }
    ensures err { OnErr result (StartsWith out.new.items out.old.items) }
{
    let text = line_text(line.bytes, line.is_closed);
    let checked = checked(text, is_first);
    let mark = &line.bytes[..text.len() - checked.len()];
    push_between(out, mark, other.as_bytes(), &line.bytes[text.len()..])?;
    push_feed(out, line.is_closed)
}

// A text between two others.
fn push_between(
    out: &mut Vec<u8>,
    before: &[u8],
    text: &[u8],
    after: &[u8],
) -> Result<(), AllocError>
    ensures ok { OnOk result (out.new.items ≡ out.old.items ++ (before.now ++ (text.now ++ after.now))) }
    ensures err { OnErr result (StartsWith out.new.items out.old.items) }
{
    push(out, before)?;
    push(out, text)?;
    push(out, after)
}

// The LF, if one ends the line.
fn push_feed(out: &mut Vec<u8>, is_closed: bool) -> Result<(), AllocError>
    ensures ok { OnOk result (out.new.items ≡ out.old.items ++ feed_of is_closed) }
    ensures err { OnErr result (StartsWith out.new.items out.old.items) }
{
    if is_closed {
        return push(out, b"\n");
    }
    Ok(())
}

// Appends bytes.
fn push(out: &mut Vec<u8>, bytes: &[u8]) -> Result<(), AllocError>
    ensures ok { OnOk result (out.new.items ≡ out.old.items ++ bytes.now) }
    ensures err { OnErr result (out.new.items ≡ out.old.items) }
{
    out.extend_from_slice(bytes)
}
