//! The unit in which columns are counted, and the column after a code point.
ghost use Rattle.std.specs.Prelude.{◌≡◌};
ghost use Rattle.uv_report.specs.Places.Column as spec;

use unicode_width::UnicodeWidthChar;
use uv_shown::is_hidden;

/// What columns count.
#[derive(Clone, Copy, Debug, PartialEq, Eq)]
pub enum Columns {
    /// Code points.
    CodePoints,
    /// The bytes of UTF-8.
    Bytes,
    /// The code units of UTF-16: two for a code point from U+10000 on.
    Utf16,
    /// The columns of a screen: two for a wide code point, none for a combining mark, and for a tab as many as there
    /// are up to the next stop, which comes every eight columns.
    Screen,
}

impl Columns {
    /// The unit's name.
    pub fn name(self) -> &'static str
        ensures { result.now ≡ spec.columns_name self }
    {
        match self {
            Columns::CodePoints => "code-points",
            Columns::Bytes => "bytes",
            Columns::Utf16 => "utf16",
            Columns::Screen => "screen",
        }
    }

    /// The unit with this name, or `None` if no unit has it.
    pub fn of_name(name: &str) -> Option<Columns>
        ensures { result ≡ spec.named_columns name.now }
    {
        match name {
            "code-points" => Some(Columns::CodePoints),
            "bytes" => Some(Columns::Bytes),
            "utf16" => Some(Columns::Utf16),
            "screen" => Some(Columns::Screen),
            _ => None,
        }
    }
}

/// The column after a code point at this column. The greatest number of 64 bits stands for every column beyond it.
pub(crate) fn column_after(columns: Columns, column: u64, c: char) -> u64
    ensures { result ≡ spec.column_after columns column c }
{
    column.saturating_add(point_width(columns, column, c))
}

// How many columns a code point at this column takes.
fn point_width(columns: Columns, column: u64, c: char) -> u64
    ensures { result ≡ spec.point_width columns column c }
{
    match columns {
        Columns::CodePoints => 1,
        Columns::Bytes => c.len_utf8() as u64,
        Columns::Utf16 => c.len_utf16() as u64,
        Columns::Screen if c == '\t' => to_next_stop(column),
        Columns::Screen => shown_width(c) as u64,
    }
}

// How many columns there are from one up to the next tab stop.
fn to_next_stop(column: u64) -> u64
    ensures { result ≡ spec.to_next_stop column }
{
    8 - column.saturating_sub(1) % 8
}

/// How many columns of a screen a code point takes as it is shown.
pub(crate) fn shown_width(c: char) -> usize
    ensures { result ≡ spec.shown_width c }
{
    let shown = if is_hidden(c) { '\u{FFFD}' } else { c };
    shown.width().unwrap_or(0)
}
