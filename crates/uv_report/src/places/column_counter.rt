//! The columns of the places of a text.
ghost use Rattle.std.specs.Prelude.{◌≡◌, ℕ, ◌+◌, ◌-◌, ◌^◌, ◌<◌, ◌≤◌, List, [], IfSome, MatchOption};
ghost use Rattle.std.specs.Str.{chars};
ghost use Rattle.uv_report.specs.Places.Column.{column_at};
ghost use Rattle.uv_report.specs.Places.ColumnCounter.{IsMark, Tells};
ghost use Rattle.uv_report.specs.declared.places.column.Columns.TheVariants.{CodePoints};

use crate::places::column::{Columns, column_after};
use std::marker::Model;
use uv_model::first_code_point;

// A place of a text, its column, and what comes from there on.
#[derive(Clone, Copy)]
struct Mark<'t> {
    place: usize,
    column: u64,
    rest: &'t str,
}

/// Gives the columns of the places of a text. It goes on from the place that it was last asked for, unless the next one
/// comes before that: so places in ascending order take one pass over the text.
#[derive(Drop)]
pub struct ColumnCounter<'t> {
    columns: Columns,
    start: u64,
    text: &'t str,
    last: Mark<'t>,
}

impl<'t> Model for ColumnCounter<'t> {
    ghost use Rattle.uv_report.specs.Places.ColumnCounter.{Counted, IsMark};

    ghost Value = { Counted };

    ghost view = { λ c. record { columns = c.columns; start = c.start; text = c.text.now } };

    ghost invariant = { λ c. IsMark c.columns c.start c.text.now c.last };
}

impl<'t> ColumnCounter<'t> {
    /// The counter for a text that begins in a column.
    pub fn new(columns: Columns, start: u64, text: &'t str) -> ColumnCounter<'t>
        ensures { result ≡ record { columns = columns; start = start; text = text.entry.now } }
    {
        ColumnCounter {
            columns,
            start,
            text,
            last: first_mark(start, text),
        }
    }

    /// The column of a place: as many columns after the text's start as what is before the place takes.
    pub fn column(&mut self, place: usize) -> u64
        ensures column { result ≡ column_at self.old.columns self.old.start self.old.text place }
        ensures same { self.new ≡ self.old }
    {
        if place < self.last.place {
            self.last = first_mark(self.start, self.text);
        }
        self.last = mark_at(self.columns, self.last, place);
        self.last.column
    }

    /// The column of a place, as `column` gives it. The next one is still counted from where the last one was.
    pub fn column_ahead(&self, place: usize) -> u64
        ensures { result ≡ column_at self.now.columns self.now.start self.now.text place }
    {
        if place < self.last.place {
            mark_at(self.columns, first_mark(self.start, self.text), place).column
        } else {
            mark_at(self.columns, self.last, place).column
        }
    }
}

// The mark of the place 0.
fn first_mark<'t>(start: u64, text: &'t str) -> Mark<'t>
    ensures mark { (columns : Columns) → IsMark columns start text.entry.now result }
    ensures first { result.place ≡ 0 }
{
    Mark {
        place: 0,
        column: start,
        rest: text,
    }
}

// The mark of a place after another, or of the text's end if it has no such place.
fn mark_at<'t>(columns: Columns, from: Mark<'t>, place: usize) -> Mark<'t>
    requires { from.place ≤ place }
    ensures { (start : ℕ) (text : List ℕ) → IsMark columns start text from.entry
        → Tells columns start text place result }
{
    match mark_after_ascii(columns, from, place) {
        Some(mark) => mark,
        None => mark_by_steps(columns, from, place),
    }
}

// The mark of a place after another, if code points are counted and those between the two are ASCII: it is found
// without a walk over them.
fn mark_after_ascii<'t>(columns: Columns, from: Mark<'t>, place: usize) -> Option<Mark<'t>>
    requires { from.place ≤ place }
    ensures { (start : ℕ) (text : List ℕ) → IsMark columns start text from.entry
        → IfSome result (Tells columns start text place) }
{
    match columns {
        Columns::CodePoints => point_after_ascii(from, place),
        Columns::Bytes | Columns::Utf16 | Columns::Screen => None,
    }
}

// The mark of a place after another in columns of code points, if those between the two are ASCII.
fn point_after_ascii<'t>(from: Mark<'t>, place: usize) -> Option<Mark<'t>>
    requires { from.place ≤ place }
    ensures { (start : ℕ) (text : List ℕ) → IsMark CodePoints start text from.entry
        → IfSome result (Tells CodePoints start text place) }
{
    let count = place - from.place;
    match from.rest.split_at_checked(count) {
        Some((front, rest)) if front.is_ascii() => Some(Mark {
            place,
            column: from.column.saturating_add(count as u64),
            rest,
        }),
        _ => None,
    }
}

// The mark of a place after another, found code point by code point.
fn mark_by_steps<'t>(columns: Columns, from: Mark<'t>, place: usize) -> Mark<'t>
    requires { from.place ≤ place }
    ensures { (start : ℕ) (text : List ℕ) → IsMark columns start text from.entry
        → Tells columns start text place result }
{
    let mut mark = from;
    for _ in from.place..place {
        match next_mark(columns, mark) {
            Some(next) => mark = next,
            None => return mark,
        }
    }
    mark
}

// The mark of the next place, or `None` at the text's end.
fn next_mark<'t>(columns: Columns, mark: Mark<'t>) -> Option<Mark<'t>>
    requires { mark.place < 2 ^ 64 - 1 }
    ensures place { IfSome result (λ next. next.place ≡ mark.entry.place + 1) }
    ensures next { (start : ℕ) (text : List ℕ) → IsMark columns start text mark.entry
        → MatchOption result (chars mark.entry.rest.now ≡ []) (IsMark columns start text) }
{
    let (c, rest) = first_code_point(mark.rest)?;
    Some(Mark {
        place: mark.place + 1,
        column: column_after(columns, mark.column, c),
        rest,
    })
}
