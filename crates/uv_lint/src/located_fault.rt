//! Why a line doesn't say where its link is.
ghost use Rattle.std.specs.Prelude.{◌≡◌, option_map};
ghost use Rattle.uv_lint.specs.LocatedFault as spec;
ghost use Rattle.uv_lint.specs.LocatedViews.{number_view, run_view};

use crate::located::{Number, Run, file_length, number_of, run_of};
use uv_rules::LocatedFault;

/// Why a line that isn't `FILE:LINE:COLUMN:LINK` isn't one.
pub(crate) fn located_fault(line: &[u8]) -> LocatedFault
    ensures { result ≡ spec.located_fault line.now }
{
    let (file, text) = line.split_at(file_length(line));
    match run_of(text) {
        Some(run) => run_fault(file, run),
        None => number_fault(first_number(line)),
    }
}

// Why a run after the name of a file says no place of a link.
fn run_fault(file: &[u8], run: Run<'_>) -> LocatedFault
    ensures { result ≡ spec.run_fault file.now (run_view run.entry) }
{
    if file.is_empty() {
        LocatedFault::NoFile
    } else if run.line.is_none() {
        LocatedFault::LineRange
    } else {
        LocatedFault::ColumnRange
    }
}

// What is missing in a line without a run, by its first whole number.
fn number_fault(first: Option<Number<'_>>) -> LocatedFault
    ensures { result ≡ spec.number_fault (option_map number_view first.entry) }
{
    let Some(line) = first else {
        return LocatedFault::NoLine;
    };
    match whole_number(line.rest) {
        Some(_) => LocatedFault::NoLink,
        None => LocatedFault::NoColumn,
    }
}

// The first whole number of a line, and what follows it.
fn first_number(line: &[u8]) -> Option<Number<'_>>
    ensures { option_map number_view result ≡ spec.first_number line.now }
{
    for place in 0..line.len() {
        let (_, text) = line.split_at(place);
        let number = whole_number(text);
        if number.is_some() {
            return number;
        }
    }
    None
}

// The number after the colon that a text begins with, where a colon follows it or nothing does.
fn whole_number(text: &[u8]) -> Option<Number<'_>>
    ensures { option_map number_view result ≡ spec.whole_number text.now }
{
    let number = number_of(text)?;
    if ends_number(number.rest) {
        Some(number)
    } else {
        None
    }
}

// Whether nothing follows a number, or a colon.
fn ends_number(rest: &[u8]) -> bool
    ensures { result ≡ spec.ends_number rest.now }
{
    match rest {
        [] => true,
        [byte, ..] => *byte == b':',
    }
}
