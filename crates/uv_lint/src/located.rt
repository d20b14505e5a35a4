//! Lines that say where their link is.
ghost use Rattle.std.specs.Prelude.{◌≡◌, option_copied, option_map, true};
ghost use Rattle.std.specs.Char.{is_ascii_digit};
ghost use Rattle.std.specs.List.{list_all};
ghost use Rattle.std.specs.Str.Parse.{digits_value};
ghost use Rattle.uv_lint.specs.LineViolations as violations;
ghost use Rattle.uv_lint.specs.Located as spec;
ghost use Rattle.uv_lint.specs.LocatedViews.{link_view, number_view, run_view};

use crate::setting::LineForm;
use std::str::from_utf8;

/// A link with the place where it is, as its line says it.
#[derive(Clone, Copy)]
pub(crate) struct LocatedLink<'l> {
    /// The name of the file, which isn't empty.
    pub(crate) file: &'l str,
    /// The number of the line in that file, from 1.
    pub(crate) line: u32,
    /// The column of the link's beginning in that line, from 1.
    pub(crate) column: u32,
    /// The link, in bytes that need not be UTF-8.
    pub(crate) link: &'l [u8],
}

/// One or more digits: the number, where it is from 1 to 2^32 - 1, and what follows them.
#[derive(Clone, Copy)]
pub(crate) struct Number<'l> {
    pub(crate) value: Option<u32>,
    pub(crate) rest: &'l [u8],
}

/// `:LINE:COLUMN:`: the two numbers, where they are from 1 to 2^32 - 1, and the link after them.
#[derive(Clone, Copy)]
pub(crate) struct Run<'l> {
    pub(crate) line: Option<u32>,
    pub(crate) column: Option<u32>,
    pub(crate) link: &'l [u8],
}

/// The link of a line that says where it is, where lines are to say it.
pub(crate) fn link_of(form: LineForm, line: Option<&[u8]>) -> Option<LocatedLink<'_>>
    ensures { option_map link_view result ≡ violations.link_of form (option_copied line.entry) }
{
    match form {
        LineForm::Plain => None,
        LineForm::Located => located(line?),
    }
}

/// The link of a line `FILE:LINE:COLUMN:LINK`, and where it is. FILE is all before the first `:digits:digits:`; it
/// isn't empty and is UTF-8, and both numbers are from 1 to 2^32 - 1. `None` stands for a line that isn't of this form.
pub(crate) fn located(line: &[u8]) -> Option<LocatedLink<'_>>
    ensures { option_map link_view result ≡ spec.located line.now }
{
    let (file, text) = line.split_at(file_length(line));
    let run = run_of(text)?;
    link_in(file, run)
}

/// How many bytes are before the first run: all of them, where there is none.
pub(crate) fn file_length(line: &[u8]) -> usize
    ensures { result ≡ spec.file_length line.now }
{
    for place in 0..line.len() {
        let (_, text) = line.split_at(place);
        if run_of(text).is_some() {
            return place;
        }
    }
    line.len()
}

// The link of a run after the name of a file.
fn link_in<'l>(file: &'l [u8], run: Run<'l>) -> Option<LocatedLink<'l>>
    ensures { option_map link_view result ≡ spec.link_in file.entry.now (run_view run.entry) }
{
    Some(LocatedLink {
        file: name_of(file)?,
        line: run.line?,
        column: run.column?,
        link: run.link,
    })
}

// The name of a file, if it isn't empty and is UTF-8.
fn name_of(file: &[u8]) -> Option<&str>
    ensures { option_map (λ name. name.now) result ≡ spec.name_of file.now }
{
    if file.is_empty() {
        return None;
    }
    match from_utf8(file) {
        Ok(name) => Some(name),
        Err(_) => None,
    }
}

/// The run that a text begins with.
#[tactic(auto, unfolding(crate::specs::Located::run_of))]
pub(crate) fn run_of(text: &[u8]) -> Option<Run<'_>>
    ensures { option_map run_view result ≡ spec.run_of text.now }
{
    let line = number_of(text)?;
    let column = number_of(line.rest)?;
    let link = after_colon(column.rest)?;
    Some(Run {
        line: line.value,
        column: column.value,
        link,
    })
}

/// The digits after the colon that a text begins with, and what follows them.
pub(crate) fn number_of(text: &[u8]) -> Option<Number<'_>>
    ensures { option_map number_view result ≡ spec.number_of text.now }
{
    let after = after_colon(text)?;
    let count = digit_count(after);
    if count == 0 {
        return None;
    }
    let (digits, rest) = after.split_at(count);
    let value = value_of(digits);
    Some(Number { value, rest })
}

// What follows the colon that a text begins with.
fn after_colon(text: &[u8]) -> Option<&[u8]>
    ensures { option_map (λ rest. rest.now) result ≡ spec.after_colon text.now }
{
    match text {
        [b':', rest @ ..] => Some(rest),
        _ => None,
    }
}

// How many digits a text begins with.
fn digit_count(text: &[u8]) -> usize
    ensures { result ≡ spec.digit_count text.now }
{
    text.iter().take_while(|b| b.is_ascii_digit()).count()
}

// The number that digits write, where it is from 1 to 2^32 - 1.
fn value_of(digits: &[u8]) -> Option<u32>
    requires { list_all is_ascii_digit digits.now ≡ true }
    ensures { result ≡ spec.in_range (digits_value 10 digits.now) }
{
    match from_utf8(digits) {
        Ok(text) => value_of_text(text),
        Err(_) => None,
    }
}

// The number that a text of digits writes, where it is from 1 to 2^32 - 1.
fn value_of_text(text: &str) -> Option<u32>
    requires { list_all is_ascii_digit text.now ≡ true }
    ensures { result ≡ spec.in_range (digits_value 10 text.now) }
{
    match text.parse::<u32>() {
        Ok(number) => in_range(number),
        Err(_) => None,
    }
}

// A number, where it is from 1 on.
fn in_range(number: u32) -> Option<u32>
    ensures { result ≡ spec.in_range number }
{
    if number > 0 { Some(number) } else { None }
}
