//! What reports name by a number: formats, units, completions, kinds, and what can be wrong with a text or a line.
ghost use Rattle.std.specs.Prelude.{◌≡◌};
ghost use Rattle.urlcheck_c.specs.ReportNumbers as spec;

use crate::names::rule_of;
use uv_model::{MendKind, Refusal};
use uv_report::{Columns, Completion, Format, Look};
use uv_rules::{LineViolation, LocatedFault};

/// The format with this number.
pub(crate) fn format_of(number: u32) -> Option<Format>
    ensures { result ≡ spec.format_of number }
{
    match number {
        0 => Some(Format::Gnu),
        1 => Some(Format::Caret),
        2 => Some(Format::Json),
        3 => Some(Format::Github),
        4 => Some(Format::Sarif),
        5 => Some(Format::Checkstyle),
        6 => Some(Format::Junit),
        7 => Some(Format::Gitlab),
        8 => Some(Format::Rdjson),
        _ => None,
    }
}

/// The unit of columns with this number.
pub(crate) fn unit_of(number: u32) -> Option<Columns>
    ensures { result ≡ spec.unit_of number }
{
    match number {
        0 => Some(Columns::CodePoints),
        1 => Some(Columns::Bytes),
        2 => Some(Columns::Utf16),
        3 => Some(Columns::Screen),
        _ => None,
    }
}

/// The look by whether there are to be colours: not 0 for yes.
pub(crate) fn look_of(is_coloured: u32) -> Look
    ensures { result ≡ spec.look_of is_coloured }
{
    if is_coloured == 0 {
        Look::Plain
    } else {
        Look::Coloured
    }
}

/// The completion with this number.
pub(crate) fn completion_of(number: u32) -> Option<Completion>
    ensures { result ≡ spec.completion_of number }
{
    match number {
        0 => Some(Completion::Whole),
        1 => Some(Completion::Unread),
        2 => Some(Completion::Stopped),
        _ => None,
    }
}

/// The kind of mended text with this number.
pub(crate) fn kind_of(number: u32) -> Option<MendKind>
    ensures { result ≡ spec.kind_of number }
{
    match number {
        1 => Some(MendKind::Same),
        2 => Some(MendKind::Escaped),
        3 => Some(MendKind::Changed),
        _ => None,
    }
}

/// What is wrong at a place, by the number of a rule of texts or of lines.
pub(crate) fn violation_of(number: u32, place: usize) -> Option<LineViolation>
    ensures { result ≡ spec.violation_of number place }
{
    match number {
        101 => Some(LineViolation::NotUtf8(place)),
        102 => Some(LineViolation::TooLong),
        103 => Some(LineViolation::NotLocated(LocatedFault::NoFile)),
        104 => Some(LineViolation::NotLocated(LocatedFault::NoLine)),
        105 => Some(LineViolation::NotLocated(LocatedFault::LineRange)),
        106 => Some(LineViolation::NotLocated(LocatedFault::NoColumn)),
        107 => Some(LineViolation::NotLocated(LocatedFault::ColumnRange)),
        108 => Some(LineViolation::NotLocated(LocatedFault::NoLink)),
        _ => refusal_of(number, place),
    }
}

// The refusal at a place by the rule with this number.
fn refusal_of(number: u32, place: usize) -> Option<LineViolation>
    ensures { result ≡ spec.refusal_of number place }
{
    match rule_of(number) {
        Some(rule) => Some(LineViolation::Refused(Refusal { place, rule })),
        None => None,
    }
}
