//! The fixed texts that a caller asks for by numbers.
ghost use Rattle.std.specs.Int.{is_in_range};
ghost use Rattle.std.specs.Prelude.{◌≡◌, ◌≢◌, [], Some, false, true};
ghost use Rattle.urlcheck_c.specs.FixedText.{IsFixedText, IsTextAnswer, example_place, format_name_or_none, has_words};
ghost use Rattle.urlcheck_c.specs.FixedText.{explanation_text, unit_name_or_none, violation_text};
ghost use Rattle.uv_shown.specs.Escaping.Printable.{IsLine};
ghost use Rattle.urlcheck_c.specs.ReportNumbers as spec;

use crate::buffers::write_prefix;
use crate::names::rule_of;
use crate::reports::report_numbers::{format_of, unit_of, violation_of};
use uv_model::Rule;
use uv_rules::{Explanation, LineViolation, explain};

/// Writes a fixed text to the start of `out` if it fits, and gives its length, which is 0 if there is none. The first
/// number says what is asked for, and the second what it is about. For a rule of texts or of lines: 0 its name, 1 its
/// sentence and 3 what it requires. For a rule of texts: 2 where it is in the URL Standard, 4 its section there, 5 the
/// base of its example, 6 the example and 7 a valid text that may have been meant. 8 the name of a format, and 9 the
/// name of a unit.
#[unsafe(no_mangle)]
pub extern "C" fn urlcheck_text(what: u32, number: u32, out: &mut [u8]) -> usize
    ensures { IsTextAnswer what number out.old out.new result }
{
    write_prefix(fixed_text(what, number).as_bytes(), out)
}

/// The place at which the example of the rule with this number is refused, in code points, or 0 if no rule has the
/// number.
#[unsafe(no_mangle)]
pub extern "C" fn urlcheck_example_place(rule: u32) -> usize
    ensures { result ≡ example_place rule }
{
    match rule_of(rule) {
        Some(rule) => explain(rule).place,
        None => 0,
    }
}

// The text that is asked for, or an empty one.
fn fixed_text(what: u32, number: u32) -> &'static str
    ensures { IsFixedText what number result.now }
{
    match what {
        8 => format_name(number),
        9 => unit_name(number),
        _ => rule_text(what, number),
    }
}

// The name of the format with this number, or an empty text.
fn format_name(number: u32) -> &'static str
    ensures { result.now ≡ format_name_or_none (spec.format_of number) }
{
    match format_of(number) {
        Some(format) => format.name(),
        None => "",
    }
}

// The name of the unit with this number, or an empty text.
fn unit_name(number: u32) -> &'static str
    ensures { result.now ≡ unit_name_or_none (spec.unit_of number) }
{
    match unit_of(number) {
        Some(columns) => columns.name(),
        None => "",
    }
}

// A text of the rule with this number, or an empty one.
fn rule_text(what: u32, number: u32) -> &'static str
    requires format { what ≢ 8 }
    requires unit { what ≢ 9 }
    ensures { IsFixedText what number result.now }
{
    match violation_of(number, 0) {
        Some(violation) => violation_text(what, violation),
        None => "",
    }
}

// A text on what is wrong with a text or a line.
fn violation_text(what: u32, violation: LineViolation) -> &'static str
    ensures exact { has_words what (Some violation) ≡ false → result.now ≡ violation_text what violation }
    ensures example { is_in_range 4 7 what ≡ true → IsLine result.now }
{
    match what {
        0 => violation.name(),
        1 => violation.sentence(),
        2 => violation.address(),
        3 => violation.help(),
        _ => explanation_text(what, violation),
    }
}

// A text that explains what is wrong with a text; there is none for a line that isn't checked.
fn explanation_text(what: u32, violation: LineViolation) -> &'static str
    requires sentence { what ≢ 1 }
    requires help { what ≢ 3 }
    ensures none { has_words what (Some violation) ≡ false → result.now ≡ [] }
    ensures words { IsLine result.now }
{
    match violation {
        LineViolation::Refused(refusal) => example_text(what, refusal.rule),
        LineViolation::NotUtf8(_) | LineViolation::TooLong | LineViolation::NotLocated(_) => "",
    }
}

// A text that explains a rule.
fn example_text(what: u32, rule: Rule) -> &'static str
    ensures none { is_in_range 4 7 what ≡ false → result.now ≡ [] }
    ensures words { IsLine result.now }
{
    asked_text(what, &explain(rule))
}

// The text of an explanation that is asked for, or an empty one.
fn asked_text(what: u32, explanation: &Explanation) -> &'static str
    ensures { result.now ≡ explanation_text what explanation.now }
{
    match what {
        4 => explanation.section,
        5 => explanation.base.unwrap_or(""),
        6 => explanation.wrong,
        7 => explanation.mended,
        _ => "",
    }
}
