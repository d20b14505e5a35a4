//! The port of a text.
ghost use Rattle.std.specs.Prelude.{◌≡◌, IsNone, true};
ghost use Rattle.std.specs.Char.{is_ascii_digit};
ghost use Rattle.std.specs.List.{list_all, prefix_len};
ghost use Rattle.std.specs.Str.{chars};
ghost use Rattle.uv_model.specs.Violations.Violation.{PortViolation};
ghost use Rattle.uv_model.specs.Violations.Refusal.{IsLeast};
ghost use Rattle.uv_grammar.specs.Checked.{IsChecked};
ghost use Rattle.uv_grammar.specs.PartValues.{FitsPort};
ghost use Rattle.uv_grammar.specs.Scan.{DigitViolation};

use crate::checked::Checked;
use crate::marks::beginnings::are_digits;
use uv_model::{Refusal, Rule};

/// The text of a port, checked (URL Standard, section 4.3), with its number if it isn't empty. A refusal's place is
/// counted in code points from the port's start.
pub(crate) fn check_port(text: &str) -> Checked<Option<u16>>
    ensures { IsChecked (FitsPort (chars text.now)) (PortViolation (chars text.now)) result }
{
    match digit_fault(text) {
        Some(refusal) => Checked::Refused(refusal),
        None => check_digits(text),
    }
}

/// The first code point of a text that isn't a digit.
pub(crate) fn digit_fault(text: &str) -> Option<Refusal>
    ensures least { IsLeast (DigitViolation (chars text.now)) result }
    ensures none { IsNone result → list_all is_ascii_digit (chars text.now) ≡ true }
{
    if are_digits(text) {
        return None;
    }
    Some(Refusal {
        place: digits_prefix(text),
        rule: Rule::PortDigit,
    })
}

// The text of a port that has only digits.
fn check_digits(text: &str) -> Checked<Option<u16>>
    requires { list_all is_ascii_digit (chars text.now) ≡ true }
    ensures { IsChecked (FitsPort (chars text.now)) (PortViolation (chars text.now)) result }
{
    if text.is_empty() {
        return Checked::Valid(None);
    }
    match text.parse::<u16>() {
        Ok(number) => Checked::Valid(Some(number)),
        Err(_) => Checked::Refused(Refusal {
            place: 0,
            rule: Rule::PortRange,
        }),
    }
}

// How many digits the text begins with.
fn digits_prefix(text: &str) -> usize
    ensures { result ≡ prefix_len is_ascii_digit (chars text.now) }
{
    text.chars().take_while(|c| c.is_ascii_digit()).count()
}
