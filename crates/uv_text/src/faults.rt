//! The first fault of a text that should be URL units.
ghost use Rattle.std.specs.Prelude.{◌≡◌, ◌↔◌, IsNone};
ghost use Rattle.std.specs.Str.{chars};
ghost use Rattle.uv_model.specs.Violations.Refusal.{IsLeast, StandsWithin};
ghost use Rattle.uv_model.specs.Violations.UnitViolation as spec;
ghost use Rattle.uv_model.specs.Violations.UnitViolation.{UnitViolation};
ghost use Rattle.uv_model.specs.Units.{IsUnits};

use crate::splits::{count_code_points, split_units};
use crate::units::UnitClass;
use uv_model::{Refusal, Rule, first_code_point};

/// The first code point that isn't a URL code point and begins no percent-encoded byte (URL Standard, section 4.3),
/// with the rule that it violates: `CodePoint`, or at a `%` `Percent`. `None` if the text is URL units. The place is in
/// code points from the text's start.
pub fn first_fault(text: &str) -> Option<Refusal>
    ensures least { IsLeast (UnitViolation (chars text.now)) result }
    ensures within { StandsWithin (chars text.now) result }
    ensures none { IsNone result ↔ IsUnits (chars text.now) }
{
    let (prefix, rest) = split_units(text, UnitClass::Url);
    match first_code_point(rest) {
        Some((c, _)) => Some(Refusal {
            place: count_code_points(prefix),
            rule: unit_rule(c),
        }),
        None => None,
    }
}

// The rule that a code point violates if it doesn't begin a unit.
fn unit_rule(c: char) -> Rule
    ensures { result ≡ spec.unit_rule c }
{
    if c == '%' {
        Rule::Percent
    } else {
        Rule::CodePoint
    }
}
