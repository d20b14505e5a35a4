//! Opaque hosts (URL Standard, sections 3.2 and 3.4).
ghost use Rattle.std.specs.Prelude.{◌≡◌, ◌↔◌, true, None, chars};
ghost use Rattle.uv_model.specs.Hosts.OpaqueHost as spec;
ghost use Rattle.uv_model.specs.Violations.OpaqueHostViolation.{OpaqueHostViolation};
ghost use Rattle.uv_model.specs.Violations.Refusal.{IsLeast, StandsWithin};
ghost use Rattle.uv_host.specs.OpaqueHosts.{HostUnitViolation, IsOpaqueHostOrEmpty, first_host_fault, host_rule};

use crate::addresses::bracketed_ipv6;
use uv_model::{Refusal, Rule, first_code_point};
use uv_text::{UnitClass, count_code_points, split_units};

/// What is wrong with the text of an opaque host: the least place, in code points from the text's start, and of several
/// rules violated there the one with the least number. `None` for an empty text, an IPv6 text in brackets and an opaque
/// host (URL Standard, section 3.4).
pub fn opaque_fault(text: &str) -> Option<Refusal>
    ensures least { IsLeast (OpaqueHostViolation (chars text.now)) result }
    ensures within { StandsWithin (chars text.now) result }
    ensures silent { result ≡ None ↔ IsOpaqueHostOrEmpty (chars text.now) }
{
    if starts_with_bracket(text) {
        bracket_fault(text)
    } else {
        opaque_unit_fault(text)
    }
}

/// Whether a text begins with `[`.
pub(crate) fn starts_with_bracket(text: &str) -> bool
    ensures { result ≡ spec.starts_with_bracket (chars text.now) }
{
    match first_code_point(text) {
        Some((c, _)) => c == '[',
        None => false,
    }
}

/// The fault of a text that begins with `[`: there is one unless the text is an IPv6 text in brackets.
fn bracket_fault(text: &str) -> Option<Refusal>
    requires { spec.starts_with_bracket (chars text.now) ≡ true }
    ensures least { IsLeast (OpaqueHostViolation (chars text.now)) result }
    ensures within { StandsWithin (chars text.now) result }
    ensures silent { result ≡ None ↔ IsOpaqueHostOrEmpty (chars text.now) }
{
    match bracketed_ipv6(text) {
        Some(_) => None,
        None => Some(Refusal {
            place: 0,
            rule: Rule::HostIpv6,
        }),
    }
}

/// The first code point that no opaque host holds, brackets among them, or the first `%` that begins no percent-encoded
/// byte, with the rule that it violates. `None` if there is neither. The place is in code points from the text's start.
pub fn opaque_unit_fault(text: &str) -> Option<Refusal>
    ensures first { result ≡ first_host_fault 0 (chars text.now) }
    ensures least { IsLeast (HostUnitViolation (chars text.now)) result }
{
    let (prefix, rest) = split_units(text, UnitClass::OpaqueHost);
    match first_code_point(rest) {
        Some((c, _)) => Some(Refusal {
            place: count_code_points(prefix),
            rule: host_rule(c),
        }),
        None => None,
    }
}

/// The rule that a code point violates if it doesn't begin a unit of an opaque host.
fn host_rule(c: char) -> Rule
    ensures { result ≡ host_rule c }
{
    if c == '%' {
        Rule::Percent
    } else {
        Rule::HostCodePoint
    }
}
