//! The rules as reports list them.
ghost use Rattle.std.specs.Prelude.{◌≡◌, map};
ghost use Rattle.uv_rules.specs.RuleList.{listed_rules, shown_rule};
ghost use Rattle.uv_rules.specs.declared.line_violation.LineViolation.TheVariants.{Refused};
ghost use Rattle.uv_shown.specs.Rule.{rule_view};

use crate::line_violation::LineViolation;
use crate::located_fault::LocatedFault;
use uv_model::{Refusal, Rule};
use uv_shown::ShownRule;

/// The rules in the order of their indices: the three of lines, and then the rules of valid URL strings.
pub fn shown_rules() -> [ShownRule<'static>; 17]
    ensures { map rule_view result ≡ listed_rules }
{
    [
        shown(LineViolation::NotUtf8(0)),
        shown(LineViolation::TooLong),
        shown(LineViolation::NotLocated(LocatedFault::NoFile)),
        shown_of(Rule::NoScheme),
        shown_of(Rule::OpaqueBase),
        shown_of(Rule::TwoSlashes),
        shown_of(Rule::HostMissing),
        shown_of(Rule::HostDomain),
        shown_of(Rule::HostNumber),
        shown_of(Rule::HostIpv6),
        shown_of(Rule::HostCodePoint),
        shown_of(Rule::PortDigit),
        shown_of(Rule::PortRange),
        shown_of(Rule::FirstSegmentEmpty),
        shown_of(Rule::DriveAfterHost),
        shown_of(Rule::CodePoint),
        shown_of(Rule::Percent),
    ]
}

// A rule of valid URL strings.
fn shown_of(rule: Rule) -> ShownRule<'static>
    ensures { rule_view result ≡ shown_rule (Refused (record { place = 0; rule = rule })) }
{
    shown(LineViolation::Refused(Refusal { place: 0, rule }))
}

// The rule of a violation, wherever that is.
fn shown(violation: LineViolation) -> ShownRule<'static>
    ensures { rule_view result ≡ shown_rule violation }
{
    ShownRule {
        name: violation.name(),
        sentence: violation.sentence(),
        help: violation.help(),
        uri: violation.address(),
    }
}
