//! What is wrong with a line.
ghost use Rattle.std.specs.Prelude.{◌≡◌, ◌+◌, option_map};
ghost use Rattle.uv_model.specs.Violations.Rule.{named_rule, rule_number};
ghost use Rattle.uv_rules.specs.LineViolation as spec;
ghost use Rattle.uv_rules.specs.LineViolation.{violation_end, violation_help, violation_index, violation_name};
ghost use Rattle.uv_rules.specs.LineViolation.{named_violation, violation_address, violation_place, violation_sentence};

use crate::explanation::explain;
use crate::located_fault::LocatedFault;
use uv_model::{Refusal, Rule};

// What is wrong with a line that isn't checked.
const NOT_UTF8_SENTENCE: &str = "this line isn't UTF-8";

const TOO_LONG_SENTENCE: &str = "this line has more than 65536 bytes";

const NOT_LOCATED_SENTENCE: &str = "this line isn't FILE:LINE:COLUMN:LINK";

// What such a line is asked.
const NOT_UTF8_HELP: &str = "A line is a text in UTF-8.";

const TOO_LONG_HELP: &str = "A line has at most 65536 bytes. A longer link may be valid: \
    check and the libraries have no such limit.";

const NOT_LOCATED_HELP: &str =
    "A located line is FILE:LINE:COLUMN:LINK. FILE isn't empty; LINE and COLUMN are from 1 to 4294967295.";

/// What is wrong with a line of a file: either it is refused as a text, or it isn't a text that is checked.
#[derive(Clone, Copy)]
pub enum LineViolation {
    /// The line violates a rule of valid URL strings at a place.
    Refused(Refusal),
    /// The line isn't UTF-8. This many code points come before the first byte that isn't.
    NotUtf8(usize),
    /// The line has more than 65,536 bytes.
    TooLong,
    /// The line doesn't say where its link is, like `FILE:LINE:COLUMN:LINK` does, for this reason.
    NotLocated(LocatedFault),
}

impl LineViolation {
    /// The name of the violated rule, or `not-utf8`, `line-too-long` or `not-located`.
    pub fn name(self) -> &'static str
        ensures { result.now ≡ violation_name self }
    {
        match self {
            LineViolation::Refused(refusal) => refusal.rule.name(),
            LineViolation::NotUtf8(_) => "not-utf8",
            LineViolation::TooLong => "line-too-long",
            LineViolation::NotLocated(_) => "not-located",
        }
    }

    /// The first violation with this name that isn't a refusal, by its place or the reason, or `None` if none has the
    /// name.
    pub fn of_name(name: &str) -> Option<LineViolation>
        ensures { result ≡ named_violation name.now }
    {
        match name {
            "not-utf8" => Some(LineViolation::NotUtf8(0)),
            "line-too-long" => Some(LineViolation::TooLong),
            "not-located" => Some(LineViolation::NotLocated(LocatedFault::NoFile)),
            _ => None,
        }
    }

    /// What is wrong, as a sentence without its full stop.
    pub fn sentence(self) -> &'static str
        ensures { result.now ≡ violation_sentence self }
    {
        match self {
            LineViolation::Refused(refusal) => refusal.rule.sentence(),
            LineViolation::NotUtf8(_) => NOT_UTF8_SENTENCE,
            LineViolation::TooLong => TOO_LONG_SENTENCE,
            LineViolation::NotLocated(_) => NOT_LOCATED_SENTENCE,
        }
    }

    /// What a line has to be, in a sentence or two.
    pub fn help(self) -> &'static str
        ensures { result.now ≡ violation_help self }
    {
        match self {
            LineViolation::Refused(refusal) => explain(refusal.rule).asks,
            LineViolation::NotUtf8(_) => NOT_UTF8_HELP,
            LineViolation::TooLong => TOO_LONG_HELP,
            LineViolation::NotLocated(_) => NOT_LOCATED_HELP,
        }
    }

    /// The address of what the URL Standard says about it, which is the rule's section, and nothing for a rule of
    /// lines.
    pub fn address(self) -> &'static str
        ensures { result.now ≡ violation_address self }
    {
        match self {
            LineViolation::Refused(refusal) => explain(refusal.rule).address,
            LineViolation::NotUtf8(_) | LineViolation::TooLong | LineViolation::NotLocated(_) => "",
        }
    }

    /// The index of its rule in the list of all that can be wrong, from 0: the three that aren't refusals come first.
    pub fn index(self) -> u64
        ensures { result ≡ violation_index self }
    {
        match self {
            LineViolation::Refused(refusal) => u64::from(refusal.rule.number()) + 2,
            LineViolation::NotUtf8(_) => 0,
            LineViolation::TooLong => 1,
            LineViolation::NotLocated(_) => 2,
        }
    }

    /// The place at which it is wrong: a number of code points from the line's start, from 0. It is 0 for a line that
    /// is too long, and for one that doesn't say where its link is.
    pub fn place(self) -> usize
        ensures { result ≡ violation_place self }
    {
        match self {
            LineViolation::Refused(refusal) => refusal.place,
            LineViolation::NotUtf8(place) => place,
            LineViolation::TooLong | LineViolation::NotLocated(_) => 0,
        }
    }

    /// The place at which what is wrong ends: after the code point that violates a rule. If the line isn't checked, no
    /// code point is wrong, and it is `place`.
    pub fn end(self) -> usize
        ensures { result ≡ violation_end self }
    {
        match self {
            LineViolation::Refused(refusal) => refusal.place.saturating_add(1),
            LineViolation::NotUtf8(_) | LineViolation::TooLong | LineViolation::NotLocated(_) => {
                self.place()
            }
        }
    }
}

/// The index of the rule with this name in the list of all that can be wrong, from 0, if it is there.
pub fn rule_index(name: &str) -> Option<u64>
    ensures { result ≡ spec.rule_index name.now }
{
    match LineViolation::of_name(name) {
        Some(violation) => Some(violation.index()),
        None => index_of_rule(name),
    }
}

// The index in that list of the rule of valid URL strings with this name, from 0, if there is one.
fn index_of_rule(name: &str) -> Option<u64>
    ensures { result ≡ option_map (λ rule. rule_number rule + 2) (named_rule name.now) }
{
    match Rule::of_name(name) {
        Some(rule) => Some(u64::from(rule.number()) + 2),
        None => None,
    }
}
