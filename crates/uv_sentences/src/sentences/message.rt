//! The sentence on what is wrong with a line, with what the line shows of its author's intention. Its words are for
//! people, so no clause fixes them: the runs of `tests/runs` compare them.
ghost use Rattle.std.specs.Prelude.{IfOk, string_bytes};
ghost use Rattle.uv_sentences.specs.Sentences.Message.{IsMessage};

use crate::known_text::KnownText;
use crate::sentences::code_point::point_name;
use crate::sentences::domain::domain_message;
use crate::sentences::ipv4::ipv4_sentence;
use crate::sentences::ipv6::ipv6_message;
use crate::sentences::start::start_sentence;
use crate::sentences::wording::{Checked, rule_note};
use std::alloc::{AllocError, Global};
use uv_model::{Refusal, Rule};
use uv_rules::LineViolation;
use uv_shown::{is_printable_text, push_shown};

// The sentence on a link that has credentials.
const CREDENTIALS: &str =
    "a URL string has no credentials: no user name, password or @ before its host";

// The sentence on a link whose host is an IPv6 address without brackets.
const BARE_IPV6: &str = "a host that is an IPv6 address is written in brackets";

/// What is reported about a line, and what that names.
#[derive(Drop)]
pub struct PlacedMessage {
    /// A sentence without its full stop: one line, without anything that controls a terminal.
    pub text: String,
    /// The place of the code point that the sentence names, in code points from 0. It is the place of the violation, or
    /// one further on: a host is refused at its first code point, and the sentence may name a later one.
    pub place: usize,
}

impl PlacedMessage {
    // This sentence on a place.
    pub(crate) fn of(alloc: Global, said: &str, place: usize) -> Result<PlacedMessage, AllocError> {
        Ok(PlacedMessage {
            text: String::from_str(alloc, said)?,
            place,
        })
    }
}

/// What is reported about a line that was checked like this.
pub fn message(
    alloc: Global,
    checked: Checked,
    line: &KnownText<'_>,
    violation: LineViolation,
) -> Result<PlacedMessage, AllocError>
    ensures { IfOk result (λ message. IsMessage (string_bytes message.text)) }
{
    let said = violation_message(alloc, checked, line, violation)?;
    if is_printable_text(said.text.as_bytes()) {
        return Ok(said);
    }
    let mut text = String::new(alloc);
    push_shown(&mut text, said.text.as_str())?;
    Ok(PlacedMessage {
        text,
        place: said.place,
    })
}

// What is reported about a line.
fn violation_message(
    alloc: Global,
    checked: Checked,
    line: &KnownText<'_>,
    violation: LineViolation,
) -> Result<PlacedMessage, AllocError> {
    match violation {
        LineViolation::Refused(refusal) => {
            let mut said = refusal_message(alloc, checked, line, refusal)?;
            match intention_note(line) {
                Some(note) => said.text.push_str(note)?,
                None => {
                    let note = rule_note(alloc, checked, line, refusal)?;
                    said.text.push_str(note.as_str())?;
                }
            }
            Ok(said)
        }
        LineViolation::NotLocated(fault) => {
            PlacedMessage::of(alloc, fault.sentence(), violation.place())
        }
        LineViolation::NotUtf8(_) | LineViolation::TooLong => {
            PlacedMessage::of(alloc, violation.sentence(), violation.place())
        }
    }
}

// The sentence on what a line shows of its author's intention, if it shows any.
fn intention_note(line: &KnownText<'_>) -> Option<&'static str> {
    line.shown_intention()?.note()
}

// What is wrong with a refused line.
fn refusal_message(
    alloc: Global,
    checked: Checked,
    line: &KnownText<'_>,
    refusal: Refusal,
) -> Result<PlacedMessage, AllocError> {
    let place = refusal.place;
    if is_of_authority(refusal.rule) && line.has_credentials(place) {
        let text = credentials_sentence(alloc, line)?;
        return Ok(PlacedMessage { text, place });
    }
    if is_of_authority(refusal.rule) && line.has_bare_ipv6() {
        return PlacedMessage::of(alloc, BARE_IPV6, place);
    }
    let text = match refusal.rule {
        Rule::HostDomain => return domain_message(alloc, checked.profile, line, place),
        Rule::HostIpv6 => return ipv6_message(alloc, line.rest_at(place), place),
        Rule::NoScheme => start_sentence(alloc, line)?,
        Rule::HostNumber => ipv4_sentence(alloc, checked.profile, line.rest_at(place))?,
        _ => point_sentence(alloc, refusal.rule, line.point_at(place))?,
    };
    Ok(PlacedMessage { text, place })
}

// The sentence on credentials. Links of other schemes than the special ones may need them.
fn credentials_sentence(alloc: Global, line: &KnownText<'_>) -> Result<String, AllocError> {
    let advice = if line.is_link() {
        "; leave them out"
    } else {
        ""
    };
    format!(in alloc; "{CREDENTIALS}{advice}")
}

// The sentence on a code point that violates a rule, if the rule is about one, otherwise the rule's sentence.
fn point_sentence(alloc: Global, rule: Rule, point: Option<char>) -> Result<String, AllocError> {
    let said = match rule {
        Rule::HostCodePoint => "is not allowed in a host",
        Rule::PortDigit => "is not allowed in a port",
        Rule::CodePoint => "is not allowed in a URL",
        Rule::Percent => "has to be followed by two hex digits",
        _ => return String::from_str(alloc, rule.sentence()),
    };
    let Some(c) = point else {
        return String::from_str(alloc, rule.sentence());
    };
    let name = point_name(alloc, c)?;
    let name = name.as_str();
    format!(in alloc; "{name} {said}")
}

// Whether a rule is about hosts and ports.
fn is_of_authority(rule: Rule) -> bool {
    match rule {
        Rule::HostMissing
        | Rule::HostDomain
        | Rule::HostNumber
        | Rule::HostIpv6
        | Rule::HostCodePoint
        | Rule::PortDigit
        | Rule::PortRange => true,
        _ => false,
    }
}

/// Whether an `@` comes in a text before the authority's end.
pub(crate) fn has_credentials_in(text: &str) -> bool {
    text.chars().find(|c| ends_part(*c)) == Some('@')
}

/// For how many code points from here on `has_credentials_in` gives the same answer.
pub(crate) fn part_length(text: &str) -> usize {
    text.chars()
        .position(|c| ends_part(c))
        .unwrap_or(usize::MAX)
}

// Whether a code point ends credentials or an authority.
fn ends_part(c: char) -> bool {
    c == '@' || c == '/' || c == '?' || c == '#'
}
