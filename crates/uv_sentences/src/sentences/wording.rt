//! What a sentence calls the things that its reader can set, and what follows the sentence.

use crate::known_text::KnownText;
use crate::sentences::start::start_note;
use std::alloc::{AllocError, Global};
use uv_model::{Profile, Refusal, Rule};
use uv_rules::LineViolation;

/// What a profile and a base are called in a sentence, depending on where it is read.
#[derive(Clone, Copy, PartialEq, Eq)]
pub enum Wording {
    /// As options of a command line: `--profile wide`, `(--base)`.
    Options,
    /// As arguments of a function: `profile='wide'`, `(base=)`.
    Arguments,
    /// As parameters of SQL: `profile 'wide'`, `(base)`.
    Sql,
    /// Not at all.
    Silent,
}

impl Wording {
    // A profile, if it is named.
    fn profile(self, alloc: Global, profile: Profile) -> Result<String, AllocError> {
        let name = profile.name();
        match self {
            Wording::Options => format!(in alloc; "--profile {name}"),
            Wording::Arguments => format!(in alloc; "profile='{name}'"),
            Wording::Sql => format!(in alloc; "profile '{name}'"),
            Wording::Silent => Ok(String::new(alloc)),
        }
    }

    /// How the base is named after words on it, or nothing.
    pub(crate) fn base(self) -> &'static str {
        match self {
            Wording::Options => " (--base)",
            Wording::Arguments => " (base=)",
            Wording::Sql => " (base)",
            Wording::Silent => "",
        }
    }
}

/// How a text was checked, as far as the sentence on what is wrong with it depends on that.
#[derive(Clone, Copy)]
pub struct Checked {
    /// By which profile.
    pub profile: Profile,
    /// The next wider profile that accepts the whole text, where one was looked for and does.
    pub accepted_by: Option<Profile>,
    /// What the things that the reader can set are called.
    pub wording: Wording,
}

/// Whether another profile may accept a text with this violation, and the sentence on it depends on that: of its host, by
/// an empty first segment, or by a drive letter after a host.
pub fn is_by_choice(violation: LineViolation) -> bool {
    match violation {
        LineViolation::Refused(refusal) => matches!(
            refusal.rule,
            Rule::HostDomain | Rule::FirstSegmentEmpty | Rule::DriveAfterHost
        ),
        LineViolation::NotUtf8(_) | LineViolation::TooLong | LineViolation::NotLocated(_) => false,
    }
}

/// What follows the sentence on a refused text that shows nothing else of its author's intention: the profile that
/// accepts it, if people may want that, or what its scheme requires.
pub(crate) fn rule_note(
    alloc: Global,
    checked: Checked,
    line: &KnownText<'_>,
    refusal: Refusal,
) -> Result<String, AllocError> {
    let named = named_profile(alloc, checked, refusal.rule)?;
    let profile = named.as_str();
    match refusal.rule {
        Rule::FirstSegmentEmpty if profile.is_empty() => {
            String::from_str(alloc, "; write one slash")
        }
        Rule::FirstSegmentEmpty => format!(in alloc; "; write one slash, or use {profile}"),
        Rule::NoScheme => start_note(alloc, checked.wording, line),
        Rule::CodePoint if is_in_path(line, refusal.place) => {
            String::from_str(alloc, line.scheme_note())
        }
        Rule::Percent => String::from_str(alloc, escape_note(line.rest_at(refusal.place))),
        _ if profile.is_empty() => Ok(String::new(alloc)),
        _ => format!(in alloc; "; {profile} allows it"),
    }
}

// The profile that accepts the text, if what violates the rule is a matter of choice: under the wide profile `_` and
// hyphens of hosts and two slashes, under the parser's a drive letter after a host. For other hosts no profile is
// named: they lead nowhere.
fn named_profile(alloc: Global, checked: Checked, rule: Rule) -> Result<String, AllocError> {
    match (rule, checked.accepted_by) {
        (Rule::HostDomain | Rule::FirstSegmentEmpty, Some(Profile::Wide)) => {
            checked.wording.profile(alloc, Profile::Wide)
        }
        (Rule::FirstSegmentEmpty | Rule::DriveAfterHost, Some(Profile::Parser)) => {
            checked.wording.profile(alloc, Profile::Parser)
        }
        _ => Ok(String::new(alloc)),
    }
}

// Whether a place is before the query and the fragment.
fn is_in_path(line: &KnownText<'_>, place: usize) -> bool {
    let ahead = line
        .as_str()
        .len()
        .saturating_sub(line.rest_at(place).len());
    ahead < line.path_end()
}

// The sentence on a `%`, if it has one hex digit after it and the text or the next escape comes then.
fn escape_note(rest: &str) -> &'static str {
    match rest.as_bytes() {
        [_, digit] | [_, digit, b'%', ..] if digit.is_ascii_hexdigit() => {
            "; this escape is cut off"
        }
        _ => "",
    }
}
