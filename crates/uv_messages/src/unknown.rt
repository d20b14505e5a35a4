//! Names that don't exist: of a rule, a format, a profile, a kind of mended texts, a unit of columns, or a time for
//! colours.

use crate::explanations::is_explained;
use crate::messages::Message;
use crate::names::{longer_names, nearest};
use std::alloc::{AllocError, Global};
use uv_arguments::Colours;
use uv_model::{MendKind, Profile, Rule};
use uv_rules::{LineViolation, LocatedFault};

// The kinds in the order of docs and help.
const KINDS: [MendKind; 3] = [MendKind::Same, MendKind::Escaped, MendKind::Changed];

/// The message about a name that none of these formats has.
pub fn unknown_format(alloc: Global, names: &[&str], name: &str) -> Result<Message, AllocError> {
    unknown(alloc, "format", &[name], names)
}

/// The message about a name that no kind has.
pub fn unknown_kind(alloc: Global, name: &str) -> Result<Message, AllocError> {
    let names: Vec<&str> = KINDS.iter().map(|kind| kind.name()).collect(alloc)?;
    unknown(alloc, "kind", &[name], names.as_slice())
}

/// The message about a name that no profile has.
pub fn unknown_profile(alloc: Global, name: &str) -> Result<Message, AllocError> {
    let profiles = Profile::in_order();
    let names: Vec<&str> = profiles
        .iter()
        .map(|profile| profile.name())
        .collect(alloc)?;
    unknown(alloc, "profile", &[name], names.as_slice())
}

/// The message about a name that none of these units of columns has.
pub fn unknown_unit(alloc: Global, names: &[&str], name: &str) -> Result<Message, AllocError> {
    unknown(alloc, "column unit", &[name], names)
}

/// The message about a name that doesn't say when there are colours.
pub fn unknown_colours(alloc: Global, name: &str) -> Result<Message, AllocError> {
    let choices = Colours::in_order();
    let names: Vec<&str> = choices.iter().map(|colours| colours.name()).collect(alloc)?;
    unknown(alloc, "colour choice", &[name], names.as_slice())
}

/// The message about a unit of columns that the format doesn't take, which takes those with these names.
pub fn refused_unit(
    alloc: Global,
    format: &str,
    taken: &[&str],
    name: &str,
) -> Result<Message, AllocError> {
    let names = taken.join(alloc, " ")?;
    let refused = format!(in alloc; "{format} doesn't support the column unit {name}")?;
    let mut said = Message::of(alloc, refused.as_str())?;
    let taken = format!(in alloc; "the column units of {format}: {names}")?;
    said.push(alloc, taken.as_str())?;
    Ok(said)
}

/// The message if these names are to be explained, and some of them belong neither to a rule nor to anything else that
/// can be wrong with a line.
pub fn unknown_rules(alloc: Global, rules: &[String]) -> Result<Message, AllocError> {
    let mut none: Vec<&str> = Vec::new(alloc);
    for rule in rules {
        let name = rule.as_str();
        if !is_explained(alloc, name)? && !none.contains(&name) {
            none.push(name)?;
        }
    }
    let rules = Rule::in_order();
    let mut names: Vec<&str> = rules.iter().map(|rule| rule.name()).collect(alloc)?;
    names.push(LineViolation::NotUtf8(0).name())?;
    names.push(LineViolation::TooLong.name())?;
    names.push(LineViolation::NotLocated(LocatedFault::NoFile).name())?;
    names.push("empty")?;
    names.push("no-link")?;
    unknown(alloc, "rule", none.as_slice(), names.as_slice())
}

// The message about names that don't exist, by what they should name: each with the nearest name, or if none is near
// with those that begin like it; and then all the names that there are.
fn unknown(
    alloc: Global,
    noun: &str,
    unknown: &[&str],
    names: &[&str],
) -> Result<Message, AllocError> {
    let mut said = Message::nothing(alloc);
    for name in unknown {
        let near = nearest(alloc, name, names)?;
        said.push(alloc, unknown_line(alloc, noun, name, near)?.as_str())?;
        let longer = longer_names(alloc, name, names)?;
        if near.is_none() && !longer.is_empty() {
            let longer = longer.as_slice().join(alloc, " ")?;
            said.push(
                alloc,
                format!(in alloc; "the {noun}s that begin so: {longer}")?.as_str(),
            )?;
        }
    }
    let names = names.join(alloc, " ")?;
    said.push(alloc, format!(in alloc; "the {noun}s: {names}")?.as_str())?;
    Ok(said)
}

/// The line on a name that doesn't exist, with the nearest one, if one is near.
pub(crate) fn unknown_line(
    alloc: Global,
    noun: &str,
    name: &str,
    near: Option<&str>,
) -> Result<String, AllocError> {
    match near {
        Some(near) => format!(in alloc; "no {noun} is named '{name}'; the nearest is {near}"),
        None => format!(in alloc; "no {noun} is named '{name}'"),
    }
}
