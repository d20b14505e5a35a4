//! Messages on options that a command doesn't take, and on values of options.

use crate::habits::habit;
use crate::hints::Hint;
use crate::names::meant;
use std::alloc::{AllocError, Global};
use uv_arguments::arguments::without_hyphen;
use uv_arguments::{COMMANDS, OptionRow};
use uv_model::Rule;

// The longest value that a hint repeats, in bytes.
const MOST_SHOWN: usize = 64;

/// An option that its command doesn't take.
#[derive(Drop)]
pub(crate) struct RefusedOption<'w> {
    /// Its name, without a value.
    name: String,
    /// The word that it is in.
    word: &'w str,
    /// The word after that.
    next: Option<&'w str>,
}

/// The first option of these words that isn't one of the command, if there is one. Words after `--` aren't options.
pub(crate) fn refused_option<'w>(
    alloc: Global,
    command: &str,
    words: &[&'w str],
) -> Result<Option<RefusedOption<'w>>, AllocError> {
    let options = options_of(command);
    for (at, word) in words.iter().enumerate() {
        if *word == "--" {
            break;
        }
        if let Some(name) = refused_name(alloc, options, word)? {
            let next = words.get(at.saturating_add(1)).copied();
            return Ok(Some(RefusedOption { name, word, next }));
        }
    }
    Ok(None)
}

// The options of the command with this name.
fn options_of(command: &str) -> &'static [OptionRow] {
    match COMMANDS.iter().find(|row| row.name == command) {
        Some(row) => row.options,
        None => &[],
    }
}

// The name in a word that none of these options has: a long one, or the first of the letters after a single hyphen.
fn refused_name(
    alloc: Global,
    options: &[OptionRow],
    word: &str,
) -> Result<Option<String>, AllocError> {
    if word.starts_with("--") {
        let name = before_value(word);
        return if is_taken(options, name) {
            Ok(None)
        } else {
            Ok(Some(name.to_string(alloc)?))
        };
    }
    if looks_like_option(word) {
        for letter in without_hyphen(word).chars() {
            let name = format!(in alloc; "-{letter}")?;
            if !is_taken(options, name.as_str()) {
                return Ok(Some(name));
            }
        }
    }
    Ok(None)
}

// Whether a name is one of these options, or asks for help, as it does for each command.
fn is_taken(options: &[OptionRow], name: &str) -> bool {
    matches!(name, "--help" | "-h") || options.iter().any(|option| option.is_named(name))
}

/// Whether a word begins like an option, and isn't just `-`.
pub(crate) fn looks_like_option(word: &str) -> bool {
    matches!(word.as_bytes(), [b'-', _, ..])
}

// Whether a word may be an option: what comes before its value, if it has one, has only code points that names of
// options have.
fn may_be_option(word: &str) -> bool {
    before_value(word).as_bytes().iter().all(|byte| byte.is_ascii_alphanumeric()
        || b"-_".contains(byte))
}

// What is before the value of a word `--NAME=VALUE`, or the whole word.
fn before_value(word: &str) -> &str {
    match word.split_once('=') {
        Some((name, _)) => name,
        None => word,
    }
}

/// The hint at an option that a command doesn't take, if there is one: at `--`, which has to come before a text that
/// begins with a hyphen but doesn't look like an option; at the commands that take it; or at what may have been meant.
pub(crate) fn option_line(
    alloc: Global,
    command: &str,
    option: &RefusedOption<'_>,
) -> Result<Option<String>, AllocError> {
    if takes_texts(command) && !may_be_option(option.word) {
        return Ok(Some(Hint::NoOption.text().to_string(alloc)?));
    }
    let name = option.name.as_str();
    if matches!(name, "--version" | "-V") {
        return Ok(Some(Hint::Version.text().to_string(alloc)?));
    }
    let takers = takers(alloc, name)?;
    let Some((last, others)) = takers.as_slice().split_last() else {
        return other_option_line(alloc, command, option);
    };
    let others = others.join(alloc, ", ")?;
    let and = if others.is_empty() { "" } else { " and " };
    let place = if looks_like_option(command) {
        ", and is written after the command"
    } else {
        ""
    };
    let line = format!(in alloc; "{name} is an option of {others}{and}{last}{place}")?;
    Ok(Some(line))
}

// Whether a command takes texts, which may begin like an option.
fn takes_texts(command: &str) -> bool {
    matches!(command, "check" | "mend")
}

// The commands that take the option with this name, in the order of the help.
fn takers(alloc: Global, name: &str) -> Result<Vec<&'static str>, AllocError> {
    COMMANDS
        .iter()
        .filter(|row| row.options.iter().any(|option| option.is_named(name)))
        .map(|row| row.name)
        .collect(alloc)
}

// The hint at an option that no command takes: at what other tools mean by it, or at the option of the command that was
// likely meant, which may be written with one hyphen. Before a command, only the program's own may be meant.
fn other_option_line(
    alloc: Global,
    command: &str,
    option: &RefusedOption<'_>,
) -> Result<Option<String>, AllocError> {
    let name = option.name.as_str();
    let written = before_value(option.word);
    let stem = without_hyphen(without_hyphen(written));
    let mut names: Vec<&str> = options_of(command)
        .iter()
        .map(|row| row.name)
        .collect(alloc)?;
    names.push("help")?;
    let mut taker = command;
    if looks_like_option(command) {
        names.push("version")?;
        taker = "urlcheck";
    }
    match (habit(name), meant(alloc, stem, names.as_slice())?) {
        (Some(instead), near) if near.is_none() || written == name => {
            let instead = instead.replace(alloc, "RULE", rule_given(option))?;
            Ok(Some(format!(in alloc; "there is no option {name}; {instead}")?))
        }
        (_, Some(near)) => {
            let line = format!(in alloc;
                "{taker} has no option {written}; the nearest is --{near}"
            )?;
            Ok(Some(line))
        }
        _ => Ok(None),
    }
}

// The name of a rule that is the value of an option, or `RULE` if it isn't one.
fn rule_given<'w>(option: &RefusedOption<'w>) -> &'w str {
    let value = match option.word.split_once('=') {
        Some((_, value)) => Some(value),
        None => option.next,
    };
    match value {
        Some(value) if Rule::of_name(value).is_some() => value,
        _ => "RULE",
    }
}

/// The hint if a command's text or file is missing, and its last word was taken as the value of an option.
pub(crate) fn value_line(
    alloc: Global,
    command: &str,
    words: &[&str],
) -> Result<Option<String>, AllocError> {
    let [.., option, value] = words else {
        return Ok(None);
    };
    if valued(command, option).is_none() {
        return Ok(None);
    }
    let value = if value.len() > MOST_SHOWN {
        "the last word"
    } else {
        value
    };
    let missing = match command {
        "lint" => "no FILE is named; - is standard input",
        _ => "no TEXT is given",
    };
    let line = format!(in alloc; "{value} is the value of {option}, and {missing}")?;
    Ok(Some(line))
}

// The option of a command with this name, if it has a value.
fn valued(command: &str, name: &str) -> Option<&'static OptionRow> {
    options_of(command)
        .iter()
        .find(|option| option.has_value() && option.is_named(name))
}

/// The hint if the value of an option is missing: what it may be.
pub(crate) fn values_line(
    alloc: Global,
    command: &str,
    words: &[&str],
) -> Result<Option<String>, AllocError> {
    for (at, word) in words.iter().enumerate() {
        let next = words.get(at.saturating_add(1));
        let is_followed = matches!(next, Some(next) if !looks_like_option(next));
        if let (false, Some(option)) = (is_followed, valued(command, word)) {
            let help = option.help.replace(alloc, "\n", " ")?;
            return Ok(Some(format!(in alloc; "{word}: {help}")?));
        }
    }
    Ok(None)
}
