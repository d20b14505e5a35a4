//! Words of the command line that are refused: why, and what was likely meant.

use crate::file_names::{has_document_end, names_file};
use crate::hints::Hint;
use crate::messages::Message;
use crate::names::meant;
use crate::options::{looks_like_option, option_line, refused_option, value_line, values_line};
use crate::unknown::unknown_line;
use std::alloc::{AllocError, Global};
use uv_arguments::{COMMANDS, Reason, WordsFault};

/// The message about words that are refused, the first of which is the program's name: what their reader says, and a
/// hint at what was meant, where the next word may be a folder's name. A tip of the reader is only kept if it doesn't
/// take an option for a text, and if no hint replaces it.
pub fn refused_words(
    alloc: Global,
    words: &[&str],
    fault: &WordsFault,
    is_folder: bool,
) -> Result<Message, AllocError> {
    let command = command_of(words);
    let option = match fault.reason() {
        Reason::Unexpected => refused_option(alloc, command, words)?,
        _ => None,
    };
    let near = match &option {
        Some(option) => option_line(alloc, command, option)?,
        None => near_line(alloc, command, words, fault.reason())?,
    };
    let has_tips = option.is_none() && near.is_none();
    let mut said = of_refusal(alloc, fault.text(alloc)?.as_str(), has_tips)?;
    if let Some(line) = near {
        said.push(alloc, line.as_str())?;
    } else if let (None, Some(hint)) = (
        option,
        words_hint(command, words.last().copied(), fault.reason(), is_folder),
    ) {
        said.push(alloc, hint.text())?;
    }
    Ok(said)
}

// The word that names the command: the one after the program's name, or after `help` the next one. It is empty if there
// is no such word.
fn command_of<'w>(words: &[&'w str]) -> &'w str {
    match words {
        [_, "help", command, ..] | [_, command, ..] => command,
        _ => "",
    }
}

// The lines of what the reader of words says, without the empty ones, and with or without its tips.
fn of_refusal(alloc: Global, message: &str, has_tips: bool) -> Result<Message, AllocError> {
    let mut said = Message::nothing(alloc);
    for line in message.lines() {
        let line = line.strip_prefix("error: ").unwrap_or(line);
        if !line.is_empty() && (has_tips || !line.starts_with("  tip: ")) {
            said.push(alloc, line)?;
        }
    }
    Ok(said)
}

// The line that names the command that was likely meant, or the option whose value the last word is, or what may be the
// value of an option, if there is one.
fn near_line(
    alloc: Global,
    command: &str,
    words: &[&str],
    reason: Reason,
) -> Result<Option<String>, AllocError> {
    match reason {
        Reason::NoCommand if command == "version" => {
            Ok(Some(Hint::Version.text().to_string(alloc)?))
        }
        Reason::NoCommand => command_line(alloc, command),
        Reason::Missing => value_line(alloc, command, words),
        Reason::NoValue => values_line(alloc, command, words),
        _ => Ok(None),
    }
}

// The line on a word that isn't a command: the one that was likely meant, or the whole that checks a link.
fn command_line(alloc: Global, word: &str) -> Result<Option<String>, AllocError> {
    if is_link(word) {
        return Ok(Some(format!(in alloc; "urlcheck check '{word}' checks this link")?));
    }
    let names: Vec<&str> = COMMANDS.iter().map(|row| row.name).collect(alloc)?;
    match meant(alloc, word, names.as_slice())? {
        Some(near) if near != word => Ok(Some(unknown_line(alloc, "command", word, Some(near))?)),
        _ => Ok(None),
    }
}

// Whether a word looks like a link that can be put in single quotes.
fn is_link(word: &str) -> bool {
    !word.contains('\'')
        && matches!(word.split_once(':'), Some((_, after)) if after.starts_with("//"))
}

// The hint for words of this command, with this last one, that are refused for this reason, if there is one: for no
// command; for `links` and `check` with a word too many that doesn't look like an option; and for `lint` without a
// file.
fn words_hint(command: &str, last: Option<&str>, reason: Reason, is_folder: bool) -> Option<Hint> {
    let is_word = matches!(last, Some(last) if !looks_like_option(last));
    match (reason, command) {
        (Reason::NoCommand, _) if is_folder => Some(Hint::Folder),
        (Reason::NoCommand, word) => Some(hint_without_command(word)),
        (Reason::Missing, "lint") => Some(Hint::InputOfLint),
        (Reason::Unexpected, "links") if is_word => Some(Hint::FileOfLinks),
        (Reason::Unexpected, "check") if is_word => Some(Hint::OneTextOfCheck),
        _ => None,
    }
}

// The hint for a first word that isn't a command: it may name a document or a folder.
fn hint_without_command(word: &str) -> Hint {
    if names_file(word) && has_document_end(word) {
        Hint::DocumentOfText
    } else if word == "." || (word.ends_with('/') && !word.contains(':')) {
        Hint::Folder
    } else {
        Hint::NoCommand
    }
}
