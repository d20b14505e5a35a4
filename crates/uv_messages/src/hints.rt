//! Hints at what was meant, if something else was asked for.

use crate::file_names::{has_document_end, names_file};
use crate::messages::Message;
use std::alloc::{AllocError, Global};
use std::io::ErrorKind;

/// A hint at what was meant.
#[derive(Clone, Copy, PartialEq, Eq)]
pub enum Hint {
    /// The first word isn't a command.
    NoCommand,
    /// The version is asked for by a word that isn't a command, or after a command.
    Version,
    /// A word that is refused as an option doesn't look like one.
    NoOption,
    /// `check` is given one word too many.
    OneTextOfCheck,
    /// `mend` is given one word too many.
    OneTextOfMend,
    /// `links` is given a file.
    FileOfLinks,
    /// `lint` is given no file.
    InputOfLint,
    /// `lint` is given a folder.
    Folder,
    /// `lint` is given a link.
    Link,
    /// `lint` refuses lines of a document.
    Document,
    /// The text of `check` is `-`, the name of standard input.
    InputOfCheck,
    /// The text of `mend` is `-`, the name of standard input.
    InputOfMend,
    /// The text of `check` looks like the name of a list.
    ListOfCheck,
    /// The text of `mend` looks like the name of a list.
    ListOfMend,
    /// The text of either looks like the name of a document.
    DocumentOfText,
}

impl Hint {
    /// The message.
    pub fn text(self) -> &'static str {
        match self {
            Hint::NoCommand => "check TEXT checks one text, and lint FILE the lines of a file",
            Hint::Version => "urlcheck --version shows the version",
            Hint::NoOption => "write -- before a word that begins with - and is no option",
            Hint::OneTextOfCheck => {
                "check accepts one TEXT: put it in single quotes if it has spaces"
            }
            Hint::OneTextOfMend => {
                "mend accepts one TEXT: put it in single quotes if it has spaces; --in-place mends files"
            }
            Hint::FileOfLinks => "links reads standard input, not a file: urlcheck links <FILE",
            Hint::InputOfLint => "lint reads standard input as the FILE -",
            Hint::Folder => {
                "lint reads files, not folders; urlcheck-documents FOLDER checks the documents in it"
            }
            Hint::Link => {
                "lint reads files; check TEXT checks one text, and lint - the lines of standard input"
            }
            Hint::Document => {
                "lint reads one link a line; urlcheck-documents FILE checks the links of a document"
            }
            Hint::InputOfCheck => "lint - and links read standard input",
            Hint::InputOfMend => "mend without a TEXT reads standard input",
            Hint::ListOfCheck => "lint FILE checks the lines of a file",
            Hint::ListOfMend => "mend <FILE mends the lines of a file",
            Hint::DocumentOfText => { "urlcheck-documents FILE checks the links of a document" }
        }
    }
}

/// Pushes a hint for a refused text that was likely meant as something else: the first hint if it is `-`; and if there
/// is no base and it looks like the name of a file, the second one, or the one for a document.
pub fn push_text_hint(
    alloc: Global,
    said: &mut Message,
    text: &str,
    has_base: bool,
    of_input: Hint,
    of_list: Hint,
) -> Result<(), AllocError> {
    let hint = if text == "-" {
        of_input
    } else if has_base || !names_file(text) {
        return Ok(());
    } else if has_document_end(text) {
        Hint::DocumentOfText
    } else {
        of_list
    };
    let instead = hint.text();
    said.push(
        alloc,
        format!(in alloc; "{text} is the text here; {instead}")?.as_str(),
    )
}

/// The hint for a file with this name that a lint couldn't read, if there is one: if it is a folder, or if there is no
/// such file and its name looks like a link.
pub fn file_hint(name: &str, why: Option<ErrorKind>) -> Option<Hint> {
    match (why, name.split_once(':')) {
        (Some(ErrorKind::IsADirectory), _) => Some(Hint::Folder),
        (Some(ErrorKind::NotFound), Some((_, after))) if after.starts_with("//") => {
            Some(Hint::Link)
        }
        _ => None,
    }
}
