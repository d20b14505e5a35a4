//! Contents of a list that aren't lines of links: what they look like, by the first bytes and by the line ends.

use crate::unread::name_of;
use std::alloc::{AllocError, Global};

/// What a list looks like that hasn't one link per line.
#[derive(Clone, Copy, PartialEq, Eq)]
pub enum Content {
    /// It is compressed by gzip.
    Gzip,
    /// It is UTF-16, with a byte order mark.
    Utf16,
    /// It has a NUL, which no text has.
    Binary,
    /// It may be Latin-1.
    Latin,
    /// It looks like JSON.
    Json,
    /// Its lines end with only CR.
    Returns,
    /// It looks like a table with commas.
    Commas,
    /// It looks like a table with tabs.
    Tabs,
}

/// What ends the lines of a list, as far as it was read.
#[derive(Clone, Copy, PartialEq, Eq)]
pub enum LineEnds {
    /// Nothing does yet.
    Unseen,
    /// CR does, and LF nowhere.
    Returns,
    /// LF does.
    Feeds,
}

impl Content {
    // The message about it after a name, and the command that makes lines of it, if there is one.
    fn text(self) -> &'static str {
        match self {
            Content::Gzip => "is compressed by gzip: gzip -dc FILE",
            Content::Utf16 => "is UTF-16: iconv -f UTF-16 -t UTF-8 FILE",
            Content::Binary => "isn't text",
            Content::Latin => "isn't UTF-8; if it is Latin-1: iconv -f ISO-8859-1 -t UTF-8 FILE",
            Content::Json => "looks like JSON: jq -r '.. | strings' FILE",
            Content::Returns => "ends its lines by CR alone: tr '\\r' '\\n' <FILE",
            Content::Commas => {
                "looks like a table; where column N has the links: cut -d , -f N FILE"
            }
            Content::Tabs => "looks like a table; where column N has the links: cut -f N FILE",
        }
    }
}

/// The hint at what a list with this name looks like: how to hand its lines to the command that reads it. The hint's
/// command names a file if its name needs no quotes.
pub fn content_line(
    alloc: Global,
    name: &str,
    content: Content,
    reader: &str,
) -> Result<String, AllocError> {
    let file = if is_plain(name) { name } else { "FILE" };
    let text = content.text().replace(alloc, "FILE", file)?;
    let name = name_of(name);
    if content == Content::Binary {
        format!(in alloc; "{name} {text}")
    } else {
        format!(in alloc; "{name} {text} | urlcheck {reader}")
    }
}

// Whether a file's name can be written in a command without quotes. The name of standard input has a space.
fn is_plain(name: &str) -> bool {
    !name.is_empty()
        && !name.starts_with('-')
        && name.as_bytes().iter().all(|byte| byte.is_ascii_alphanumeric() || b"-_./".contains(byte))
}

/// What a list looks like, by its first bytes and by what ends its lines, unless it looks like a list of links.
pub fn content_of(first: &[u8], ends: LineEnds) -> Option<Content> {
    match first {
        [0x1f, 0x8b, ..] => Some(Content::Gzip),
        [0xff, 0xfe, ..] | [0xfe, 0xff, ..] => Some(Content::Utf16),
        _ if first.contains(&0) => Some(Content::Binary),
        _ if is_latin(first) => Some(Content::Latin),
        _ if is_json(first) => Some(Content::Json),
        _ if ends == LineEnds::Returns => Some(Content::Returns),
        _ => table_of(first),
    }
}

// Whether bytes may be Latin-1: they aren't UTF-8, and the first that isn't ASCII is a letter or a sign. FE and FF,
// which are letters too, are rather of a mark, and what is cut at the end may be UTF-8.
fn is_latin(first: &[u8]) -> bool {
    match str::from_utf8(first) {
        Err(fault) if fault.error_len().is_some() => {
            let place = fault.valid_up_to();
            first[..place].is_ascii() && matches!(&first[place..], [0xa0..=0xfd, ..])
        }
        _ => false,
    }
}

// Whether JSON begins here: a list or an object, perhaps within another one, whose first item is a string.
fn is_json(first: &[u8]) -> bool {
    match first.trim_ascii_start() {
        [b'[' | b'{', inner @ ..] => match inner.trim_ascii_start() {
            [b'[' | b'{', inner @ ..] => inner.trim_ascii_start().starts_with(b"\""),
            inner => inner.starts_with(b"\""),
        },
        _ => false,
    }
}

// The kind of table whose columns the first line names, if it does: it has no space after a comma, as a sentence has.
fn table_of(first: &[u8]) -> Option<Content> {
    let end = first.iter().position(|byte| *byte == b'\n');
    let line = &first[..end.unwrap_or(first.len())];
    if !line.iter().all(|byte| is_of_names(*byte))
        || line.windows(2).any(|pair| matches!(pair, [b',', b' ']))
    {
        return None;
    }
    if line.contains(&b'\t') {
        Some(Content::Tabs)
    } else if line.contains(&b',') {
        Some(Content::Commas)
    } else {
        None
    }
}

// Whether a byte may be in names of columns: a letter, a digit, a quote, `-`, `_`, a space, and what separates.
fn is_of_names(byte: u8) -> bool {
    byte.is_ascii_alphanumeric() || b"\"-_ ,\t\r".contains(&byte)
}
