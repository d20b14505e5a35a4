//! Why the cases of a file of vectors aren't checked: what is printed on standard error before the last line.

use std::alloc::{AllocError, Global};
use std::fmt::InlineText;
use uv_messages::messages::Message;
use uv_messages::unread::name_of;
use uv_vectors::{CaseFault, CasesEnd, JsonFault, MOST_BYTES};

// How many bytes of a key are shown.
const KEY_BYTES: usize = 80;

// How many arrays and objects of JSON may be within one another.
const MOST_DEEP: usize = 127;

/// The message about a run over the file of vectors with this name and these bytes: why none of its cases is checked,
/// or nothing.
pub(crate) fn said_of_vectors(
    alloc: Global,
    file: &str,
    bytes: &[u8],
    end: &CasesEnd,
) -> Result<Message, AllocError> {
    let name = name_of(file);
    let line = match end {
        CasesEnd::NotJson(JsonFault::Unreadable(_)) if is_too_deep(bytes) => format!(in alloc;
            "{name}: at most {MOST_DEEP} arrays and objects may be within one another"
        )?,
        CasesEnd::NotJson(fault) => json_line(alloc, name, *fault)?,
        CasesEnd::NotArray => format!(in alloc; "{name}: it has to be an array of cases")?,
        CasesEnd::TooLarge => format!(in alloc; "{name}: it may have at most {MOST_BYTES} bytes")?,
        CasesEnd::Malformed(number, fault) => {
            let reason = case_reason(alloc, fault)?;
            format!(in alloc; "vector {number}: {reason}")?
        }
        CasesEnd::AllPass | CasesEnd::SomeFail => return Ok(Message::nothing(alloc)),
    };
    Message::of(alloc, line.as_str())
}

// Whether more arrays and objects of JSON are within one another than may be.
fn is_too_deep(bytes: &[u8]) -> bool {
    let mut depth = 0usize;
    let mut is_text = false;
    let mut is_escaped = false;
    for byte in bytes {
        match byte {
            _ if is_escaped => is_escaped = false,
            b'\\' => is_escaped = is_text,
            b'"' => is_text = !is_text,
            b'[' | b'{' if !is_text => depth = depth.saturating_add(1),
            b']' | b'}' if !is_text => depth = depth.saturating_sub(1),
            _ => {}
        }
        if depth > MOST_DEEP {
            return true;
        }
    }
    false
}

// The line on a file that isn't JSON.
fn json_line(alloc: Global, name: &str, fault: JsonFault) -> Result<String, AllocError> {
    let (place, reason) = match fault {
        JsonFault::NotUtf8(place) => (place, "this isn't UTF-8"),
        JsonFault::CutShort(place) => (place, "the file ends before its JSON does"),
        JsonFault::Unreadable(place) => (place, "this can't be read as JSON"),
    };
    let line = place.line;
    let column = place.column;
    format!(in alloc; "{name}: line {line}, column {column}: {reason}")
}

// Why a value isn't a case.
fn case_reason(alloc: Global, fault: &CaseFault) -> Result<String, AllocError> {
    let reason = match fault {
        CaseFault::NoObject => {
            "it has to be an object with \"input\" and \"text\", or \"input\", \"place\" and \"rule\""
        }
        CaseFault::UnknownKey(key) => return key_reason(alloc, key.as_str()),
        CaseFault::Input => "\"input\" has to be a string",
        CaseFault::Base => "\"base\" has to be a string or null",
        CaseFault::Profile => "\"profile\" has to be \"standard\", \"wide\" or \"parser\"",
        CaseFault::Expectation => "it has to have either \"text\" or both \"place\" and \"rule\"",
        CaseFault::Text => "\"text\" has to be a string",
        CaseFault::Place => "\"place\" has to be a number in digits alone, below 2^64",
        CaseFault::Rule => "\"rule\" has to be the name of a rule",
    };
    reason.to_string(alloc)
}

// The message about a key that no case has; only the first bytes of a long one are shown.
fn key_reason(alloc: Global, key: &str) -> Result<String, AllocError> {
    let shown = InlineText::<KEY_BYTES>::new().and_str(key, KEY_BYTES);
    let key = shown.as_str();
    format!(in alloc;
        "\"{key}\" is no key of a case, which may have \
        \"input\", \"base\", \"profile\", \"text\", \"place\" and \"rule\" alone"
    )
}
