//! Why a host isn't a valid domain of a profile, as far as its text shows that.

use crate::known_text::KnownText;
use crate::sentences::authority::before_end;
use crate::sentences::code_point::point_name;
use crate::sentences::drive::is_file_link;
use crate::sentences::message::PlacedMessage;
use crate::sentences::pieces::{before, has_piece};
use std::alloc::{AllocError, Global};
use uv_model::{Profile, Rule, is_domain_mark, is_drive_letter};

/// What is reported about the host that begins at a place of a line: that it is a drive letter, which code point may not
/// be in it, what is wrong with one of its labels, or otherwise the rule's sentence.
pub(crate) fn domain_message(
    alloc: Global,
    profile: Profile,
    line: &KnownText<'_>,
    place: usize,
) -> Result<PlacedMessage, AllocError> {
    let host = host_at(line, place);
    if is_file_link(line.as_str()) && is_drive_letter(host.as_bytes()) {
        return PlacedMessage::of(
            alloc,
            "a drive letter is written after file:///, and not in place of a host",
            place,
        );
    }
    if let Some((ahead, c)) = foreign_in(profile, host) {
        return Ok(PlacedMessage {
            text: foreign_sentence(alloc, c, foreign_advice(line.as_str(), host, c))?,
            place: place.saturating_add(ahead),
        });
    }
    if let Some((ahead, c)) = wide_in(profile, host) {
        return Ok(PlacedMessage {
            text: wide_sentence(alloc, c)?,
            place: place.saturating_add(ahead),
        });
    }
    labels_message(alloc, profile, host, place)
}

// The sentence on a code point that isn't allowed in a domain.
fn foreign_sentence(alloc: Global, c: char, advice: &str) -> Result<String, AllocError> {
    let name = point_name(alloc, c)?;
    let name = name.as_str();
    format!(in alloc; "{name} is not allowed in a domain{advice}")
}

// The sentence on a code point that isn't ASCII, but is read as one that isn't allowed in a domain.
fn wide_sentence(alloc: Global, c: char) -> Result<String, AllocError> {
    let name = point_name(alloc, c)?;
    let name = name.as_str();
    let ascii = narrow(c).unwrap_or(c);
    match ascii {
        '/' | ':' | '?' | '#' => format!(in alloc; "{name} is in place of {ascii}"),
        _ => format!(in alloc; "{name} is read as {ascii}, which is not allowed in a domain"),
    }
}

// What follows the sentence on the first foreign code point of a host.
fn foreign_advice(line: &str, host: &str, c: char) -> &'static str {
    match c {
        ':' => ": a file URL has no port",
        '~' if is_file_link(line) => ": write the whole path after file://",
        '"' if has_piece(host, "\">") => "; this looks like HTML: check the link in it",
        _ if is_after_link(line, host, c) => "; leave it out",
        _ => "",
    }
}

// Whether a code point, which is the first foreign one of a host, is a mark that ends the text, as after a link in
// prose.
fn is_after_link(line: &str, host: &str, c: char) -> bool {
    let is_mark = matches!(c, ',' | ';' | '!' | '>' | ')' | ']' | '"' | '\'' | '`');
    match host.strip_suffix(c) {
        Some(front) => is_mark && line.ends_with(c) && !front.contains(c),
        None => false,
    }
}

// What is reported about a host at a place whose code points are all allowed.
fn labels_message(
    alloc: Global,
    profile: Profile,
    host: &str,
    place: usize,
) -> Result<PlacedMessage, AllocError> {
    let name = host.strip_suffix('.').unwrap_or(host);
    if let Some(fault) = label_fault(profile, name) {
        return PlacedMessage::of(alloc, fault.sentence(), place);
    }
    if profile == Profile::Standard && name.is_ascii() && name.len() > 253 {
        return PlacedMessage::of(alloc, "this domain has more than 253 code points", place);
    }
    if let Some((ahead, c)) = name.chars().enumerate().find(|(_, c)| is_joiner(*c)) {
        return Ok(PlacedMessage {
            text: joiner_sentence(alloc, c)?,
            place: place.saturating_add(ahead),
        });
    }
    Ok(PlacedMessage {
        text: encoded_sentence(alloc, name)?,
        place,
    })
}

// The sentence on a code point that joins letters or parts them.
fn joiner_sentence(alloc: Global, c: char) -> Result<String, AllocError> {
    let name = point_name(alloc, c)?;
    let name = name.as_str();
    format!(in alloc; "{name}, which nobody sees, is in this domain: leave it out")
}

// The sentence on a domain of which only what ToASCII makes of it is wrong: that a label isn't Punycode, if it is ASCII.
fn encoded_sentence(alloc: Global, name: &str) -> Result<String, AllocError> {
    if !name.is_ascii() || has_piece(name, "%") {
        return String::from_str(alloc, Rule::HostDomain.sentence());
    }
    match name.split('.').find(|label| has_prefix(label)) {
        Some(label) if label.len() <= 63 && has_one_prefix(name) => {
            format!(in alloc; "{label} is not the Punycode of a valid label")
        }
        Some(_) => String::from_str(
            alloc,
            "a label that begins with xn-- is not the Punycode of a valid one",
        ),
        None => String::from_str(alloc, Rule::HostDomain.sentence()),
    }
}

// Whether exactly one label begins with `xn--`.
fn has_one_prefix(name: &str) -> bool {
    name.split('.').filter(|label| has_prefix(label)).count() == 1
}

// The first code point for which a profile refuses a host, whatever else is in it, after how many others it is.
fn foreign_in(profile: Profile, host: &str) -> Option<(usize, char)> {
    host.chars()
        .enumerate()
        .find(|(_, c)| is_foreign(profile, *c))
}

// The first code point for which a profile refuses a host, since it is read as an ASCII one, after how many others it is.
fn wide_in(profile: Profile, host: &str) -> Option<(usize, char)> {
    host.chars()
        .enumerate()
        .find(|(_, c)| is_read_as_foreign(profile, *c))
}

// Whether a host with this code point is refused, whatever else is in it. Under the parser's profile a host may be
// percent-encoded.
fn is_foreign(profile: Profile, c: char) -> bool {
    let is_percent = profile == Profile::Parser && c == '%';
    c.is_ascii() && !c.is_ascii_alphanumeric() && !is_percent && !is_domain_mark(c, profile)
}

// Whether a host with this code point, which isn't ASCII, is refused for the ASCII code point that it is read as.
fn is_read_as_foreign(profile: Profile, c: char) -> bool {
    match narrow(c) {
        Some(ascii) => is_foreign(profile, ascii),
        None => false,
    }
}

// The ASCII code point as which ToASCII reads a fullwidth one.
fn narrow(c: char) -> Option<char> {
    match c {
        '\u{FF01}'..='\u{FF5E}' => char::from_u32(u32::from(c).saturating_sub(0xFEE0)),
        _ => None,
    }
}

// The host that begins at a place of a line. No port can follow the host of a `file` link.
fn host_at<'t>(line: &KnownText<'t>, place: usize) -> &'t str {
    let authority = before_end(line.rest_at(place));
    if is_file_link(line.as_str()) {
        authority
    } else {
        before(authority, ':')
    }
}

// What may be wrong with a label of a host.
#[derive(Clone, Copy)]
enum LabelFault {
    Empty,
    Long,
    OuterHyphen,
    InnerHyphens,
    BothDirections,
}

impl LabelFault {
    fn sentence(self) -> &'static str {
        match self {
            LabelFault::Empty => "a label of this domain is empty",
            LabelFault::Long => "a label of this domain has more than 63 code points",
            LabelFault::OuterHyphen => "a label of this domain begins or ends with -",
            LabelFault::InnerHyphens => {
                "a label of this domain has -- in its third and fourth place"
            }
            LabelFault::BothDirections => {
                "a label of this domain mixes right-to-left letters with Latin ones"
            }
        }
    }

    // Whether this is wrong with a label. For a label that ToASCII writes in another way, only emptiness and its
    // letters are recognized.
    fn is_of(self, label: &str) -> bool {
        let is_plain = label.is_ascii() && !has_prefix(label);
        match self {
            LabelFault::Empty => label.is_empty(),
            LabelFault::Long => label.is_ascii() && label.len() > 63,
            LabelFault::OuterHyphen => is_plain && (label.starts_with('-') || label.ends_with('-')),
            LabelFault::InnerHyphens => {
                is_plain && label.as_bytes().get(2..4) == Some(b"--".as_slice())
            }
            LabelFault::BothDirections => {
                label.chars().any(|c| is_from_right(c))
                    && label.bytes().any(|b| b.is_ascii_alphabetic())
                    && !label.contains('%')
            }
        }
    }
}

// The first fault that a profile refuses and a label has. The parser's profile takes labels of any length, and only the
// standard one restricts hyphens.
fn label_fault(profile: Profile, name: &str) -> Option<LabelFault> {
    let faults: &[LabelFault] = match profile {
        Profile::Standard => &[
            LabelFault::Empty,
            LabelFault::Long,
            LabelFault::OuterHyphen,
            LabelFault::InnerHyphens,
            LabelFault::BothDirections,
        ],
        Profile::Wide => &[
            LabelFault::Empty,
            LabelFault::Long,
            LabelFault::BothDirections,
        ],
        Profile::Parser => &[LabelFault::BothDirections],
    };
    faults
        .iter()
        .find(|fault| name.split('.').any(|label| fault.is_of(label)))
        .copied()
}

// Whether a code point is a Hebrew or an Arabic letter, or a digit that is written with these.
fn is_from_right(c: char) -> bool {
    match c {
        '\u{5D0}'..='\u{5EA}' | '\u{620}'..='\u{64A}' | '\u{660}'..='\u{669}' => true,
        '\u{66E}'..='\u{66F}' | '\u{671}'..='\u{6D3}' => true,
        _ => false,
    }
}

// Whether a code point joins letters or parts them, which domains may have only in a few places.
fn is_joiner(c: char) -> bool {
    c == '\u{200C}' || c == '\u{200D}'
}

// Whether a label begins with `xn--` in any case.
fn has_prefix(label: &str) -> bool {
    match label.as_bytes() {
        [b'x' | b'X', b'n' | b'N', b'-', b'-', ..] => true,
        _ => false,
    }
}
