//! Why a host in brackets isn't an IPv6 address, and IPv6 addresses without brackets.

use crate::sentences::authority::{authority_of, before_end};
use crate::sentences::code_point::point_name;
use crate::sentences::message::PlacedMessage;
use crate::sentences::pieces::{after, before, has_piece};
use std::alloc::{AllocError, Global};
use std::net::{Ipv4Addr, Ipv6Addr};

/// What is reported about a host that begins with `[`, with which this text begins, at this place of a line.
pub(crate) fn ipv6_message(
    alloc: Global,
    text: &str,
    place: usize,
) -> Result<PlacedMessage, AllocError> {
    let authority = before_end(text);
    if !has_piece(authority, "]") {
        return PlacedMessage::of(alloc, missing_bracket(after(authority, '[')), place);
    }
    let rest = after(authority, ']');
    if !rest.is_empty() && !rest.starts_with(':') {
        return PlacedMessage::of(
            alloc,
            "nothing but a port can follow the ] of a host",
            place,
        );
    }
    let address = before(after(authority, '['), ']');
    if has_piece(address, "%") && is_ipv6(before(address, '%')) {
        return PlacedMessage::of(
            alloc,
            "an IPv6 address in a URL has no zone: leave out the % and what follows it",
            place,
        );
    }
    address_message(alloc, address, place)
}

// What is reported about a text in brackets that isn't an IPv6 address. The `[` is at this place.
fn address_message(
    alloc: Global,
    address: &str,
    place: usize,
) -> Result<PlacedMessage, AllocError> {
    let foreign = address
        .chars()
        .enumerate()
        .find(|(_, c)| !is_of_address(*c));
    if let Some((ahead, c)) = foreign {
        return Ok(PlacedMessage {
            text: foreign_sentence(alloc, c)?,
            place: place.saturating_add(ahead).saturating_add(1),
        });
    }
    match address_fault(address) {
        Some(said) => PlacedMessage::of(alloc, said, place),
        None => Ok(PlacedMessage {
            text: counted_sentence(alloc, address)?,
            place,
        }),
    }
}

// The sentence on a code point that isn't allowed in an IPv6 address.
fn foreign_sentence(alloc: Global, c: char) -> Result<String, AllocError> {
    let name = point_name(alloc, c)?;
    let name = name.as_str();
    format!(in alloc; "{name} is not a hex digit of an IPv6 address")
}

// The sentence on a `[` that no `]` follows.
fn missing_bracket(text: &str) -> &'static str {
    if is_ipv6(text) {
        "] is missing after this IPv6 address"
    } else {
        "] is missing after the [ of this host"
    }
}

// What is wrong with a text of hex digits, `:` and `.` that isn't an IPv6 address, or with one of its pieces.
fn address_fault(address: &str) -> Option<&'static str> {
    let (front, rest) = address.split_once("::").unwrap_or((address, ""));
    if address.is_empty() {
        Some("an IPv6 address is missing in these brackets")
    } else if is_ipv4(address) {
        Some("an IPv4 address is written without brackets")
    } else if has_piece(rest, "::") {
        Some(":: is twice in this IPv6 address")
    } else if has_empty_piece(front) || has_empty_piece(rest) {
        Some("a piece of this IPv6 address is empty")
    } else if address.split(':').any(|piece| is_long(piece)) {
        Some("a piece of this IPv6 address has more than 4 hex digits")
    } else if has_piece(address, ".") && !is_ipv4(last_piece(address)) {
        Some("this IPv6 address ends in no IPv4 address of four numbers up to 255")
    } else {
        None
    }
}

// The sentence on the number of pieces. An IPv4 address at the end stands for two of them.
fn counted_sentence(alloc: Global, address: &str) -> Result<String, AllocError> {
    let pieces = address.split(':').filter(|piece| !piece.is_empty()).count();
    let more = if has_piece(address, ".") { 1 } else { 0 };
    let count = pieces.saturating_add(more);
    if has_piece(address, "::") {
        format!(in alloc;
            "an IPv6 address with :: has at most seven pieces, and this one has {count}"
        )
    } else {
        format!(in alloc; "an IPv6 address has eight pieces, and this one has {count}")
    }
}

// Whether one of the pieces between `:` is empty, though the text isn't.
fn has_empty_piece(text: &str) -> bool {
    !text.is_empty() && text.split(':').any(|piece| piece.is_empty())
}

// What comes after the last `:`.
fn last_piece(address: &str) -> &str {
    address.rsplit(':').next().unwrap_or("")
}

// Whether a text is an IPv4 address.
fn is_ipv4(text: &str) -> bool {
    Ipv4Addr::parse_ascii(text.as_bytes()).is_ok()
}

// Whether a code point may be in an IPv6 address.
fn is_of_address(c: char) -> bool {
    c.is_ascii_hexdigit() || c == ':' || c == '.'
}

// Whether a piece has more hex digits than pieces have. One with `.` is an IPv4 address.
fn is_long(piece: &str) -> bool {
    piece.len() > 4 && !has_piece(piece, ".")
}

/// Whether the authority of a text that has one is an IPv6 address.
pub(crate) fn has_bare_ipv6(line: &str) -> bool {
    is_ipv6(authority_of(line))
}

/// Whether a text is an IPv6 address, without brackets.
pub(crate) fn is_ipv6(text: &str) -> bool {
    Ipv6Addr::parse_ascii(text.as_bytes()).is_ok()
}
