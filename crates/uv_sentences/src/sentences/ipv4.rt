//! Why a host that ends in a number isn't an IPv4 address.

use crate::sentences::authority::before_end;
use crate::sentences::pieces::before;
use std::alloc::{AllocError, Global};
use uv_model::{Profile, Rule};

/// The sentence on a host that ends in a number, with which this text begins.
pub(crate) fn ipv4_sentence(
    alloc: Global,
    profile: Profile,
    text: &str,
) -> Result<String, AllocError> {
    let host = before(before_end(text), ':');
    // (a host with other code points, as with a fullwidth `1`, is read as another text, so its own numbers say little)
    if !host.bytes().all(|b| b.is_ascii_alphanumeric() || b == b'.') {
        return String::from_str(alloc, Rule::HostNumber.sentence());
    }
    if let Some(number) = host.split('.').find(|number| is_hex(number)) {
        return number_sentence(
            alloc,
            number,
            "is hex to URL parsers: write a decimal number",
        );
    }
    if !host.bytes().all(|b| b.is_ascii_digit() || b == b'.') {
        return String::from_str(alloc, Rule::HostNumber.sentence());
    }
    if let Some(number) = host.split('.').find(|number| is_octal(number)) {
        return number_sentence(
            alloc,
            number,
            "is octal to URL parsers: write no 0 before a number",
        );
    }
    counted_sentence(alloc, profile, host)
}

// The sentence on decimal numbers: that one is too large, or how many there are.
fn counted_sentence(alloc: Global, profile: Profile, host: &str) -> Result<String, AllocError> {
    let name = host.strip_suffix('.').unwrap_or(host);
    let count = name.split('.').count();
    // The parser's profile accepts fewer.
    if count > 4 || (count < 4 && profile != Profile::Parser) {
        return format!(in alloc; "an IPv4 address has four numbers, and this one has {count}");
    }
    match name.split('.').find(|number| is_large(number)) {
        Some(number) => number_sentence(
            alloc,
            number,
            "is above 255, the largest number of an IPv4 address",
        ),
        None if host.ends_with('.') => {
            String::from_str(alloc, "an IPv4 address has no full stop at its end")
        }
        None => String::from_str(alloc, Rule::HostNumber.sentence()),
    }
}

// The sentence on a number; a long one isn't repeated.
fn number_sentence(alloc: Global, number: &str, said: &str) -> Result<String, AllocError> {
    if number.len() > 16 {
        format!(in alloc; "a number of this host {said}")
    } else {
        format!(in alloc; "{number} {said}")
    }
}

// Whether URL parsers read a number as hex.
fn is_hex(number: &str) -> bool {
    number.starts_with("0x") || number.starts_with("0X")
}

// Whether URL parsers read a decimal number as octal.
fn is_octal(number: &str) -> bool {
    number.len() > 1 && number.starts_with('0')
}

// Whether a decimal number without zeros before it is above 255.
fn is_large(number: &str) -> bool {
    number.len() > 3 || (number.len() == 3 && number > "255")
}
