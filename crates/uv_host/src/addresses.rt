//! IPv4 and IPv6 texts (URL Standard, section 3.4).
ghost use Rattle.std.specs.Prelude.{chars};
ghost use Rattle.uv_model.specs.Hosts.Address.{Reads, IsIpv4, IsIpv6, IsBracketedIpv6};

use crate::plain_names::ends_in_word;
use std::net::{Ipv4Addr, Ipv6Addr};

/// The value of an IPv4 text, or `None` if the text isn't an IPv4 text (URL Standard, section 3.4). The first number is
/// the highest byte.
pub fn ipv4(text: &str) -> Option<u32>
    ensures { Reads IsIpv4 (chars text.now) result }
{
    if ends_in_word(text.as_bytes()) {
        return None;
    }
    match text.parse::<Ipv4Addr>() {
        Ok(address) => Some(address.to_bits()),
        Err(_) => None,
    }
}

/// The eight pieces of an IPv6 text, or `None` if the text isn't an IPv6 text (URL Standard, section 3.4). It is
/// without brackets.
pub fn ipv6(text: &str) -> Option<[u16; 8]>
    ensures { Reads IsIpv6 (chars text.now) result }
{
    ipv6_of(text.as_bytes())
}

/// The eight pieces of an IPv6 text in brackets, or `None` if the text isn't one (URL Standard, sections 3.4 and 3.5).
pub fn bracketed_ipv6(text: &str) -> Option<[u16; 8]>
    ensures { Reads IsBracketedIpv6 (chars text.now) result }
{
    match text.as_bytes() {
        [b'[', inner @ .., b']'] => ipv6_of(inner),
        _ => None,
    }
}

// The eight pieces of an IPv6 text, or `None` if the bytes aren't IPv6 text.
fn ipv6_of(bytes: &[u8]) -> Option<[u16; 8]>
    ensures { Reads IsIpv6 bytes.now result }
{
    match Ipv6Addr::parse_ascii(bytes) {
        Ok(address) => Some(address.segments()),
        Err(_) => None,
    }
}
