//! Hosts, and the host serializer.
ghost use Rattle.std.specs.Prelude.{◌≡◌, IfOk, IsOk, string_bytes};
ghost use Rattle.uv_model.specs.Records.Serialize.{serial_host, serial_ipv4, serial_ipv6};

use crate::address_text::{push_ipv4, push_ipv6};
use crate::text::Text;
use std::alloc::{AllocError, Global};

/// The host of a URL.
#[derive(Debug, Drop)]
pub enum Host {
    /// A domain in its ASCII form.
    Domain(Text),
    /// An IPv4 address.
    V4(u32),
    /// An IPv6 address, as eight pieces.
    V6([u16; 8]),
    /// An opaque host, which only a URL that isn't special has.
    Opaque(Text),
    /// The empty host.
    Empty,
}

impl Host {
    /// An equal host. An error means that memory ran out.
    pub fn copy(&self, alloc: Global) -> Result<Host, AllocError>
        ensures { IfOk result (λ host. host ≡ self.now) }
    {
        match self {
            Host::Domain(form) => Ok(Host::Domain(form.copy(alloc)?)),
            Host::V4(value) => Ok(Host::V4(*value)),
            Host::V6(pieces) => Ok(Host::V6(*pieces)),
            Host::Opaque(text) => Ok(Host::Opaque(text.copy(alloc)?)),
            Host::Empty => Ok(Host::Empty),
        }
    }

    /// The host serialized, an IPv6 address in brackets (URL Standard, section 3.6). An error means that memory ran
    /// out.
    #[tactic(auto, unfolding(crate::specs::Records::Serialize::serial_host))]
    pub fn text(&self, alloc: Global) -> Result<String, AllocError>
        ensures text { IfOk result (λ text. string_bytes text ≡ serial_host self.now) }
        ensures memory { self.now ≡ Host.Empty → IsOk result }
    {
        match self {
            Host::Domain(form) => String::from_str(alloc, form.as_str()),
            Host::V4(value) => ipv4_text(alloc, *value),
            Host::V6(pieces) => ipv6_text(alloc, pieces),
            Host::Opaque(text) => String::from_str(alloc, text.as_str()),
            Host::Empty => Ok(String::new(alloc)),
        }
    }
}

// The four numbers of an IPv4 address, in one allocation.
fn ipv4_text(alloc: Global, value: u32) -> Result<String, AllocError>
    ensures { IfOk result (λ text. string_bytes text ≡ serial_ipv4 value) }
{
    let mut text = String::with_capacity(alloc, "255.255.255.255".len())?;
    push_ipv4(&mut text, value)?;
    Ok(text)
}

// The pieces of an IPv6 address in brackets, in one allocation.
fn ipv6_text(alloc: Global, pieces: &[u16; 8]) -> Result<String, AllocError>
    ensures { IfOk result (λ text. string_bytes text ≡ serial_ipv6 pieces.now) }
{
    let mut text = String::with_capacity(alloc, "[1111:2222:3333:4444:5555:6666:7777:8888]".len())?;
    push_ipv6(&mut text, pieces)?;
    Ok(text)
}
