//! The host of the parts of a text, made or a slice of the text, and the view that is lent of it.
ghost use Rattle.std.specs.Prelude.{◌≡◌, IfOk};
ghost use Rattle.std.specs.Str.{IsAscii};
ghost use Rattle.uv_grammar.specs.PartsHost.{as_host, referred};

use std::alloc::{AllocError, Global};
use std::marker::Model;
use uv_model::{Host, Text};

/// A slice of ASCII. Contracts see its code points, which are its bytes.
#[derive(Drop)]
pub struct AsciiText<'t> {
    text: &'t str,
}

impl<'t> Model for AsciiText<'t> {
    ghost use Rattle.std.specs.Prelude.{ℕ, List};
    ghost use Rattle.std.specs.Str.{IsAscii};

    ghost Value = { List ℕ };

    ghost view = { λ t. t.text.now };

    ghost invariant = { λ t. IsAscii t.text.now };
}

impl<'t> AsciiText<'t> {
    // The slice of an ASCII text.
    pub(crate) fn of(text: &'t str) -> AsciiText<'t>
        requires { IsAscii text.now }
        ensures { result ≡ text.now }
    {
        AsciiText { text }
    }

    /// The slice.
    pub fn as_str(&self) -> &'t str
        ensures text { result.now ≡ self.now }
        ensures ascii { IsAscii self.now }
    {
        self.text
    }

    // An owned text of the same code points. The error is out of memory.
    fn copy(&self, alloc: Global) -> Result<Text, AllocError>
        ensures { IfOk result (λ text. text ≡ self.now) }
    {
        Text::copy_of(alloc, self.as_str())
    }
}

/// A host that parts hold.
#[derive(Drop)]
pub(crate) enum PartsHost<'t> {
    /// A host with a value of its own.
    Made(Host),
    /// A domain that is its own ASCII form, as a slice of the text.
    Plain(AsciiText<'t>),
}

impl<'t> PartsHost<'t> {
    /// The host, lent.
    pub(crate) fn lent(&self) -> HostRef<'_>
        ensures { referred result ≡ as_host self.now }
    {
        match self {
            PartsHost::Made(host) => lent(host),
            PartsHost::Plain(name) => HostRef::Domain(AsciiText::of(name.as_str())),
        }
    }

    /// The host given back, copied only when it is a slice of the text. The error is out of memory.
    pub(crate) fn into_host(self, alloc: Global) -> Result<Host, AllocError>
        ensures { IfOk result (λ host. host ≡ as_host self.entry) }
    {
        match self {
            PartsHost::Made(host) => Ok(host),
            PartsHost::Plain(name) => Ok(Host::Domain(name.copy(alloc)?)),
        }
    }
}

/// A host, lent.
#[derive(Drop)]
pub enum HostRef<'p> {
    /// A domain in its ASCII form.
    Domain(AsciiText<'p>),
    /// An IPv4 address.
    V4(u32),
    /// An IPv6 address, as eight pieces.
    V6([u16; 8]),
    /// An opaque host, which only a URL that isn't special has.
    Opaque(AsciiText<'p>),
    /// The empty host.
    Empty,
}

impl<'p> HostRef<'p> {
    /// The host, copied. The error is out of memory.
    pub fn copy(&self, alloc: Global) -> Result<Host, AllocError>
        ensures { IfOk result (λ host. host ≡ referred self.now) }
    {
        match self {
            HostRef::Domain(form) => Ok(Host::Domain(form.copy(alloc)?)),
            HostRef::V4(value) => Ok(Host::V4(*value)),
            HostRef::V6(pieces) => Ok(Host::V6(*pieces)),
            HostRef::Opaque(text) => Ok(Host::Opaque(text.copy(alloc)?)),
            HostRef::Empty => Ok(Host::Empty),
        }
    }
}

// A host, lent.
fn lent(host: &Host) -> HostRef<'_>
    ensures { referred result ≡ host.now }
{
    match host {
        Host::Domain(form) => HostRef::Domain(AsciiText::of(form.as_str())),
        Host::V4(value) => HostRef::V4(*value),
        Host::V6(pieces) => HostRef::V6(*pieces),
        Host::Opaque(text) => HostRef::Opaque(AsciiText::of(text.as_str())),
        Host::Empty => HostRef::Empty,
    }
}
