//! How the text of a URL is laid out: where its parts end, and of which kinds its host and its path are.
ghost use Rattle.std.specs.Prelude.{◌≡◌, option_copied};
ghost use Rattle.uv_model.specs.Records.Denote as spec;
ghost use Rattle.uv_model.specs.Records.Url.{is_opaque};
ghost use Rattle.uv_model.specs.declared.scheme.Class.{Class};

use uv_grammar::{Form, Parts};
use uv_model::Record;

/// How the text of a URL is laid out (URL Standard, section 4.5). The ends are in bytes. A part begins with the mark
/// before it, an absent part ends where the part before it does, and a fragment ends with the text.
#[derive(Clone, Copy)]
pub struct UrlLayout {
    /// After the scheme, before its `:`.
    pub scheme_end: usize,
    /// After the host, or after the scheme's `:` if there is none.
    pub host_end: usize,
    /// After the port.
    pub port_end: usize,
    /// After the `/.` before a path that would be read as an authority, if there is no host.
    pub path_start: usize,
    /// After the path.
    pub path_end: usize,
    /// After the query.
    pub query_end: usize,
    /// The kind of the host, where there is one.
    pub host: Option<HostKind>,
    /// The path is an opaque text.
    pub has_opaque_path: bool,
}

/// The text of a URL, and how it is laid out.
#[derive(Drop)]
pub struct LaidUrl {
    /// The URL, serialized.
    pub text: String,
    /// The ends of its parts, and their kinds.
    pub layout: UrlLayout,
}

/// The kinds of hosts (URL Standard, section 3.1).
#[derive(Clone, Copy)]
pub enum HostKind {
    /// A domain.
    Domain,
    /// An IPv4 address.
    V4,
    /// An IPv6 address.
    V6,
    /// An opaque host.
    Opaque,
    /// The empty host.
    Empty,
}

/// Whether the path that the parts denote against the base is an opaque text.
#[inline(always)]
pub(crate) fn has_opaque_path(parts: &Parts<'_>, base: Option<&Record>) -> bool
    ensures { (class : Class) → result
        ≡ is_opaque (spec.denoted_path (option_copied base.entry) class parts.now.form parts.now) }
{
    match (parts.form(), base) {
        (Form::SchemeOpaque, _) => true,
        (Form::NoPath, Some(base)) => base.is_opaque(),
        _ => false,
    }
}
