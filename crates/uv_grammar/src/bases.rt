//! What a verdict asks of a base.
ghost use Rattle.std.specs.Prelude.{◌≡◌, ◌↔◌, IsTrue, None, Some, option_copied};
ghost use Rattle.std.specs.Str.{chars};
ghost use Rattle.uv_grammar.specs.Bases.{IsOfKind, IsOfScheme, as_base, as_url, scheme_name};
ghost use Rattle.uv_model.specs.Records.Denote.{denote, denoted_host, denoted_path, denoted_scheme};
ghost use Rattle.uv_model.specs.declared.scheme.Class.{Class};
ghost use Rattle.uv_model.specs.Records.Url.{is_opaque};
ghost use Rattle.uv_model.specs.Scheme.{lowercase};

use crate::form::Form;
use crate::parts::Parts;
use crate::parts_host::HostRef;
use uv_model::{Host, Record, is_name};

/// The scheme of a base, as far as a verdict asks for it: its class and its default port.
#[derive(Clone, Copy, Debug, PartialEq, Eq)]
pub enum BaseScheme {
    /// `ftp`.
    Ftp,
    /// `http` or `ws`, whose default port is 80.
    Http,
    /// `https` or `wss`, whose default port is 443.
    Https,
    /// `file`.
    File,
    /// Every other scheme.
    Other,
}

/// The kind of a base, which is all that a verdict asks of it (URL Standard, section 4.3): against two bases of one
/// kind each text is valid with the same parts, or violates the same rules at the same places.
#[derive(Clone, Copy, Debug, PartialEq, Eq)]
pub struct BaseKind {
    /// The scheme.
    pub scheme: BaseScheme,
    /// Whether the path is opaque.
    pub has_opaque_path: bool,
    /// Whether the host is the empty one.
    pub has_empty_host: bool,
}

impl BaseKind {
    /// The kind of a base.
    pub fn of(base: &Record) -> BaseKind
        ensures { IsOfKind base.now result }
    {
        BaseKind {
            scheme: BaseScheme::of(base.scheme()),
            has_opaque_path: base.is_opaque(),
            has_empty_host: is_empty_host(base.host()),
        }
    }

    /// The kind of the base that a text with these parts denotes without a base of its own. No record is made, and so
    /// no memory is taken.
    pub fn of_parts(parts: &Parts<'_>) -> BaseKind
        ensures { IsOfKind (denote None parts.now) result }
    {
        BaseKind {
            scheme: BaseScheme::of(written_scheme(parts)),
            has_opaque_path: denotes_opaque_path(parts),
            has_empty_host: denotes_empty_host(parts),
        }
    }
}

// The scheme as it is written, or nothing of parts without one.
fn written_scheme<'t>(parts: &Parts<'t>) -> &'t str
    ensures { lowercase (chars result.now) ≡ denoted_scheme None parts.now.scheme }
{
    match parts.scheme() {
        Some(scheme) => scheme,
        None => "",
    }
}

// Whether parts denote an opaque path without a base.
fn denotes_opaque_path(parts: &Parts<'_>) -> bool
    ensures { (class : Class) → is_opaque (denoted_path None class parts.now.form parts.now) ≡ result }
{
    match parts.form() {
        Form::SchemeOpaque => true,
        Form::SchemeAuthority | Form::SchemePath | Form::Authority => false,
        Form::PathAbsolute | Form::PathRelative | Form::NoPath => false,
    }
}

// Whether parts denote the empty host alone.
fn denotes_empty_host(parts: &Parts<'_>) -> bool
    ensures { IsTrue result ↔ (denoted_host None parts.now.form parts.now ≡ Some Host.Empty) }
{
    match parts.form() {
        Form::SchemeAuthority | Form::Authority => matches!(parts.host(), Some(HostRef::Empty)),
        Form::SchemePath | Form::SchemeOpaque => false,
        Form::PathAbsolute | Form::PathRelative | Form::NoPath => false,
    }
}

impl BaseScheme {
    // The kind of a scheme in any case.
    #[tactic(auto, unfolding(uv_model::specs::Scheme::scheme_class, uv_model::specs::Scheme::default_port))]
    fn of(scheme: &str) -> BaseScheme
        ensures { IsOfScheme (chars scheme.now) result }
    {
        if is_name(scheme, "file") {
            BaseScheme::File
        } else if is_name(scheme, "ftp") {
            BaseScheme::Ftp
        } else if is_name(scheme, "http") || is_name(scheme, "ws") {
            BaseScheme::Http
        } else if is_name(scheme, "https") || is_name(scheme, "wss") {
            BaseScheme::Https
        } else {
            BaseScheme::Other
        }
    }

    // A scheme of the kind.
    fn name(self) -> &'static str
        ensures { result.now ≡ scheme_name self }
    {
        match self {
            BaseScheme::Ftp => "ftp",
            BaseScheme::Http => "http",
            BaseScheme::Https => "https",
            BaseScheme::File => "file",
            BaseScheme::Other => "",
        }
    }
}

/// A base, by its record or only by its kind.
#[derive(Clone, Copy)]
pub(crate) enum Base<'b> {
    /// What a text denotes.
    Whole(&'b Record),
    /// Any base of the kind.
    Kind(BaseKind),
}

impl<'b> Base<'b> {
    /// The base by its record, where there is one.
    pub(crate) fn whole(base: Option<&'b Record>) -> Option<Base<'b>>
        ensures { as_base result ≡ option_copied base.entry }
    {
        match base {
            Some(record) => Some(Base::Whole(record)),
            None => None,
        }
    }

    /// The scheme.
    pub(crate) fn scheme(self) -> &'b str
        ensures { chars result.now ≡ (as_url self.entry).scheme }
    {
        match self {
            Base::Whole(base) => base.scheme(),
            Base::Kind(kind) => kind.scheme.name(),
        }
    }

    /// Whether the path is opaque.
    pub(crate) fn has_opaque_path(self) -> bool
        ensures { result ≡ is_opaque (as_url self.entry).path }
    {
        match self {
            Base::Whole(base) => base.is_opaque(),
            Base::Kind(kind) => kind.has_opaque_path,
        }
    }

    /// Whether the host is the empty one.
    pub(crate) fn has_empty_host(self) -> bool
        ensures { IsTrue result ↔ ((as_url self.entry).host ≡ Some Host.Empty) }
    {
        match self {
            Base::Whole(base) => is_empty_host(base.host()),
            Base::Kind(kind) => kind.has_empty_host,
        }
    }
}

// The host is the empty one.
fn is_empty_host(host: Option<&Host>) -> bool
    ensures { IsTrue result ↔ (option_copied host.entry ≡ Some Host.Empty) }
{
    match host {
        Some(Host::Empty) => true,
        _ => false,
    }
}
