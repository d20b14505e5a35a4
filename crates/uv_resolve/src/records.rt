//! The record that the parts of a valid text denote, after the URL Standard, section 4.4.
ghost use Rattle.std.specs.Prelude.{◌≡◌, IfOk, None, false, option_copied, option_map};
ghost use Rattle.std.specs.Cow.{cow_str_bytes};
ghost use Rattle.uv_model.specs.Records.Denote as spec;
ghost use Rattle.uv_model.specs.Encoding.{encoded};
ghost use Rattle.uv_model.specs.Scheme.{scheme_class};
ghost use Rattle.uv_model.specs.Valid.{scheme_in};
ghost use Rattle.uv_model.specs.Records.WellFormed.{WellFormed};
ghost use Rattle.uv_resolve.specs.Resolve.{HaveValidText, IsDenoted};
ghost use Rattle.uv_grammar.specs.Slices.{chars_of_option};

use crate::encoded_parts::encoded_text;
use crate::fault::ResolveFault;
use crate::paths::path_of;
use crate::schemes::{class_by, copied, lowered};
use std::alloc::{AllocError, Global};
use std::borrow::CowStr;
use uv_grammar::{Form, HostRef, Parts};
use uv_model::{Class, Host, Profile, Record, Text};

/// The record that the parts denote against the base. The only fault is out of memory: it has the type of a resolver's,
/// which so hands the answer on, without a copy of the record.
pub(crate) fn denoted(
    alloc: Global,
    parts: &Parts<'_>,
    base: Option<&Record>,
) -> Result<Record, ResolveFault>
    requires valid { HaveValidText (option_copied base) parts.now }
    requires well_formed { WellFormed Profile.Parser (spec.denote (option_copied base) parts.now) }
    ensures { IsDenoted (spec.denote (option_copied base.entry) parts.now) result }
{
    let class = class_in(parts, base);
    let scheme = scheme_of(alloc, parts, base)?;
    let port = port_of(parts, base);
    let path = path_of(alloc, class, parts, base)?;
    let query = query_of(alloc, class, parts, base)?;
    let fragment = fragment_of(alloc, parts)?;
    let host = host_of(alloc, parts, base)?;
    Ok(Record::make_with(scheme, host, port, path, query, fragment))
}

// The class of the text's scheme, or of the base's where the text has none.
fn class_in(parts: &Parts<'_>, base: Option<&Record>) -> Class
    ensures { result ≡ scheme_class (scheme_in (option_copied base.entry) parts.now) }
{
    match parts.scheme() {
        Some(scheme) => class_by(scheme),
        None => base_class(base),
    }
}

/// The class of a base's scheme.
pub(crate) fn base_class(base: Option<&Record>) -> Class
    ensures { result ≡ scheme_class (spec.denoted_scheme (option_copied base.entry) None) }
{
    match base {
        Some(base) => class_by(base.scheme()),
        None => Class::Other,
    }
}

#[inline(always)]
fn scheme_of(
    alloc: Global,
    parts: &Parts<'_>,
    base: Option<&Record>,
) -> Result<CowStr<'static>, AllocError>
    requires { HaveValidText (option_copied base) parts.now }
    ensures { IfOk result (λ scheme.
        cow_str_bytes scheme ≡ spec.denoted_scheme (option_copied base.entry) parts.now.scheme) }
{
    match parts.scheme() {
        Some(scheme) => lowered(alloc, scheme),
        None => base_scheme(alloc, base),
    }
}

fn base_scheme(alloc: Global, base: Option<&Record>) -> Result<CowStr<'static>, AllocError>
    ensures { IfOk result (λ scheme.
        cow_str_bytes scheme ≡ spec.denoted_scheme (option_copied base.entry) None) }
{
    match base {
        Some(base) => copied(alloc, base.scheme()),
        None => Ok(CowStr::Borrowed("")),
    }
}

// The host of the authority, or the base's where the text has neither a scheme nor an authority.
#[inline(always)]
fn host_of(
    alloc: Global,
    parts: &Parts<'_>,
    base: Option<&Record>,
) -> Result<Option<Host>, AllocError>
    ensures { IfOk result (λ host.
        host ≡ spec.denoted_host (option_copied base.entry) parts.now.form parts.now) }
{
    match parts.form() {
        Form::SchemeAuthority | Form::Authority => authority_host(alloc, parts),
        Form::SchemePath | Form::SchemeOpaque => Ok(None),
        Form::PathAbsolute | Form::PathRelative | Form::NoPath => base_host(alloc, base),
    }
}

#[inline(always)]
fn authority_host(alloc: Global, parts: &Parts<'_>) -> Result<Option<Host>, AllocError>
    ensures { IfOk result (λ host. host ≡ spec.authority_host parts.now) }
{
    match parts.host() {
        Some(HostRef::Domain(form)) => Ok(Some(Host::Domain(Text::copy_of(alloc, form.as_str())?))),
        Some(HostRef::V4(value)) => Ok(Some(Host::V4(value))),
        Some(HostRef::V6(pieces)) => Ok(Some(Host::V6(pieces))),
        Some(host) => Ok(Some(host.copy(alloc)?)),
        None => opaque_host(alloc, parts.host_text()),
    }
}

fn opaque_host(alloc: Global, text: Option<&str>) -> Result<Option<Host>, AllocError>
    ensures { IfOk result (λ host.
        host ≡ option_map (λ t. Host.Opaque (encoded false t)) (chars_of_option text.entry)) }
{
    match text {
        Some(text) => Ok(Some(Host::Opaque(encoded_text(alloc, text, false)?))),
        None => Ok(None),
    }
}

fn base_host(alloc: Global, base: Option<&Record>) -> Result<Option<Host>, AllocError>
    ensures { IfOk result (λ host. host ≡ spec.base_host (option_copied base.entry)) }
{
    let Some(base) = base else {
        return Ok(None);
    };
    match base.host() {
        Some(host) => Ok(Some(host.copy(alloc)?)),
        None => Ok(None),
    }
}

/// The port of the authority, or the base's where the text has neither a scheme nor an authority.
#[inline(always)]
pub(crate) fn port_of(parts: &Parts<'_>, base: Option<&Record>) -> Option<u16>
    ensures { result ≡ spec.denoted_port (option_copied base.entry) parts.now.form parts.now }
{
    match parts.form() {
        Form::SchemeAuthority | Form::Authority => parts.port(),
        Form::SchemePath | Form::SchemeOpaque => None,
        Form::PathAbsolute | Form::PathRelative | Form::NoPath => base_port(base),
    }
}

fn base_port(base: Option<&Record>) -> Option<u16>
    ensures { result ≡ spec.base_port (option_copied base.entry) }
{
    match base {
        Some(base) => base.port(),
        None => None,
    }
}

// The text's query. A reference without a path and without a query has the base's.
#[inline(always)]
fn query_of(
    alloc: Global,
    class: Class,
    parts: &Parts<'_>,
    base: Option<&Record>,
) -> Result<Option<Text>, AllocError>
    ensures { IfOk result (λ query. query
        ≡ spec.denoted_query (option_copied base.entry) class parts.now.form parts.now.query) }
{
    match (parts.query(), parts.form()) {
        (Some(query), _) => encoded_option(alloc, Some(query), quotes(class)),
        (None, Form::NoPath) => base_query(alloc, base),
        (None, _) => Ok(None),
    }
}

/// Whether a query encodes `'` too, as the query of a URL of class SpecialNotFile or File does.
pub(crate) fn quotes(class: Class) -> bool
    ensures { result ≡ spec.quotes class }
{
    match class {
        Class::SpecialNotFile | Class::File => true,
        Class::Other => false,
    }
}

fn base_query(alloc: Global, base: Option<&Record>) -> Result<Option<Text>, AllocError>
    ensures { IfOk result (λ query. query
        ≡ spec.base_query (option_copied base.entry)) }
{
    let Some(base) = base else {
        return Ok(None);
    };
    match base.query_text() {
        Some(query) => Ok(Some(query.copy(alloc)?)),
        None => Ok(None),
    }
}

// The text's fragment. The base's is never taken.
fn fragment_of(alloc: Global, parts: &Parts<'_>) -> Result<Option<Text>, AllocError>
    ensures { IfOk result (λ fragment. fragment
        ≡ option_map (encoded false) parts.now.fragment) }
{
    encoded_option(alloc, parts.fragment(), false)
}

#[inline(always)]
fn encoded_option(
    alloc: Global,
    text: Option<&str>,
    quote: bool,
) -> Result<Option<Text>, AllocError>
    ensures { IfOk result (λ out. out
        ≡ option_map (encoded quote) (chars_of_option text.entry)) }
{
    match text {
        Some(text) => Ok(Some(encoded_text(alloc, text, quote)?)),
        None => Ok(None),
    }
}
