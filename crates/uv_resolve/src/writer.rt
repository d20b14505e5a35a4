//! The text of the URL that the parts of a text denote, written into one string (URL Standard, section 4.5).
ghost use Rattle.std.specs.Prelude.{◌≡◌, ◌++◌, [], IfOk, OnOk, None, false, option_copied, option_map, string_bytes};
ghost use Rattle.uv_model.specs.Ascii.{number_sign, question_mark};
ghost use Rattle.uv_model.specs.Encoding.{encoded};
ghost use Rattle.uv_model.specs.Parts.{written_after};
ghost use Rattle.uv_model.specs.Records.Denote as spec;
ghost use Rattle.uv_model.specs.Records.Serialize.{serial, serial_host};
ghost use Rattle.uv_model.specs.Scheme.{scheme_class};
ghost use Rattle.uv_model.specs.Valid.{scheme_in};
ghost use Rattle.uv_grammar.specs.PartsHost.{referred};
ghost use Rattle.uv_resolve.specs.Layout.{IsLaid, kind_of, layout_of, marked_port};
ghost use Rattle.uv_resolve.specs.Resolve.{HaveValidText};
ghost use Rattle.uv_resolve.specs.Written.{IsWrittenHost, IsWrittenPath};

use crate::encoded_parts::push_encoded_part;
use crate::layout::{HostKind, LaidUrl, UrlLayout, has_opaque_path};
use crate::paths::{made_path, whole_path};
use crate::records::{base_class, port_of, quotes};
use crate::schemes::push_lowered;
use std::alloc::{AllocError, Global};
use uv_grammar::{Form, HostRef, Parts};
use uv_model::{Class, Host, Record, dot_prefix, push_ipv4, push_ipv6, push_port};

/// The serialized URL that the parts of a text denote against the base, with room for all of it where the text is
/// ASCII, and its layout. An error is out of memory.
#[inline(always)]
pub(crate) fn laid_url(
    alloc: Global,
    text: &str,
    parts: &Parts<'_>,
    base: Option<&Record>,
) -> Result<LaidUrl, AllocError>
    requires { HaveValidText (option_copied base) parts.now }
    ensures { IfOk result (IsLaid (spec.denote (option_copied base.entry) parts.now)) }
{
    let mut out = String::with_capacity(alloc, room_for(text, base))?;
    let layout = write_url(alloc, &mut out, parts, base)?;
    Ok(LaidUrl { text: out, layout })
}

/// Writes the serialized URL that the parts of a text denote against the base into an empty string. Its layout is read
/// while it is written. An error is out of memory.
#[inline(always)]
pub(crate) fn write_url(
    alloc: Global,
    out: &mut String,
    parts: &Parts<'_>,
    base: Option<&Record>,
) -> Result<UrlLayout, AllocError>
    requires empty { string_bytes out.old ≡ [] }
    requires valid { HaveValidText (option_copied base) parts.now }
    ensures text { IfOk result (λ _. string_bytes out.new ≡ serial (spec.denote (option_copied base.entry) parts.now)) }
    ensures layout { IfOk result (λ layout. layout ≡ layout_of (spec.denote (option_copied base.entry) parts.now)) }
{
    let class = push_scheme(alloc, out, parts, base)?;
    let scheme_end = out.as_str().len();
    let host = push_host(out, parts, base)?;
    let has_host = host.is_some();
    let host_end = out.as_str().len();
    push_port_after(out, has_host, parts, base)?;
    let port_end = out.as_str().len();
    let path_start = push_path(alloc, out, class, has_host, parts, base)?;
    let path_end = out.as_str().len();
    push_query(out, class, parts, base)?;
    let query_end = out.as_str().len();
    push_fragment(out, parts)?;
    Ok(UrlLayout {
        scheme_end,
        host_end,
        port_end,
        path_start,
        path_end,
        query_end,
        host,
        has_opaque_path: has_opaque_path(parts, base),
    })
}

// Room for most URLs, so that few of them are moved while they are written: for the text, a `/`, and what a URL has of
// its base before the path. No clause says it: a text that outgrows it is written all the same.
fn room_for(text: &str, base: Option<&Record>) -> usize {
    text.len().saturating_add(base_room(base)).saturating_add(1)
}

// Room for a base's scheme, and for the longest address with a port, which most names of hosts fit in.
fn base_room(base: Option<&Record>) -> usize {
    match base {
        Some(base) => "://[1111:2222:3333:4444:5555:6666:7777:8888]:65535"
            .len()
            .saturating_add(base.scheme().len()),
        None => 0,
    }
}

// The scheme. The answer is its class.
#[inline(always)]
fn push_scheme(
    alloc: Global,
    out: &mut String,
    parts: &Parts<'_>,
    base: Option<&Record>,
) -> Result<Class, AllocError>
    requires { HaveValidText (option_copied base) parts.now }
    ensures text { OnOk result (string_bytes out.new
        ≡ string_bytes out.old ++ spec.denoted_scheme (option_copied base.entry) parts.now.scheme) }
    ensures class { IfOk result (λ class. class ≡ scheme_class (scheme_in (option_copied base.entry) parts.now)) }
{
    match parts.scheme() {
        Some(scheme) => push_lowered(alloc, out, scheme),
        None => {
            push_base_scheme(out, base)?;
            Ok(base_class(base))
        }
    }
}

fn push_base_scheme(out: &mut String, base: Option<&Record>) -> Result<(), AllocError>
    ensures { OnOk result (string_bytes out.new
        ≡ string_bytes out.old ++ spec.denoted_scheme (option_copied base.entry) None) }
{
    match base {
        Some(base) => out.push_str(base.scheme()),
        None => Ok(()),
    }
}

// The scheme's `:`, and the host after `//`, where there is one. The answer is the host's kind.
fn push_host(
    out: &mut String,
    parts: &Parts<'_>,
    base: Option<&Record>,
) -> Result<Option<HostKind>, AllocError>
    ensures { IfOk result (IsWrittenHost (spec.denoted_host (option_copied base.entry) parts.now.form parts.now)
        (string_bytes out.old) (string_bytes out.new)) }
{
    match parts.form() {
        Form::SchemeAuthority | Form::Authority => push_own_host(out, parts),
        Form::SchemePath | Form::SchemeOpaque => {
            out.push(':')?;
            Ok(None)
        }
        Form::PathAbsolute | Form::PathRelative | Form::NoPath => push_base_host(out, base),
    }
}

#[inline(always)]
fn push_own_host(out: &mut String, parts: &Parts<'_>) -> Result<Option<HostKind>, AllocError>
    ensures { IfOk result (IsWrittenHost (spec.authority_host parts.now) (string_bytes out.old) (string_bytes out.new)) }
{
    match (parts.host(), parts.host_text()) {
        (Some(host), _) => {
            out.push_str("://")?;
            Ok(Some(push_lent_host(out, &host)?))
        }
        (None, Some(text)) => {
            out.push_str("://")?;
            push_encoded_part(out, text, false)?;
            Ok(Some(HostKind::Opaque))
        }
        (None, None) => {
            out.push(':')?;
            Ok(None)
        }
    }
}

#[tactic(auto, unfolding(uv_model::specs::Records::Serialize::serial_host))]
#[inline(always)]
fn push_lent_host(out: &mut String, host: &HostRef<'_>) -> Result<HostKind, AllocError>
    ensures written { OnOk result (string_bytes out.new ≡ string_bytes out.old ++ serial_host (referred host.now)) }
    ensures kind { IfOk result (λ kind. kind ≡ kind_of (referred host.now)) }
{
    match host {
        HostRef::Domain(name) => {
            out.push_str(name.as_str())?;
            Ok(HostKind::Domain)
        }
        HostRef::V4(value) => {
            push_ipv4(out, *value)?;
            Ok(HostKind::V4)
        }
        HostRef::V6(pieces) => {
            push_ipv6(out, pieces)?;
            Ok(HostKind::V6)
        }
        HostRef::Opaque(text) => {
            out.push_str(text.as_str())?;
            Ok(HostKind::Opaque)
        }
        HostRef::Empty => Ok(HostKind::Empty),
    }
}

fn push_base_host(out: &mut String, base: Option<&Record>) -> Result<Option<HostKind>, AllocError>
    ensures { IfOk result (IsWrittenHost (spec.base_host (option_copied base.entry))
        (string_bytes out.old) (string_bytes out.new)) }
{
    if let Some(base) = base {
        if let Some(host) = base.host() {
            out.push_str("://")?;
            return Ok(Some(push_record_host(out, host)?));
        }
    }
    out.push(':')?;
    Ok(None)
}

#[tactic(auto, unfolding(uv_model::specs::Records::Serialize::serial_host))]
fn push_record_host(out: &mut String, host: &Host) -> Result<HostKind, AllocError>
    ensures written { OnOk result (string_bytes out.new ≡ string_bytes out.old ++ serial_host host.now) }
    ensures kind { IfOk result (λ kind. kind ≡ kind_of host.now) }
{
    match host {
        Host::Domain(form) => {
            out.push_str(form.as_str())?;
            Ok(HostKind::Domain)
        }
        Host::V4(value) => {
            push_ipv4(out, *value)?;
            Ok(HostKind::V4)
        }
        Host::V6(pieces) => {
            push_ipv6(out, pieces)?;
            Ok(HostKind::V6)
        }
        Host::Opaque(text) => {
            out.push_str(text.as_str())?;
            Ok(HostKind::Opaque)
        }
        Host::Empty => Ok(HostKind::Empty),
    }
}

// The port after its `:`, where there is a host.
#[inline(always)]
fn push_port_after(
    out: &mut String,
    has_host: bool,
    parts: &Parts<'_>,
    base: Option<&Record>,
) -> Result<(), AllocError>
    ensures { OnOk result (string_bytes out.new ≡ string_bytes out.old
        ++ marked_port has_host (spec.denoted_port (option_copied base.entry) parts.now.form parts.now)) }
{
    if has_host {
        push_port(out, port_of(parts, base))
    } else {
        Ok(())
    }
}

// The path, and before it `/.` if there is no host and it would be read as an authority. The answer is where the path
// starts.
#[inline(always)]
fn push_path(
    alloc: Global,
    out: &mut String,
    class: Class,
    has_host: bool,
    parts: &Parts<'_>,
    base: Option<&Record>,
) -> Result<usize, AllocError>
    ensures { IfOk result (IsWrittenPath has_host
        (spec.denoted_path (option_copied base.entry) class parts.now.form parts.now)
        (string_bytes out.old) (string_bytes out.new)) }
{
    match whole_path(class, parts) {
        Some(path) => {
            let start = out.as_str().len();
            push_encoded_part(out, path, false)?;
            Ok(start)
        }
        None => push_made_path(alloc, out, class, has_host, parts, base),
    }
}

#[inline(never)]
fn push_made_path(
    alloc: Global,
    out: &mut String,
    class: Class,
    has_host: bool,
    parts: &Parts<'_>,
    base: Option<&Record>,
) -> Result<usize, AllocError>
    ensures { IfOk result (IsWrittenPath has_host
        (spec.denoted_path (option_copied base.entry) class parts.now.form parts.now)
        (string_bytes out.old) (string_bytes out.new)) }
{
    let path = made_path(alloc, class, parts, base)?;
    if !has_host {
        out.push_str(dot_prefix(&path))?;
    }
    let start = out.as_str().len();
    out.push_str(path.as_str())?;
    Ok(start)
}

// `?` and the query, where there is one. A reference without a path and without a query has the base's.
#[inline(always)]
fn push_query(
    out: &mut String,
    class: Class,
    parts: &Parts<'_>,
    base: Option<&Record>,
) -> Result<(), AllocError>
    ensures { OnOk result (string_bytes out.new ≡ string_bytes out.old ++ written_after question_mark
        (spec.denoted_query (option_copied base.entry) class parts.now.form parts.now.query)) }
{
    match (parts.query(), parts.form()) {
        (Some(query), _) => {
            out.push('?')?;
            push_encoded_part(out, query, quotes(class))
        }
        (None, Form::NoPath) => push_base_query(out, base),
        (None, _) => Ok(()),
    }
}

fn push_base_query(out: &mut String, base: Option<&Record>) -> Result<(), AllocError>
    ensures { OnOk result (string_bytes out.new
        ≡ string_bytes out.old ++ written_after question_mark (spec.base_query (option_copied base.entry))) }
{
    if let Some(base) = base {
        if let Some(query) = base.query() {
            out.push('?')?;
            return out.push_str(query);
        }
    }
    Ok(())
}

// `#` and the fragment, where there is one.
#[inline(always)]
fn push_fragment(out: &mut String, parts: &Parts<'_>) -> Result<(), AllocError>
    ensures { OnOk result (string_bytes out.new ≡ string_bytes out.old
        ++ written_after number_sign (option_map (encoded false) parts.now.fragment)) }
{
    let Some(text) = parts.fragment() else {
        return Ok(());
    };
    out.push('#')?;
    push_encoded_part(out, text, false)
}
