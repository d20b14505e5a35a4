//! The URL serializer: a record written as text.
ghost use Rattle.std.specs.Prelude.{◌≡◌, ◌<◌, ◌∷◌, ◌++◌, OnOk, OnErr, IfOk, Option, Some, None, option_copied};
ghost use Rattle.std.specs.Prelude.{string_bytes};
ghost use Rattle.std.specs.Io.{StartsWith};
ghost use Rattle.uv_model.specs.Records.Serialize.{serial, serial_authority, serial_host, serial_path, serial_port};
ghost use Rattle.uv_model.specs.declared.path.UrlPath.TheVariants.{Segments};
ghost use Rattle.uv_model.specs.Ascii.{colon, question_mark, number_sign};
ghost use Rattle.uv_model.specs.Parts.{written_after};

use crate::address_text::{push_ipv4, push_ipv6, push_port};
use crate::host::Host;
use crate::path::UrlPath;
use crate::path_text::PathSegments;
use crate::record::Record;
use std::alloc::{AllocError, Global};

impl Record {
    /// The record's URL serialized (URL Standard, section 4.5). An error means that memory ran out.
    pub fn text(&self, alloc: Global) -> Result<String, AllocError>
        ensures { IfOk result (λ text. string_bytes text ≡ serial self.now) }
    {
        let mut text = String::with_capacity(alloc, room_for(self))?;
        self.push_text(&mut text)?;
        Ok(text)
    }

    /// Appends the record's URL serialized (URL Standard, section 4.5). An error means that memory ran out: `out` then
    /// still begins with what it held.
    #[tactic(auto, unfolding(crate::specs::Records::Serialize::serial))]
    pub fn push_text(&self, out: &mut String) -> Result<(), AllocError>
        ensures ok { OnOk result (string_bytes out.new ≡ string_bytes out.old ++ serial self.now) }
        ensures err { OnErr result (StartsWith (string_bytes out.new) (string_bytes out.old)) }
    {
        push_before_path(out, self)?;
        push_from_path(out, self)
    }
}

// The length of that text, with room for any address and any port. No clause depends on it: a text that outgrows it is
// still written.
fn room_for(url: &Record) -> usize {
    url.scheme()
        .len()
        .saturating_add(host_room(url.host()))
        .saturating_add(url.path().as_str().len())
        .saturating_add(part_room(url.query()))
        .saturating_add(part_room(url.fragment()))
        .saturating_add("://:65535".len())
}

// The length of a name, or the most that an address has.
fn host_room(host: Option<&Host>) -> usize {
    match host {
        Some(Host::Domain(form)) => form.as_str().len(),
        Some(Host::Opaque(text)) => text.as_str().len(),
        Some(Host::V4(_) | Host::V6(_)) => "[1111:2222:3333:4444:5555:6666:7777:8888]".len(),
        Some(Host::Empty) | None => 0,
    }
}

// The length of a part with the mark before it, if there is one.
fn part_room(text: Option<&str>) -> usize {
    match text {
        Some(text) => text.len().saturating_add(1),
        None => 0,
    }
}

// The scheme with its `:`, and what is between it and the path.
fn push_before_path(out: &mut String, url: &Record) -> Result<(), AllocError>
    ensures ok { OnOk result (string_bytes out.new ≡ string_bytes out.old ++ (url.now.scheme
        ++ (colon ∷ serial_authority url.now.host url.now.port url.now.path))) }
    ensures err { OnErr result (StartsWith (string_bytes out.new) (string_bytes out.old)) }
{
    out.push_str(url.scheme())?;
    push_authority(out, url.host(), url.port(), url.path())
}

// The path, the query and the fragment.
fn push_from_path(out: &mut String, url: &Record) -> Result<(), AllocError>
    ensures ok { OnOk result (string_bytes out.new ≡ string_bytes out.old ++ (serial_path url.now.path
        ++ (written_after question_mark url.now.query
        ++ written_after number_sign url.now.fragment))) }
    ensures err { OnErr result (StartsWith (string_bytes out.new) (string_bytes out.old)) }
{
    out.push_str(url.path().as_str())?;
    push_after(out, '?', url.query())?;
    push_after(out, '#', url.fragment())
}

// The scheme's `:`, and what is between it and the path.
fn push_authority(
    out: &mut String,
    host: Option<&Host>,
    port: Option<u16>,
    path: &UrlPath,
) -> Result<(), AllocError>
    ensures ok { OnOk result (string_bytes out.new ≡ string_bytes out.old
        ++ (colon ∷ serial_authority (option_copied host.entry) port path.now)) }
    ensures err { OnErr result (StartsWith (string_bytes out.new) (string_bytes out.old)) }
{
    match host {
        Some(host) => {
            out.push_str("://")?;
            push_host_and_port(out, host, port)
        }
        None => {
            out.push(':')?;
            out.push_str(dot_prefix(path))
        }
    }
}

/// `/.` before a path that would begin with `//`, which would be read as an authority.
pub fn dot_prefix(path: &UrlPath) -> &'static str
    ensures { result.now ≡ serial_authority None None path.now }
{
    match path {
        UrlPath::Segments(path) => dot_before(path.iter()),
        UrlPath::Opaque(_) => "",
    }
}

// `/.` before these segments, if they would begin with `//`, which would be read as an authority.
fn dot_before(segments: PathSegments<'_>) -> &'static str
    ensures { result.now ≡ serial_authority None None (Segments segments.entry) }
{
    let mut left = segments;
    match (left.next_text(), left.next_text()) {
        (Some(first), Some(_)) if first.is_empty() => "/.",
        _ => "",
    }
}

// A host, and the port after it.
fn push_host_and_port(out: &mut String, host: &Host, port: Option<u16>) -> Result<(), AllocError>
    ensures ok { OnOk result (string_bytes out.new
        ≡ string_bytes out.old ++ (serial_host host.now ++ serial_port port)) }
    ensures err { OnErr result (StartsWith (string_bytes out.new) (string_bytes out.old)) }
{
    push_host(out, host)?;
    push_port(out, port)
}

// A host as its serializer writes it, appended without a text of its own.
#[tactic(auto, unfolding(crate::specs::Records::Serialize::serial_host))]
fn push_host(out: &mut String, host: &Host) -> Result<(), AllocError>
    ensures ok { OnOk result (string_bytes out.new ≡ string_bytes out.old ++ serial_host host.now) }
    ensures err { OnErr result (StartsWith (string_bytes out.new) (string_bytes out.old)) }
{
    match host {
        Host::Domain(form) => out.push_str(form.as_str()),
        Host::Opaque(text) => out.push_str(text.as_str()),
        Host::V4(value) => push_ipv4(out, *value),
        Host::V6(pieces) => push_ipv6(out, pieces),
        Host::Empty => Ok(()),
    }
}

// An ASCII mark and the text after it, if there is one.
fn push_after(out: &mut String, mark: char, text: Option<&str>) -> Result<(), AllocError>
    requires { mark < 128 }
    ensures ok { OnOk result (string_bytes out.new ≡ string_bytes out.old
        ++ written_after mark (option_copied text.entry)) }
    ensures err { OnErr result (StartsWith (string_bytes out.new) (string_bytes out.old)) }
{
    let Some(text) = text else {
        return Ok(());
    };
    out.push(mark)?;
    out.push_str(text)
}
