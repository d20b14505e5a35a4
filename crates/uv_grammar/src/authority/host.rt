//! The host of a text, checked by its class.
ghost use Rattle.std.specs.Prelude.{◌≡◌, ◌≢◌, ◌↔◌, Bool, IfOk, IsOk, IsTrue, [], codes, false};
ghost use Rattle.std.specs.Str.{bytes_eq, chars};
ghost use Rattle.uv_model.specs.Violations.Violation.{HostContentViolation, HostViolation, LacksFileHost};
ghost use Rattle.uv_model.specs.Violations.OpaqueHostViolation.{OpaqueHostViolation};
ghost use Rattle.uv_model.specs.Valid.{IsOpaqueHostText, without_localhost};
ghost use Rattle.uv_grammar.specs.PartsHost.{FitsPartsHost, as_host};
ghost use Rattle.uv_grammar.specs.HostValues.{FitsHost, FitsSomeHost, MayBeEmptyFile};
ghost use Rattle.uv_grammar.specs.Checked.{IsChecked};
ghost use Rattle.uv_grammar.specs.NoMemory.{HostTakesNoMemory, MakesNoForm};
ghost use Rattle.uv_grammar.specs.Slices.{chars_of_option};

use crate::authority::host_text::check_host_text;
use crate::checked::Checked;
use crate::marks::beginnings::has_slash;
use crate::parts_host::PartsHost;
use std::alloc::{AllocError, Global};
use uv_host::{bracketed_ipv6, opaque_fault};
use uv_model::{Class, Host, Profile, Refusal, Rule};

/// The host, checked by its class, given the port and the path that follow it, with its value if it isn't an opaque
/// host. Nothing of the text follows the host where `last` says so. A refusal's place is counted in code points from
/// the host's start. The error is out of memory. It is inlined, as a host would else be copied once more.
#[inline(always)]
pub(crate) fn check_host<'t>(
    alloc: Global,
    class: Class,
    host_text: &'t str,
    port_text: Option<&str>,
    path_text: &str,
    last: bool,
    profile: Profile,
) -> Result<Checked<Option<PartsHost<'t>>>, AllocError>
    ensures answer { IfOk result (IsChecked
        (FitsPartsHost (FitsHost profile class last (chars host_text.now) (chars_of_option port_text.entry)
        (chars path_text.now)))
        (HostViolation profile class last (chars host_text.now) (chars_of_option port_text.entry)
        (chars path_text.now))) }
    ensures memory { HostTakesNoMemory profile class (chars host_text.now) → IsOk result }
{
    if host_text.is_empty() {
        return Ok(check_empty_host(class, port_text, path_text, profile));
    }
    match class {
        Class::SpecialNotFile => check_special_host(alloc, host_text, last, profile),
        Class::File => check_file_host(alloc, host_text, last, profile),
        Class::Other => Ok(check_opaque_host(host_text)),
    }
}

// An empty host.
#[inline(always)]
fn check_empty_host<'t>(
    class: Class,
    port_text: Option<&str>,
    path_text: &str,
    profile: Profile,
) -> Checked<Option<PartsHost<'t>>>
    ensures { (last : Bool)
        → IsChecked (FitsPartsHost (FitsHost profile class last [] (chars_of_option port_text.entry)
        (chars path_text.now)))
        (HostViolation profile class last [] (chars_of_option port_text.entry) (chars path_text.now)) result }
{
    let is_missing = match class {
        Class::SpecialNotFile => true,
        Class::File => lacks_path(path_text, profile),
        Class::Other => port_text.is_some(),
    };
    if is_missing {
        Checked::Refused(Refusal {
            place: 0,
            rule: Rule::HostMissing,
        })
    } else {
        Checked::Valid(Some(PartsHost::Made(Host::Empty)))
    }
}

// No path follows the empty host of a file URL, where the profile asks for one.
fn lacks_path(path_text: &str, profile: Profile) -> bool
    ensures missing { IsTrue result ↔ LacksFileHost profile [] (chars path_text.now) }
    ensures may { result ≡ false → MayBeEmptyFile profile (chars path_text.now) }
{
    match profile {
        Profile::Standard | Profile::Wide => !has_slash(path_text),
        Profile::Parser => false,
    }
}

// The host of a special URL, which isn't empty.
#[inline(always)]
fn check_special_host<'t>(
    alloc: Global,
    text: &'t str,
    last: bool,
    profile: Profile,
) -> Result<Checked<Option<PartsHost<'t>>>, AllocError>
    requires { chars text.now ≢ [] }
    ensures answer { IfOk result (IsChecked
        (FitsPartsHost (FitsSomeHost profile Class.SpecialNotFile last (chars text.now)))
        (HostContentViolation profile Class.SpecialNotFile last (chars text.now))) }
    ensures memory { MakesNoForm profile (chars text.now) → IsOk result }
{
    match check_host_text(alloc, text, Class::SpecialNotFile, last, profile)? {
        Checked::Valid(host) => Ok(Checked::Valid(Some(host))),
        Checked::Refused(refusal) => Ok(Checked::Refused(refusal)),
    }
}

// The host of a file URL, which isn't empty.
fn check_file_host<'t>(
    alloc: Global,
    text: &'t str,
    last: bool,
    profile: Profile,
) -> Result<Checked<Option<PartsHost<'t>>>, AllocError>
    requires { chars text.now ≢ [] }
    ensures answer { IfOk result (IsChecked (FitsPartsHost (FitsSomeHost profile Class.File last (chars text.now)))
        (HostContentViolation profile Class.File last (chars text.now))) }
    ensures memory { MakesNoForm profile (chars text.now) → IsOk result }
{
    match check_host_text(alloc, text, Class::File, last, profile)? {
        Checked::Valid(host) => Ok(Checked::Valid(Some(without_localhost(host)))),
        Checked::Refused(refusal) => Ok(Checked::Refused(refusal)),
    }
}

// The empty host in place of the domain `localhost`.
fn without_localhost(host: PartsHost<'_>) -> PartsHost<'_>
    ensures { as_host result ≡ without_localhost (as_host host.entry) }
{
    match host {
        PartsHost::Made(host) => PartsHost::Made(made_without_localhost(host)),
        PartsHost::Plain(name) => {
            if is_localhost(name.as_str()) {
                PartsHost::Made(Host::Empty)
            } else {
                PartsHost::Plain(name)
            }
        }
    }
}

// A host with a value of its own, or the empty host in place of the domain `localhost`.
fn made_without_localhost(host: Host) -> Host
    ensures { result ≡ without_localhost host }
{
    match host {
        Host::Domain(form) => {
            if is_localhost(form.as_str()) {
                Host::Empty
            } else {
                Host::Domain(form)
            }
        }
        other => other,
    }
}

fn is_localhost(form: &str) -> bool
    ensures { result ≡ bytes_eq form.now (codes "localhost") }
{
    form == "localhost"
}

// The host of any other URL, which isn't empty.
fn check_opaque_host(text: &str) -> Checked<Option<PartsHost<'_>>>
    requires { chars text.now ≢ [] }
    ensures { IsChecked (FitsPartsHost (IsOpaqueHostText (chars text.now)))
        (OpaqueHostViolation (chars text.now)) result }
{
    if let Some(refusal) = opaque_fault(text) {
        return Checked::Refused(refusal);
    }
    match bracketed_ipv6(text) {
        Some(pieces) => Checked::Valid(Some(PartsHost::Made(Host::V6(pieces)))),
        None => Checked::Valid(None),
    }
}
