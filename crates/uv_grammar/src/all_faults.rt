//! All the faults of a text at once, by the checks of its parts.
ghost use Rattle.std.specs.Prelude.{◌≡◌, ◌++◌, IfOk, OnOk, Some, option_copied};
ghost use Rattle.std.specs.Str.{chars};
ghost use Rattle.uv_model.specs.Violations.AllViolations.{AreFaults};
ghost use Rattle.uv_model.specs.Violations.Violation.{CheckedViolation, ContentViolation, HostPartViolation};
ghost use Rattle.uv_model.specs.Violations.Violation.{PortPartViolation};
ghost use Rattle.uv_model.specs.Records.Url.{Url};
ghost use Rattle.uv_grammar.specs.Bases.{IsOfKind, as_base};
ghost use Rattle.uv_grammar.specs.Faults.{AddsViolations, FirstViolation, fault_list};
ghost use Rattle.uv_grammar.specs.HostValues.{is_scanned};
ghost use Rattle.uv_grammar.specs.PartViolations.{IsCountable, OfFragment, OfPath, OfQuery};

use crate::authority::{check_host_part, check_port_part};
use crate::bases::{Base, BaseKind};
use crate::cut::{Cut, cut_text};
use crate::marks::beginnings::{are_digits, has_bracket};
use crate::places::{fragment_place, host_place, path_place, port_place, query_place};
use crate::scan::{Scan, path_scan, push_scan};
use crate::setting::Setting;
use crate::start_rules::{path_start_fault, start_fault};
use std::alloc::{AllocError, Global};
use uv_model::{Class, Profile, Record, Refusal};

/// All that is wrong with a text under the profile, alone or against a base: each rule at each place where it is
/// violated, once, by place and at one place by the rule's number (URL Standard, section 4.3). The first is the refusal
/// of `check`, and there is none exactly when `check` says yes. If the start of the text violates a rule, as a special
/// scheme without `//`, no host, no port and no start of a path is checked. The error is out of memory.
pub fn faults(
    alloc: Global,
    text: &str,
    base: Option<&Record>,
    profile: Profile,
) -> Result<Vec<Refusal>, AllocError>
    ensures { IfOk result (λ found. AreFaults profile (option_copied base.entry) (chars text.now) found.items) }
{
    faults_against(alloc, text, Base::whole(base), profile)
}

/// All that is wrong with a text under the profile against a base of this kind, whichever it is, in the order that
/// `faults` has. The error is out of memory.
pub fn faults_of_kind(
    alloc: Global,
    text: &str,
    base: BaseKind,
    profile: Profile,
) -> Result<Vec<Refusal>, AllocError>
    ensures { (url : Url) → IsOfKind url base
        → IfOk result (λ found. AreFaults profile (Some url) (chars text.now) found.items) }
{
    faults_against(alloc, text, Some(Base::Kind(base)), profile)
}

// All that is wrong with a text.
fn faults_against(
    alloc: Global,
    text: &str,
    base: Option<Base<'_>>,
    profile: Profile,
) -> Result<Vec<Refusal>, AllocError>
    ensures { IfOk result (λ found. AreFaults profile (as_base base.entry) (chars text.now) found.items) }
{
    let (cut, setting) = cut_text(text, base, profile);
    let mut found = Vec::new(alloc);
    push_first_faults(alloc, &mut found, text, &cut, &setting)?;
    push_held_faults(&mut found, &cut, &setting)?;
    Ok(found)
}

// The fault of the start, or otherwise the faults of the host, the port and the path's start.
fn push_first_faults(
    alloc: Global,
    found: &mut Vec<Refusal>,
    text: &str,
    cut: &Cut,
    setting: &Setting,
) -> Result<(), AllocError>
    requires { IsCountable cut.now }
    ensures { OnOk result (AddsViolations (FirstViolation setting.now (chars text.now) cut.now)
        found.old.items found.new.items) }
{
    match start_fault(text, cut, setting) {
        Some(refusal) => push_fault(found, Some(refusal)),
        None => push_checked_faults(alloc, found, cut, setting),
    }
}

// The faults of the host, the port and the path's start.
fn push_checked_faults(
    alloc: Global,
    found: &mut Vec<Refusal>,
    cut: &Cut,
    setting: &Setting,
) -> Result<(), AllocError>
    requires { IsCountable cut.now }
    ensures { OnOk result
        (AddsViolations (CheckedViolation setting.now cut.now) found.old.items found.new.items) }
{
    push_host_faults(alloc, found, cut, setting)?;
    push_port_faults(found, cut, setting)?;
    push_fault(found, path_start_fault(cut, setting))
}

// The faults of the host: one for each wrong code point of an opaque host without brackets, and otherwise one at most.
fn push_host_faults(
    alloc: Global,
    found: &mut Vec<Refusal>,
    cut: &Cut,
    setting: &Setting,
) -> Result<(), AllocError>
    requires { IsCountable cut.now }
    ensures { OnOk result
        (AddsViolations (HostPartViolation setting.now cut.now) found.old.items found.new.items) }
{
    let Some(host_text) = cut.host_text else {
        return Ok(());
    };
    if is_scanned(setting.class, host_text) {
        return push_scan(found, Scan::OpaqueHost, host_place(cut), host_text);
    }
    push_fault(found, check_host_part(alloc, cut, setting)?.into_refusal())
}

// Whether the host is an opaque one, neither empty nor in brackets.
fn is_scanned(class: Class, host_text: &str) -> bool
    ensures { result ≡ is_scanned class (chars host_text.now) }
{
    match class {
        Class::Other => !host_text.is_empty() && !has_bracket(host_text),
        Class::SpecialNotFile | Class::File => false,
    }
}

// The faults of the port: each code point that isn't a digit, or its number.
fn push_port_faults(
    found: &mut Vec<Refusal>,
    cut: &Cut,
    setting: &Setting,
) -> Result<(), AllocError>
    requires { IsCountable cut.now }
    ensures { OnOk result (AddsViolations (PortPartViolation cut.now) found.old.items found.new.items) }
{
    let Some(host_text) = cut.host_text else {
        return Ok(());
    };
    let Some(port_text) = cut.port_text else {
        return Ok(());
    };
    if !are_digits(port_text) {
        return push_scan(found, Scan::Digits, port_place(cut, host_text), port_text);
    }
    push_fault(found, check_port_part(cut, setting).into_refusal())
}

// The faults of what the path, the query and the fragment hold.
fn push_held_faults(
    found: &mut Vec<Refusal>,
    cut: &Cut,
    setting: &Setting,
) -> Result<(), AllocError>
    requires { IsCountable cut.now }
    ensures { OnOk result (AddsViolations (ContentViolation setting.now cut.now) found.old.items found.new.items) }
{
    push_path_faults(found, cut, setting)?;
    push_query_faults(found, cut)?;
    push_fragment_faults(found, cut)
}

// The faults of what the path holds.
fn push_path_faults(
    found: &mut Vec<Refusal>,
    cut: &Cut,
    setting: &Setting,
) -> Result<(), AllocError>
    requires { IsCountable cut.now }
    ensures { OnOk result (AddsViolations (OfPath setting.now cut.now) found.old.items found.new.items) }
{
    push_scan(
        found,
        path_scan(cut, setting),
        path_place(cut),
        cut.path_text,
    )
}

// The faults of the query.
fn push_query_faults(found: &mut Vec<Refusal>, cut: &Cut) -> Result<(), AllocError>
    requires { IsCountable cut.now }
    ensures { OnOk result (AddsViolations (OfQuery cut.now) found.old.items found.new.items) }
{
    match cut.query {
        Some(query) => push_scan(found, Scan::Units, query_place(cut), query),
        None => Ok(()),
    }
}

// The faults of the fragment.
fn push_fragment_faults(found: &mut Vec<Refusal>, cut: &Cut) -> Result<(), AllocError>
    requires { IsCountable cut.now }
    ensures { OnOk result (AddsViolations (OfFragment cut.now) found.old.items found.new.items) }
{
    match cut.fragment {
        Some(fragment) => push_scan(found, Scan::Units, fragment_place(cut), fragment),
        None => Ok(()),
    }
}

// A fault is pushed, where there is one.
fn push_fault(found: &mut Vec<Refusal>, fault: Option<Refusal>) -> Result<(), AllocError>
    ensures { OnOk result (found.new.items ≡ found.old.items ++ fault_list fault) }
{
    match fault {
        Some(refusal) => {
            found.push(refusal)?;
            Ok(())
        }
        None => Ok(()),
    }
}
