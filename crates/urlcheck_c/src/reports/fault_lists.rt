//! All that is wrong with a text, in the caller's buffer.
ghost use Rattle.std.specs.Prelude.{◌≡◌, IfOk, List, Option};
ghost use Rattle.std.specs.Str.{chars};
ghost use Rattle.uv_model.specs.declared.profile.Profile.{Profile};
ghost use Rattle.uv_model.specs.Records.Url.{Url};
ghost use Rattle.uv_model.specs.Violations.AllViolations.{AreFaults};
ghost use Rattle.urlcheck_c.specs.declared.reports.fault_lists.Fault.{Fault};
ghost use Rattle.urlcheck_c.specs.Base.{IsOfKindGiven};
ghost use Rattle.urlcheck_c.specs.Faults.{IsFaultsChecked, IsFaultsTo, first_finding, no_faults};
ghost use Rattle.urlcheck_c.specs.Request.{given};

use crate::bases::{Base, CheckRequest, asked, given_base};
use crate::buffers::store;
use crate::checks::verdict_on;
use crate::finding::{CallOutcome, Finding};
use std::alloc::{AllocError, Global};
use uv_grammar::{Verdict, faults, faults_of_kind};
use uv_model::Refusal;

/// A rule that a text violates at a place.
#[repr(C)]
#[derive(Clone, Copy)]
pub struct Fault {
    /// The number of the rule, from 1 to 14.
    pub rule: u32,
    /// The place in code points from 0.
    pub place: usize,
    /// The place in bytes from 0.
    pub byte_place: usize,
}

/// What a text is, and how many faults it has.
#[repr(C)]
#[derive(Clone, Copy)]
pub struct FaultCount {
    /// The verdict that the check gives: for a refused text, by its first fault.
    pub found: Finding,
    /// How many faults the text has, which may be more than were written.
    pub count: usize,
}

/// Writes the faults of the bytes, alone or against a base as `urlcheck_check` has it, to the start of `out`, ordered
/// by place and at one place by the rule's number, as many as it holds, and gives their count. The rest of `out` stays
/// as it is.
#[unsafe(no_mangle)]
pub extern "C" fn urlcheck_faults(
    alloc: Global,
    text: &[u8],
    profile: u32,
    base: &Base,
    has_base: bool,
    out: &mut [Fault],
) -> FaultCount
    ensures { IsFaultsTo profile (given has_base base.now) text.now out.old out.new result }
{
    match asked(text, profile, given_base(base, has_base)) {
        Ok(request) => listed_of(alloc, &request, out),
        Err(found) => FaultCount::none(found),
    }
}

// The faults of a text that is checked, written into the caller's buffer.
fn listed_of(alloc: Global, request: &CheckRequest<'_>, out: &mut [Fault]) -> FaultCount
    ensures { (url : Option Url) → IsOfKindGiven url request.now.kind
        → IsFaultsChecked request.now.profile url request.now.text.now out.old out.new result }
{
    match faults_on(alloc, request) {
        Ok(found) => listed(request.text, found.as_slice(), out),
        Err(AllocError) => unlisted(alloc, request),
    }
}

// The answer on a text for whose faults memory ran out: one that is valid without memory has none all the same.
fn unlisted(alloc: Global, request: &CheckRequest<'_>) -> FaultCount
    ensures { (url : Option Url) (out : List Fault) → IsOfKindGiven url request.now.kind
        → IsFaultsChecked request.now.profile url request.now.text.now out out result }
{
    match verdict_on(alloc, request) {
        Ok(Verdict::Yes(_)) => FaultCount::none(Finding::plain(CallOutcome::Valid)),
        Ok(Verdict::No(_)) => FaultCount::none(Finding::plain(CallOutcome::Memory)),
        Err(AllocError) => FaultCount::none(Finding::plain(CallOutcome::Memory)),
    }
}

// The faults of a text that is checked.
fn faults_on(alloc: Global, request: &CheckRequest<'_>) -> Result<Vec<Refusal>, AllocError>
    ensures { (url : Option Url) → IsOfKindGiven url request.now.kind
        → IfOk result (λ found. AreFaults request.now.profile url (chars request.now.text.now) found.items) }
{
    match request.kind {
        Some(kind) => faults_of_kind(alloc, request.text, kind, request.profile),
        None => faults(alloc, request.text, None, request.profile),
    }
}

// The answer by the faults of a text, of which as many are written as the buffer holds.
fn listed(text: &str, found: &[Refusal], out: &mut [Fault]) -> FaultCount
    ensures { (profile : Profile) (base : Option Url) → AreFaults profile base (chars text.now) found.now
        → IsFaultsChecked profile base text.now out.old out.new result }
{
    store(text, found, out);
    FaultCount {
        found: first_found(text, found),
        count: found.len(),
    }
}

impl FaultCount {
    // The answer without faults, since this was found.
    fn none(found: Finding) -> FaultCount
        ensures { result ≡ no_faults found }
    {
        FaultCount { found, count: 0 }
    }
}

// The verdict by the first of the faults.
fn first_found(text: &str, found: &[Refusal]) -> Finding
    ensures { result ≡ first_finding text.now found.now }
{
    match found.first() {
        Some(refusal) => Finding::refused(CallOutcome::Refused, text, *refusal),
        None => Finding::plain(CallOutcome::Valid),
    }
}
