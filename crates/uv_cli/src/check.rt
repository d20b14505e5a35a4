//! The check of one text, alone or against a base, with the first of its violations or with all of them.
ghost use Rattle.std.specs.Prelude.{◌≡◌, ◌+◌, ◌-◌, ◌^◌, ◌<◌, Option, IfOk, OnOk, chars, option_copied, string_bytes};
ghost use Rattle.uv_cli.specs.Check.{HasWritten, HasWrittenPrefix, IsFound, IsKeptAgainst, IsKeptAt, RunsAgainst};
ghost use Rattle.uv_cli.specs.Check.{SaysFound, WritesPrefix, WritesWhole, end_of, found_text, kept_of};
ghost use Rattle.uv_grammar.specs.Verdict.{IsRefused};

use crate::fault::CliFault;
use std::alloc::{AllocError, Global};
use uv_grammar::faults;
use uv_io::{DeviceFault, Sink, write_whole};
use uv_messages::report::{check_lines, fault_lines, refused_line};
use uv_model::{Extent, Profile, Record, Refusal};
use uv_resolve::{ResolveFault, resolve, resolve_base};

/// How a check ends.
#[derive(Clone, Copy, PartialEq, Eq)]
pub enum CheckEnd {
    /// The text is valid, and the lines of its record were written.
    Valid,
    /// The text is refused. The line of its refusal was written, or by `run_faults` a line for each of its faults.
    Refused,
    /// The base's text by itself is refused, for this reason. Nothing was written.
    BaseRefused(Refusal),
}

/// What is found of a refused text.
#[derive(Drop)]
pub struct Found {
    /// The first of its violations.
    pub(crate) refusal: Refusal,
    /// Each of its violations, if all were asked for, and otherwise nothing.
    pub(crate) faults: Vec<Refusal>,
}

/// What is kept of a refused text, so that nothing of it is found twice.
#[derive(Drop)]
pub struct RefusedText {
    /// The record of the base against which it is refused.
    pub(crate) base: Option<Record>,
    /// What is found of it.
    pub(crate) found: Found,
}

/// How a check ends, with what is kept of a refused text.
#[derive(Drop)]
pub(crate) enum Checked {
    /// As `CheckEnd::Valid`.
    Valid,
    /// As `CheckEnd::Refused`.
    Refused(RefusedText),
    /// As `CheckEnd::BaseRefused`.
    BaseRefused(Refusal),
}

impl Checked {
    /// How the check ends.
    pub(crate) fn end(&self) -> CheckEnd
        ensures { result ≡ end_of self.now }
    {
        match self {
            Checked::Valid => CheckEnd::Valid,
            Checked::Refused(_) => CheckEnd::Refused,
            Checked::BaseRefused(refusal) => CheckEnd::BaseRefused(*refusal),
        }
    }
}

/// Checks a text by a profile, alone or against a base, and writes the answer: the lines of a valid text's record, or
/// the line of a refused text's first violation.
///
/// The base by itself is resolved under the same profile, before the text is looked at. An error of memory leaves the
/// output as it was; an error of a write leaves a beginning of what was to be written.
pub fn run_check<S: Sink>(
    alloc: Global,
    text: &str,
    base: Option<&str>,
    profile: Profile,
    out: &mut S,
) -> Result<CheckEnd, CliFault>
    requires { S.failed out.old < 2 ^ 64 - 1 }
    ensures written { IfOk result (λ end. HasWritten Extent.First profile base.entry (chars text.now) end
        (S.contents out.old) (S.contents out.new)) }
    ensures base_refused { (refusal : Refusal) → result ≡ Ok (CheckEnd.BaseRefused refusal)
        → out.new ≡ out.old }
    ensures quiet { OnOk result (S.failed out.new ≡ S.failed out.old) }
    ensures memory { result ≡ Err CliFault.Memory → out.new ≡ out.old }
    ensures prefix { result ≡ Err CliFault.Write → HasWrittenPrefix Extent.First profile base.entry (chars text.now)
        (S.contents out.old) (S.contents out.new) }
    ensures failed { result ≡ Err CliFault.Write → S.failed out.new ≡ S.failed out.old + 1 }
    ensures runs { RunsAgainst profile base.entry (chars text.now) }
{
    Ok(check_with_base(alloc, text, base, profile, Extent::First, out)?.end())
}

/// Checks a text as `run_check` does, and for a refused one writes each of its violations on a line of its own, ordered
/// by place and at one place by the rule's number.
pub fn run_faults<S: Sink>(
    alloc: Global,
    text: &str,
    base: Option<&str>,
    profile: Profile,
    out: &mut S,
) -> Result<CheckEnd, CliFault>
    requires { S.failed out.old < 2 ^ 64 - 1 }
    ensures written { IfOk result (λ end. HasWritten Extent.All profile base.entry (chars text.now) end
        (S.contents out.old) (S.contents out.new)) }
    ensures base_refused { (refusal : Refusal) → result ≡ Ok (CheckEnd.BaseRefused refusal)
        → out.new ≡ out.old }
    ensures quiet { OnOk result (S.failed out.new ≡ S.failed out.old) }
    ensures memory { result ≡ Err CliFault.Memory → out.new ≡ out.old }
    ensures prefix { result ≡ Err CliFault.Write → HasWrittenPrefix Extent.All profile base.entry (chars text.now)
        (S.contents out.old) (S.contents out.new) }
    ensures failed { result ≡ Err CliFault.Write → S.failed out.new ≡ S.failed out.old + 1 }
    ensures runs { RunsAgainst profile base.entry (chars text.now) }
{
    Ok(check_with_base(alloc, text, base, profile, Extent::All, out)?.end())
}

/// Checks a text against a base's text, and writes the answer, as `run_check` and `run_faults` do.
pub(crate) fn check_with_base<S: Sink>(
    alloc: Global,
    text: &str,
    base: Option<&str>,
    profile: Profile,
    extent: Extent,
    out: &mut S,
) -> Result<Checked, CliFault>
    requires { S.failed out.old < 2 ^ 64 - 1 }
    ensures written { IfOk result (λ checked. HasWritten extent profile base.entry (chars text.now) (end_of checked)
        (S.contents out.old) (S.contents out.new)) }
    ensures kept { IfOk result (λ checked. IsKeptAt extent profile base.entry (chars text.now) (kept_of checked)) }
    ensures base_refused { (refusal : Refusal) → result ≡ Ok (Checked.BaseRefused refusal)
        → out.new ≡ out.old }
    ensures quiet { OnOk result (S.failed out.new ≡ S.failed out.old) }
    ensures memory { result ≡ Err CliFault.Memory → out.new ≡ out.old }
    ensures prefix { result ≡ Err CliFault.Write → HasWrittenPrefix extent profile base.entry (chars text.now)
        (S.contents out.old) (S.contents out.new) }
    ensures failed { result ≡ Err CliFault.Write → S.failed out.new ≡ S.failed out.old + 1 }
    ensures runs { RunsAgainst profile base.entry (chars text.now) }
{
    parser_runs_against(text, base, profile);
    match resolve_base(alloc, base, profile) {
        Ok(base) => check_against(alloc, text, base, profile, extent, out),
        Err(ResolveFault::Refused(refusal)) => Ok(Checked::BaseRefused(refusal)),
        Err(ResolveFault::Memory(_)) => Err(CliFault::Memory),
    }
}

// The parser runs to the record of a valid text, alone or against the URL of its base's text.
fn parser_runs_against(text: &str, base: Option<&str>, profile: Profile)
    ensures { RunsAgainst profile base.entry (chars text.now) }
{}

// Checks a text against a record as base, and writes the answer.
fn check_against<S: Sink>(
    alloc: Global,
    text: &str,
    base: Option<Record>,
    profile: Profile,
    extent: Extent,
    out: &mut S,
) -> Result<Checked, CliFault>
    requires { S.failed out.old < 2 ^ 64 - 1 }
    ensures written { IfOk result (λ checked. WritesWhole extent profile base (chars text.now) (end_of checked)
        (S.contents out.old) (S.contents out.new)) }
    ensures kept { IfOk result (λ checked. IsKeptAgainst extent profile base (chars text.now) (kept_of checked)) }
    ensures quiet { OnOk result (S.failed out.new ≡ S.failed out.old) }
    ensures memory { result ≡ Err CliFault.Memory → out.new ≡ out.old }
    ensures prefix { result ≡ Err CliFault.Write → WritesPrefix extent profile base
        (chars text.now) (S.contents out.old) (S.contents out.new) }
    ensures failed { result ≡ Err CliFault.Write → S.failed out.new ≡ S.failed out.old + 1 }
{
    let (found, whole) = say(alloc, text, base.as_ref(), profile, extent)?;
    if let Err(DeviceFault) = write_whole(out, whole.as_bytes()) {
        return Err(CliFault::Write);
    }
    match found {
        None => Ok(Checked::Valid),
        Some(found) => Ok(Checked::Refused(RefusedText { base, found })),
    }
}

// What is found of a text against a record as base, if it is refused, and what a check says about it.
fn say(
    alloc: Global,
    text: &str,
    base: Option<&Record>,
    profile: Profile,
    extent: Extent,
) -> Result<(Option<Found>, String), AllocError>
    ensures { IfOk result (λ r.
        SaysFound extent profile (option_copied base.entry) (chars text.now) r.0 (string_bytes r.1)) }
{
    match resolve(alloc, text, base, profile) {
        Ok(url) => Ok((None, check_lines(alloc, &url)?)),
        Err(ResolveFault::Refused(refusal)) => {
            let found = found_by(alloc, text, base, profile, extent, refusal)?;
            let lines = refused_lines(alloc, extent, &found)?;
            Ok((Some(found), lines))
        }
        Err(ResolveFault::Memory(error)) => Err(error),
    }
}

// What is found of a text with this refusal: each of its violations, if all are asked for.
fn found_by(
    alloc: Global,
    text: &str,
    base: Option<&Record>,
    profile: Profile,
    extent: Extent,
    refusal: Refusal,
) -> Result<Found, AllocError>
    requires { IsRefused profile (option_copied base) (chars text.now) refusal }
    ensures { IfOk result (IsFound extent profile (option_copied base.entry) (chars text.now)) }
{
    let faults = match extent {
        Extent::First => Vec::new(alloc),
        Extent::All => faults(alloc, text, base, profile)?,
    };
    Ok(Found { refusal, faults })
}

// The lines on a refused text: one for the refusal, or one for each of its faults.
fn refused_lines(alloc: Global, extent: Extent, found: &Found) -> Result<String, AllocError>
    ensures { IfOk result (λ lines. string_bytes lines ≡ found_text extent found.now) }
{
    match extent {
        Extent::First => refused_line(alloc, found.refusal),
        Extent::All => fault_lines(alloc, found.faults.as_slice()),
    }
}
