//! The command `mend`: what to write in place of one text, alone or against a base.
ghost use Rattle.std.specs.Prelude.{◌≡◌, ◌+◌, ◌-◌, ◌^◌, ◌<◌, ◌++◌, IfOk, OnOk, codes, option_copied, string_bytes};
ghost use Rattle.uv_model.specs.MendKindName.{kind_name};
ghost use Rattle.uv_cli.specs.Mend as spec;
ghost use Rattle.uv_cli.specs.Mend.{HasWrittenMending, HasWrittenMendingPrefix, SaysMending, WritesMending};
ghost use Rattle.uv_cli.specs.Mend.{WritesMendingPrefix, mending_text};

use crate::check::CheckEnd;
use crate::fault::CliFault;
use std::alloc::{AllocError, Global};
use uv_io::{DeviceFault, Sink, write_whole};
use uv_mend::{MendKind, Mending, mend};
use uv_messages::report::refused_line;
use uv_model::{Profile, Record, Refusal};
use uv_resolve::{ResolveFault, resolve_base};

/// Says what to write in place of a text by a profile, alone or against a base, and writes that: `mended KIND` and the
/// mended text, `valid`, or `none` and the line of the refusal. It ends with `Valid` if a valid text was found.
///
/// The base by itself is resolved under the same profile, before the text is looked at. An error of memory leaves the
/// output as it was; an error of a write leaves a beginning of what was to be written.
pub fn run_mend<S: Sink>(
    alloc: Global,
    text: &str,
    base: Option<&str>,
    profile: Profile,
    out: &mut S,
) -> Result<CheckEnd, CliFault>
    requires { S.failed out.old < 2 ^ 64 - 1 }
    ensures written { IfOk result (λ end. HasWrittenMending profile base.entry text.now end
        (S.contents out.old) (S.contents out.new)) }
    ensures base_refused { (refusal : Refusal) → result ≡ Ok (CheckEnd.BaseRefused refusal)
        → out.new ≡ out.old }
    ensures quiet { OnOk result (S.failed out.new ≡ S.failed out.old) }
    ensures memory { result ≡ Err CliFault.Memory → out.new ≡ out.old }
    ensures prefix { result ≡ Err CliFault.Write → HasWrittenMendingPrefix profile base.entry text.now
        (S.contents out.old) (S.contents out.new) }
    ensures failed { result ≡ Err CliFault.Write → S.failed out.new ≡ S.failed out.old + 1 }
{
    match resolve_base(alloc, base, profile) {
        Ok(base) => mend_against(alloc, text, base.as_ref(), profile, out),
        Err(ResolveFault::Refused(refusal)) => Ok(CheckEnd::BaseRefused(refusal)),
        Err(ResolveFault::Memory(_)) => Err(CliFault::Memory),
    }
}

// Says what to write in place of a text against a record as base, and writes that.
fn mend_against<S: Sink>(
    alloc: Global,
    text: &str,
    base: Option<&Record>,
    profile: Profile,
    out: &mut S,
) -> Result<CheckEnd, CliFault>
    requires { S.failed out.old < 2 ^ 64 - 1 }
    ensures written { IfOk result (λ end. WritesMending profile (option_copied base.entry) text.now end
        (S.contents out.old) (S.contents out.new)) }
    ensures quiet { OnOk result (S.failed out.new ≡ S.failed out.old) }
    ensures memory { result ≡ Err CliFault.Memory → out.new ≡ out.old }
    ensures prefix { result ≡ Err CliFault.Write → WritesMendingPrefix profile (option_copied base.entry) text.now
        (S.contents out.old) (S.contents out.new) }
    ensures failed { result ≡ Err CliFault.Write → S.failed out.new ≡ S.failed out.old + 1 }
{
    let (end, whole) = say_mending(alloc, text, base, profile)?;
    match write_whole(out, whole.as_bytes()) {
        Ok(()) => Ok(end),
        Err(DeviceFault) => Err(CliFault::Write),
    }
}

// Prints the answer of `mend` about a text against a base record, and returns how the run ends.
fn say_mending(
    alloc: Global,
    text: &str,
    base: Option<&Record>,
    profile: Profile,
) -> Result<(CheckEnd, String), AllocError>
    ensures { IfOk result (λ r.
        SaysMending profile (option_copied base.entry) text.now r.0 (string_bytes r.1)) }
{
    let answer = mend(alloc, text, base, profile)?;
    let whole = mending_lines(alloc, &answer)?;
    Ok((end_of_mending(&answer), whole))
}

// How an answer ends.
fn end_of_mending(answer: &Mending) -> CheckEnd
    ensures { result ≡ spec.end_of_mending answer.now }
{
    match answer {
        Mending::Valid | Mending::Mended { .. } => CheckEnd::Valid,
        Mending::Refused(_) => CheckEnd::Refused,
    }
}

// The lines of an answer.
#[tactic(auto, unfolding(crate::specs::Mend::mending_text))]
fn mending_lines(alloc: Global, answer: &Mending) -> Result<String, AllocError>
    ensures { IfOk result (λ lines. string_bytes lines ≡ mending_text answer.now) }
{
    match answer {
        Mending::Valid => String::from_str(alloc, "valid\n"),
        Mending::Mended { text, kind } => mended_lines(alloc, text.as_str(), *kind),
        Mending::Refused(refusal) => {
            let mut lines = String::from_str(alloc, "none\n")?;
            lines.push_str(refused_line(alloc, *refusal)?.as_str())?;
            Ok(lines)
        }
    }
}

// The lines of a mended text.
fn mended_lines(alloc: Global, text: &str, kind: MendKind) -> Result<String, AllocError>
    ensures { IfOk result (λ lines. string_bytes lines
        ≡ codes "mended " ++ (kind_name kind ++ (codes "\n" ++ (text.now ++ codes "\n")))) }
{
    let mut lines = String::from_str(alloc, "mended ")?;
    lines.push_str(kind.name())?;
    lines.push_str("\n")?;
    lines.push_str(text)?;
    lines.push_str("\n")?;
    Ok(lines)
}
