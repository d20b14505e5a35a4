//! The command `explain`: for some rules or each, what they require and why, an example, and their sections of the URL
//! Standard; or the addresses of these sections.
ghost use Rattle.std.specs.Prelude.{◌≡◌, ◌+◌, ◌-◌, ◌^◌, ◌<◌, IfOk, OnOk};
ghost use Rattle.uv_cli.specs.Explain.{HasExplained, HasExplainedPrefix};

use crate::fault::CliFault;
use std::alloc::Global;
use uv_arguments::Told;
use uv_io::{DeviceFault, Sink, write_whole};
use uv_messages::explanations::explained;

/// How an explanation ends.
#[derive(Clone, Copy, PartialEq, Eq)]
pub enum ExplainEnd {
    /// What was asked for was written.
    Explained,
    /// The name belongs neither to a rule nor to another violation of a line. Nothing was written.
    Unknown,
}

/// Writes what the rules with these names require and why, an example of each, and where the Standard says so, in the
/// order of the names, with two empty lines between them. Without a name it writes this for every rule, in the order of
/// their numbers. For the name of a violation by which a line isn't checked, it writes what a line has to be. If `told`
/// asks for addresses, it writes for each rule the address of its section of the URL Standard, in a line, or nothing if
/// it has none.
///
/// An error of memory leaves the output as it was; an error of a write leaves a beginning of what was to be written.
pub fn run_explain<S: Sink>(
    alloc: Global,
    rules: &[String],
    told: Told,
    out: &mut S,
) -> Result<ExplainEnd, CliFault>
    requires { S.failed out.old < 2 ^ 64 - 1 }
    ensures written { IfOk result (λ end. HasExplained rules.now told end
        (S.contents out.old) (S.contents out.new)) }
    ensures unknown { result ≡ Ok ExplainEnd.Unknown → out.new ≡ out.old }
    ensures quiet { OnOk result (S.failed out.new ≡ S.failed out.old) }
    ensures memory { result ≡ Err CliFault.Memory → out.new ≡ out.old }
    ensures prefix { result ≡ Err CliFault.Write →
        HasExplainedPrefix rules.now told (S.contents out.old) (S.contents out.new) }
    ensures failed { result ≡ Err CliFault.Write → S.failed out.new ≡ S.failed out.old + 1 }
{
    let Some(text) = explained(alloc, rules, told)? else {
        return Ok(ExplainEnd::Unknown);
    };
    match write_whole(out, text.as_bytes()) {
        Ok(()) => Ok(ExplainEnd::Explained),
        Err(DeviceFault) => Err(CliFault::Write),
    }
}
