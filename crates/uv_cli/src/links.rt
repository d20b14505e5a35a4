//! The command `links`: a report on the lines of an input.
ghost use Rattle.std.specs.Prelude.{◌-◌, ◌^◌, ◌<◌, option_copied};
ghost use Rattle.uv_cli.specs.Jobs.{HasListed, HasListedAgainst};
ghost use Rattle.uv_cli.specs.Stream.{stream};

use crate::ends::{End, end_of_list};
use crate::fault::CliFault;
use std::alloc::Global;
use uv_io::{Sink, Source};
use uv_links::{LinkLimits, run_links};
use uv_model::{Profile, Record};
use uv_resolve::{ResolveFault, resolve_base};

/// Reports on the lines of an input with the largest limits, alone or against a base, which is resolved by itself,
/// before anything is read.
pub(crate) fn list_links<I: Source, S: Sink>(
    alloc: Global,
    base: Option<&str>,
    profile: Profile,
    input: &mut I,
    out: &mut S,
) -> End
    requires reads { I.failed input.old < 2 ^ 64 - 1 }
    requires writes { S.failed out.old < 2 ^ 64 - 1 }
    ensures { HasListed profile base.entry result
        (stream (I.remaining input.old) (I.failed input.old)) (stream (I.remaining input.new) (I.failed input.new))
        (stream (S.contents out.old) (S.failed out.old)) (stream (S.contents out.new) (S.failed out.new)) }
{
    match resolve_base(alloc, base, profile) {
        Ok(base) => list_against(alloc, base.as_ref(), profile, input, out),
        Err(ResolveFault::Refused(refusal)) => End::BaseRefused(refusal),
        Err(ResolveFault::Memory(_)) => End::Fault(CliFault::Memory),
    }
}

// Reports on the lines of an input against a record as base.
fn list_against<I: Source, S: Sink>(
    alloc: Global,
    base: Option<&Record>,
    profile: Profile,
    input: &mut I,
    out: &mut S,
) -> End
    requires reads { I.failed input.old < 2 ^ 64 - 1 }
    requires writes { S.failed out.old < 2 ^ 64 - 1 }
    ensures { HasListedAgainst profile (option_copied base.entry) result
        (stream (I.remaining input.old) (I.failed input.old)) (stream (I.remaining input.new) (I.failed input.new))
        (stream (S.contents out.old) (S.failed out.old)) (stream (S.contents out.new) (S.failed out.new)) }
{
    end_of_list(run_links(alloc, input, out, base, LinkLimits::standard(), profile))
}
