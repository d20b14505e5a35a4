//! The command `mend` without a text: a filter of the lines of an input.
ghost use Rattle.std.specs.Prelude.{◌≡◌, ◌-◌, ◌^◌, ◌<◌, option_copied};
ghost use Rattle.uv_cli.specs.Filter.{HasFiltered, IsFiltered, file_kinds, kinds_of};
ghost use Rattle.uv_cli.specs.Filter as spec;
ghost use Rattle.uv_cli.specs.Stream.{stream};

use crate::ends::End;
use crate::fault::CliFault;
use crate::filtered::Filtered;
use std::alloc::Global;
use uv_arguments::FilterJob;
use uv_filter::{FilterSetting, WrittenKinds, run_filter};
use uv_io::{Sink, Source};
use uv_mend::MendKind;
use uv_model::Record;
use uv_resolve::{ResolveFault, resolve_base};

/// Writes each line of an input, mended if there is a mended text of the kind with the name, or of any kind if none is
/// named, and otherwise as it was. The lines are read alone or against the base, which is resolved by itself, before
/// anything is read. The base and the name are the texts that the job has.
pub(crate) fn filter_lines<I: Source, S: Sink>(
    alloc: Global,
    job: &FilterJob,
    base: Option<&str>,
    name: Option<&str>,
    input: &mut I,
    out: &mut S,
) -> End
    requires reads { I.failed input.old < 2 ^ 64 - 1 }
    requires writes { S.failed out.old < 2 ^ 64 - 1 }
    ensures { HasFiltered job.now base.entry name.entry result
        (stream (I.remaining input.old) (I.failed input.old)) (stream (I.remaining input.new) (I.failed input.new))
        (stream (S.contents out.old) (S.failed out.old)) (stream (S.contents out.new) (S.failed out.new)) }
{
    let Some(kinds) = kinds_of(name, WrittenKinds::Every) else {
        return End::UnknownKind;
    };
    match resolve_base(alloc, base, job.profile) {
        Ok(base) => End::Filtered(filter_against(alloc, job, base.as_ref(), kinds, input, out)),
        Err(ResolveFault::Refused(refusal)) => End::BaseRefused(refusal),
        Err(ResolveFault::Memory(_)) => End::Fault(CliFault::Memory),
    }
}

/// The kind with a name, or these kinds if none is named.
pub(crate) fn kinds_of(name: Option<&str>, unnamed: WrittenKinds) -> Option<WrittenKinds>
    ensures { result ≡ kinds_of unnamed name.entry }
{
    match name {
        None => Some(unnamed),
        Some(name) => match MendKind::of_name(name) {
            Some(kind) => Some(WrittenKinds::Only(kind)),
            None => None,
        },
    }
}

/// The kinds that are written to files if none is named: only those that leave what a line says as it was, unless all
/// mended texts are asked for.
pub(crate) fn file_kinds(all: bool) -> WrittenKinds
    ensures { result ≡ file_kinds all }
{
    if all {
        WrittenKinds::Every
    } else {
        WrittenKinds::Safe
    }
}

// Writes each line of an input against a record as base.
fn filter_against<I: Source, S: Sink>(
    alloc: Global,
    job: &FilterJob,
    base: Option<&Record>,
    kinds: WrittenKinds,
    input: &mut I,
    out: &mut S,
) -> Filtered
    requires reads { I.failed input.old < 2 ^ 64 - 1 }
    requires writes { S.failed out.old < 2 ^ 64 - 1 }
    ensures { IsFiltered (spec.mender_of job.now (option_copied base.entry) kinds) job.now.quiet result
        (stream (I.remaining input.old) (I.failed input.old)) (stream (I.remaining input.new) (I.failed input.new))
        (stream (S.contents out.old) (S.failed out.old)) (stream (S.contents out.new) (S.failed out.new)) }
{
    let setting = FilterSetting {
        base,
        profile: job.profile,
        kinds,
        all: job.all,
    };
    let (counts, answer) = run_filter(alloc, input, out, setting);
    Filtered::new(counts, answer, job.quiet)
}
