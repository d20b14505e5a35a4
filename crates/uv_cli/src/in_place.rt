//! The command `mend --in-place`: the lines of files, each mended in its place.
ghost use Rattle.std.specs.Prelude.{ℕ, List, Option, IfErr, IfOk, is_some, map, string_bytes};
ghost use Rattle.uv_cli.specs.InPlace.{HasMendedFiles, HasStoppedWithin, HasWrittenMended, IsLeftBy, MendsAll};
ghost use Rattle.uv_cli.specs.InPlace.{MendsFile, MendsLines, MendsNext, no_file};
ghost use Rattle.uv_filter.specs.Fates.{mender_of};

use crate::ends::End;
use crate::fault::CliFault;
use crate::filter::{file_kinds, kinds_of};
use crate::filtered::Filtered;
use crate::store::{Left, Opened, Place, Store};
use crate::watched_streams::{WatchedReader, WatchedWriter};
use std::alloc::Global;
use std::io::{ErrorKind, Read, Write};
use uv_arguments::FilterJob;
use uv_filter::{FilterCounts, FilterSetting, run_filter};
use uv_io::{FromReader, ToWriter};
use uv_lines::StopFault;
use uv_messages::messages::say;
use uv_messages::unread::{unmended, unread};
use uv_resolve::{ResolveFault, resolve_base};

/// Mends the lines of files as a job asks, each in its place: alone or against the base, which is resolved by itself,
/// before a file is opened. The base and the name of the kind are the texts that the job has.
///
/// A file's new lines are written to a new file next to it, which has its permissions before the first byte and, once
/// it is whole, gets its name. Unless all mended texts are asked for, or a kind is named, the ones that are `changed`
/// aren't written. A file in which no line is mended stays untouched. So does one that can't be read or written: that
/// is reported on standard error, and the next file is mended. A link is followed, and stays one.
pub(crate) fn mend_files<R: Eprint + AllocGlobal, S: Store>(
    rt: &R,
    store: &S,
    files: &[String],
    job: &FilterJob,
    base: Option<&str>,
    name: Option<&str>,
) -> End
    ensures { HasMendedFiles (S.opens store.now) (S.replaces store.now) (S.leaves store.now) files.now job.now
        base.entry name.entry result }
{
    let Some(kinds) = kinds_of(name, file_kinds(job.all)) else {
        return End::UnknownKind;
    };
    match resolve_base(rt.alloc(), base, job.profile) {
        Ok(base) => {
            let setting = FilterSetting {
                base: base.as_ref(),
                profile: job.profile,
                kinds,
                all: job.all,
            };
            End::Filtered(mend_each(rt, store, files, setting, job.quiet))
        }
        Err(ResolveFault::Refused(refusal)) => End::BaseRefused(refusal),
        Err(ResolveFault::Memory(_)) => End::Fault(CliFault::Memory),
    }
}

// Mends the lines of the files, one after another.
fn mend_each<R: Eprint + AllocGlobal, S: Store>(
    rt: &R,
    store: &S,
    files: &[String],
    setting: FilterSetting<'_>,
    is_quiet: bool,
) -> Filtered
    ensures { MendsAll (MendsFile (S.opens store.now) (S.replaces store.now) (S.leaves store.now)
        (mender_of setting.entry)) (map string_bytes files.now) (no_file is_quiet) result }
{
    let mut filtered = Filtered::new(FilterCounts::none(), Ok(()), is_quiet);
    for file in files {
        filtered = mend_next(rt, store, file.as_str(), setting, filtered);
    }
    filtered
}

// Mends the lines of the next file, unless something has stopped the filter, and says why the file stays as it was, if
// something failed.
fn mend_next<R: Eprint + AllocGlobal, S: Store>(
    rt: &R,
    store: &S,
    file: &str,
    setting: FilterSetting<'_>,
    filtered: Filtered,
) -> Filtered
    ensures { MendsNext (is_some filtered.stopped) (MendsFile (S.opens store.now) (S.replaces store.now)
        (S.leaves store.now) (mender_of setting.entry) file.now) filtered result }
{
    if filtered.stopped.is_some() {
        return filtered;
    }
    match mend_file(rt.alloc(), store, file, setting) {
        Ok(counts) => filtered.with_counts(counts),
        Err(Left::Memory) => filtered.with_fault(StopFault::Memory),
        Err(Left::Unnamed) => filtered.with_file_left(),
        Err(Left::Unread(why)) => {
            say(rt, unread(rt.alloc(), file, why));
            filtered.with_file_left()
        }
        Err(Left::Unwritten(why)) => {
            say(rt, unmended(rt.alloc(), file, why));
            filtered.with_file_left()
        }
    }
}

// Mends the lines of a file: they are written to a new one, which takes its place.
fn mend_file<S: Store>(
    alloc: Global,
    store: &S,
    file: &str,
    setting: FilterSetting<'_>,
) -> Result<FilterCounts, Left>
    ensures { MendsFile (S.opens store.now) (S.replaces store.now) (S.leaves store.now) (mender_of setting.entry)
        file.now result }
{
    let Opened { place, old, made } = match store.open(file) {
        Ok(opened) => opened,
        Err(left) => return Err(left),
    };
    let answer = replaced(alloc, store, &place, old, made, setting);
    let is_replaced = matches!(&answer, Ok(counts) if counts.is_mended());
    if !is_replaced {
        store.remove_new(&place);
    }
    answer
}

// Writes the lines of an old file to a new one, mended. The new file takes the old one's place if a line was mended.
fn replaced<S: Store>(
    alloc: Global,
    store: &S,
    place: &Place,
    old: S::File,
    made: S::File,
    setting: FilterSetting<'_>,
) -> Result<FilterCounts, Left>
    ensures { (new : Option (List ℕ)) × MendsLines (S.replaces store.now) (S.leaves store.now)
        (mender_of setting.entry) (string_bytes place.now.path) (S.File.remaining old) (S.File.contents made) new
        result }
{
    let (written, answer) = written_mended(alloc, old, made, setting);
    let counts = match answer {
        Ok(counts) => counts,
        Err(left) => return Err(left),
    };
    if counts.is_mended() {
        store.replace(place, written)?;
    }
    Ok(counts)
}

// Writes each line of a reader to a writer, mended if it can be, and gives the writer back with the counts.
fn written_mended<I: Read + Drop, W: Write + Drop>(
    alloc: Global,
    old: I,
    made: W,
    setting: FilterSetting<'_>,
) -> (W, Result<FilterCounts, Left>)
    ensures mended { IfOk result.1 (HasWrittenMended (mender_of setting.entry) (I.remaining old) (W.contents made)
        (W.contents result.0)) }
    ensures stopped { IfErr result.1 (HasStoppedWithin (mender_of setting.entry) (I.remaining old) (W.contents made)
        (W.contents result.0)) }
{
    let mut input = FromReader::new(WatchedReader::new(old));
    let mut out = ToWriter::new(WatchedWriter::new(made));
    let (counts, answer) = run_filter(alloc, &mut input, &mut out, setting);
    let out = out.into_writer();
    let why = out.fault();
    let written = out.into_writer();
    match answer {
        Ok(()) => (written, Ok(counts)),
        Err(fault) => (
            written,
            Err(left_by(fault, input.into_reader().fault(), why)),
        ),
    }
}

// Why a file stays as it was if its lines weren't read or written, by the kinds of the last errors of both.
fn left_by(fault: StopFault, read: Option<ErrorKind>, written: Option<ErrorKind>) -> Left
    ensures { IsLeftBy fault result }
{
    match fault {
        StopFault::Memory => Left::Memory,
        StopFault::Write => Left::Unwritten(written),
        StopFault::Read | StopFault::TooManyLines | StopFault::Endless => Left::Unread(read),
    }
}
