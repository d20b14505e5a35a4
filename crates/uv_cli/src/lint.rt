//! The command `lint`: a report on the lines of files, in a format that people or tools read.
ghost use Rattle.std.specs.Prelude.{◌≡◌, ◌-◌, ◌^◌, ◌<◌, ◌⊎◌, map, option_copied, string_bytes, true};
ghost use Rattle.uv_lint.specs.LineViolations.{file_setting};
ghost use Rattle.uv_cli.specs.Lint.{HasLinted, HasLintedAgainst, LintsAll, LintsNamed, LintsNext, LintsNothing};
ghost use Rattle.uv_cli.specs.Lint.{LintsOpened, IsUnopened, IsWhyUnopened, WritesPiece, columns_of};
ghost use Rattle.uv_cli.specs.Lint.{form_of, format_of, input_name, is_input, reported_name};
ghost use Rattle.uv_cli.specs.Linted.{is_stopped, is_writable};
ghost use Rattle.uv_cli.specs.Stream.{stream};

use crate::colours::look_of;
use crate::ends::End;
use crate::fault::CliFault;
use crate::linted::Linted;
use crate::said::{Seen, said_of_file, said_of_unread};
use crate::watched_streams::WatchedReader;
use std::alloc::Global;
use std::fs;
use std::fs::Files;
use std::io::ErrorKind;
use uv_arguments::LintJob;
use uv_arguments::arguments::said_of;
use uv_io::{DeviceFault, FromReader, Sink, Source, write_whole};
use uv_lines::StopFault;
use uv_lint::{LineForm, LintCounts, LintSetting, run_lint};
use uv_messages::file_names::has_document_end;
use uv_messages::messages::{Message, say};
use uv_model::Record;
use uv_report::{Columns, Format, begin_of, end_of};
use uv_resolve::{ResolveFault, resolve_base};
use uv_rules::shown_rules;

// Nothing was counted.
const NONE_COUNTED: LintCounts = LintCounts {
    lines: 0,
    refused: 0,
};

/// Reports on the lines of the job's files, in their order: in the named format, or otherwise as compilers do, and
/// alone or against the base, which is resolved by itself, before anything is read. It has colours if they are always
/// asked for. Columns count what the unit says, or by default what the format prefers. The base, the name and the unit
/// are the texts that the job has. The input is read for each file named `-`.
///
/// A file that can't be opened or read to its end is reported on standard error by its name, and the lint goes on with
/// the next file; if it is the input, the end says so. Any other fault stops the lint; the end of the report is still
/// written if no write has failed.
pub(crate) fn lint_files<R: Files + Eprint + AllocGlobal, I: Source, S: Sink>(
    rt: &R,
    job: &LintJob,
    base: Option<&str>,
    name: Option<&str>,
    unit: Option<&str>,
    input: &mut I,
    out: &mut S,
) -> End
    requires reads { I.failed input.old < 2 ^ 64 - 1 }
    requires writes { S.failed out.old < 2 ^ 64 - 1 }
    ensures { HasLinted job.now base.entry name.entry unit.entry result
        (stream (I.remaining input.old) (I.failed input.old)) (stream (I.remaining input.new) (I.failed input.new))
        (stream (S.contents out.old) (S.failed out.old)) (stream (S.contents out.new) (S.failed out.new)) }
{
    let Some(format) = format_of(name) else {
        return End::UnknownFormat;
    };
    let Some(columns) = columns_of(format, unit) else {
        return End::UnknownColumns;
    };
    if !format.takes_columns(columns) {
        return End::ColumnsRefused;
    }
    match resolve_base(rt.alloc(), base, job.profile) {
        Ok(base) => lint_against(rt, job, base.as_ref(), format, columns, input, out),
        Err(ResolveFault::Refused(refusal)) => End::BaseRefused(refusal),
        Err(ResolveFault::Memory(_)) => End::Fault(CliFault::Memory),
    }
}

/// The format with a name, or the format of compilers if none is named.
pub(crate) fn format_of(name: Option<&str>) -> Option<Format>
    ensures { result ≡ format_of name.entry }
{
    match name {
        Some(name) => Format::of_name(name),
        None => Some(Format::Gnu),
    }
}

// What columns count, by its name, or if nothing is named what the format prefers.
fn columns_of(format: Format, name: Option<&str>) -> Option<Columns>
    ensures { result ≡ columns_of format name.entry }
{
    match name {
        Some(name) => Columns::of_name(name),
        None => Some(format.own_columns()),
    }
}

// What each line is: only a link, or a link with where it is.
fn form_of(is_located: bool) -> LineForm
    ensures { result ≡ form_of is_located }
{
    if is_located {
        LineForm::Located
    } else {
        LineForm::Plain
    }
}

// Reports on the lines of the files against a record as base.
fn lint_against<R: Files + Eprint + AllocGlobal, I: Source, S: Sink>(
    rt: &R,
    job: &LintJob,
    base: Option<&Record>,
    format: Format,
    columns: Columns,
    input: &mut I,
    out: &mut S,
) -> End
    requires reads { I.failed input.old < 2 ^ 64 - 1 }
    requires writes { S.failed out.old < 2 ^ 64 - 1 }
    ensures { HasLintedAgainst job.now (option_copied base.entry) format columns result
        (stream (I.remaining input.old) (I.failed input.old)) (stream (I.remaining input.new) (I.failed input.new))
        (stream (S.contents out.old) (S.failed out.old)) (stream (S.contents out.new) (S.failed out.new)) }
{
    let setting = LintSetting {
        base,
        profile: job.profile,
        extent: job.extent,
        format,
        look: look_of(job.colours),
        columns,
        form: form_of(job.located),
    };
    let rules = shown_rules();
    let Ok(begin) = begin_of(rt.alloc(), format, columns, rules.as_slice()) else {
        return End::Fault(CliFault::Memory);
    };
    let linted = write_piece(out, begin.as_str(), Linted::new(job.quiet));
    let name = input_name(job);
    let linted = lint_each(rt, job.files.as_slice(), name, setting, linted, input, out);
    End::Linted(write_piece(out, end_of(format, linted.completion()), linted))
}

// The name under which the standard input is reported on.
fn input_name(job: &LintJob) -> &str
    ensures { result.now ≡ input_name job.now }
{
    job.stdin_name.as_deref().unwrap_or("-")
}

// Writes a piece of the report, unless a write has failed before.
fn write_piece<S: Sink>(out: &mut S, piece: &str, linted: Linted) -> Linted
    requires { is_writable linted.stopped ≡ true → S.failed out.old < 2 ^ 64 - 1 }
    ensures { WritesPiece (is_writable linted.stopped) piece.now linted result
        (stream (S.contents out.old) (S.failed out.old)) (stream (S.contents out.new) (S.failed out.new)) }
{
    if !linted.is_writable() {
        return linted;
    }
    match write_whole(out, piece.as_bytes()) {
        Ok(()) => linted,
        Err(DeviceFault) => linted.with_fault(StopFault::Write),
    }
}

// Reports on the files, one after another, and on the standard input under this name.
fn lint_each<R: Files + Eprint + AllocGlobal, I: Source, S: Sink>(
    rt: &R,
    files: &[String],
    name: &str,
    setting: LintSetting<'_>,
    linted: Linted,
    input: &mut I,
    out: &mut S,
) -> Linted
    requires { is_writable linted.stopped ≡ true → S.failed out.old < 2 ^ 64 - 1 }
    ensures all { LintsAll (λ file. file_setting (reported_name name.now file) setting.entry)
        (map string_bytes files.now) linted result
        (stream (I.remaining input.old) (I.failed input.old)) (stream (I.remaining input.new) (I.failed input.new))
        (stream (S.contents out.old) (S.failed out.old)) (stream (S.contents out.new) (S.failed out.new)) }
    ensures quiet { is_writable result.stopped ≡ true → S.failed out.new ≡ S.failed out.old }
    ensures stays { is_writable result.stopped ≡ true → is_writable linted.stopped ≡ true }
{
    let mut linted = linted;
    for file in files {
        linted = lint_next(rt, file.as_str(), name, setting, linted, input, out);
    }
    linted
}

// Reports on the next file, and on the standard input under this name, unless something has stopped the lint.
fn lint_next<R: Files + Eprint + AllocGlobal, I: Source, S: Sink>(
    rt: &R,
    file: &str,
    name: &str,
    setting: LintSetting<'_>,
    linted: Linted,
    input: &mut I,
    out: &mut S,
) -> Linted
    requires { is_writable linted.stopped ≡ true → S.failed out.old < 2 ^ 64 - 1 }
    ensures next { LintsNext (is_stopped linted) file.now (file_setting (reported_name name.now file.now) setting.entry)
        linted result
        (stream (I.remaining input.old) (I.failed input.old)) (stream (I.remaining input.new) (I.failed input.new))
        (stream (S.contents out.old) (S.failed out.old)) (stream (S.contents out.new) (S.failed out.new)) }
{
    if linted.is_stopped() {
        return linted;
    }
    let is_input = is_input(file);
    let reported = if is_input { name } else { file };
    let is_first = linted.is_clean();
    let (counts, answer) = lint_named(rt, is_input, reported, setting, is_first, input, out);
    linted.with_file(is_input, has_document_end(file), counts, answer)
}

// Whether the file with a name is the standard input.
fn is_input(file: &str) -> bool
    ensures { result ≡ is_input file.now }
{
    file == "-"
}

// Reports on the file with a name, or on the input by this name.
fn lint_named<R: Files + Eprint + AllocGlobal, I: Source, S: Sink>(
    rt: &R,
    is_input: bool,
    file: &str,
    setting: LintSetting<'_>,
    is_first: bool,
    input: &mut I,
    out: &mut S,
) -> (LintCounts, Result<(), StopFault>)
    requires { S.failed out.old < 2 ^ 64 - 1 }
    ensures { LintsNamed is_input (file_setting file.now setting.entry) is_first result.0 result.1
        (stream (I.remaining input.old) (I.failed input.old)) (stream (I.remaining input.new) (I.failed input.new))
        (stream (S.contents out.old) (S.failed out.old)) (stream (S.contents out.new) (S.failed out.new)) }
{
    if is_input {
        return lint_input(rt.alloc(), file, setting, is_first, input, out);
    }
    lint_opened(rt, file, setting, is_first, out)
}

// Reports on the input under this name, unless its number of failed reads can't be counted any further.
fn lint_input<I: Source, S: Sink>(
    alloc: Global,
    file: &str,
    setting: LintSetting<'_>,
    is_first: bool,
    input: &mut I,
    out: &mut S,
) -> (LintCounts, Result<(), StopFault>)
    requires { S.failed out.old < 2 ^ 64 - 1 }
    ensures { LintsNamed true (file_setting file.now setting.entry) is_first result.0 result.1
        (stream (I.remaining input.old) (I.failed input.old)) (stream (I.remaining input.new) (I.failed input.new))
        (stream (S.contents out.old) (S.failed out.old)) (stream (S.contents out.new) (S.failed out.new)) }
{
    if input.failures() == u64::MAX {
        return (NONE_COUNTED, Err(StopFault::Read));
    }
    run_lint(alloc, input, out, file, is_first, setting)
}

// Opens the file with this name and reports on it, and says why, if it isn't read to its end.
fn lint_opened<R: Files + Eprint + AllocGlobal, S: Sink>(
    rt: &R,
    file: &str,
    setting: LintSetting<'_>,
    is_first: bool,
    out: &mut S,
) -> (LintCounts, Result<(), StopFault>)
    requires { S.failed out.old < 2 ^ 64 - 1 }
    ensures { LintsOpened (file_setting file.now setting.entry) is_first result.0 result.1
        (stream (S.contents out.old) (S.failed out.old)) (stream (S.contents out.new) (S.failed out.new))
        ⊎ (LintsNothing result.0
        (stream (S.contents out.old) (S.failed out.old)) (stream (S.contents out.new) (S.failed out.new))
        × IsUnopened result.1) }
{
    if let Some(said) = said_of(file) {
        return (NONE_COUNTED, Err(unnamed(rt, said)));
    }
    match fs::open(rt, file) {
        Ok(opened) => {
            let mut source = FromReader::new(WatchedReader::new(opened));
            let answer = run_lint(rt.alloc(), &mut source, out, file, is_first, setting);
            let reader = source.into_reader();
            let seen = Seen {
                read: reader.fault(),
                written: None,
                content: reader.content(),
            };
            say(rt, said_of_file(rt.alloc(), file, answer.0, answer.1, seen));
            answer
        }
        Err(error) => (NONE_COUNTED, Err(unopened(rt, file, error.kind()))),
    }
}

// Reports that a file whose name isn't UTF-8 isn't read.
fn unnamed<R: Eprint + AllocGlobal>(rt: &R, said: &str) -> StopFault
    ensures { result ≡ StopFault.Read }
{
    say(rt, Message::of(rt.alloc(), said));
    StopFault::Read
}

// Why a file isn't opened. Unless memory ran out, that is reported.
fn unopened<R: Eprint + AllocGlobal>(rt: &R, file: &str, kind: ErrorKind) -> StopFault
    ensures fault { IsUnopened (Err result) }
    ensures why { IsWhyUnopened kind result }
{
    if kind == ErrorKind::OutOfMemory {
        return StopFault::Memory;
    }
    say(rt, said_of_unread(rt.alloc(), file, Some(kind)));
    StopFault::Read
}
