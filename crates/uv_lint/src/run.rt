//! A run over a file.
ghost use Rattle.std.specs.Prelude.{◌≡◌, ℕ, ◌+◌, ◌-◌, ◌^◌, ◌<◌, ◌≤◌, List, IfErr, IfOk, OnOk, string_bytes};
ghost use Rattle.std.specs.Io.KnownBytes.{Consumes, IsAtEnd};
ghost use Rattle.uv_lint.specs.LineViolations.{file_setting};
ghost use Rattle.uv_lint.specs.Report.{list_begin_text, list_end_text};
ghost use Rattle.uv_lines.specs.Fault.{writes_failed};
ghost use Rattle.uv_lint.specs.Run as spec;
ghost use Rattle.uv_lint.specs.Run.{FailsReads, Leaves, Reports, line_limits};

use crate::counts::LintCounts;
use crate::reporter::LintReporter;
use crate::setting::{LineForm, LintSetting};
use std::alloc::{AllocError, Global};
use uv_io::{Sink, Source};
use uv_lines::{Frame, LineFault, LineLimits, StopFault, run_lines};
use uv_report::{file_begin_of, file_end_of};

// How many bytes a line may have, and how many lines may come.
const LINE_LIMITS: LineLimits = LineLimits {
    line_bytes: 65_536,
    lines: 1_000_000_000,
};

/// Reports on one file: checks each of its lines and writes what is before the file's diagnostics, a diagnostic for
/// each violation, and what is after them. It is given the name by which diagnostics name the file, and whether no
/// diagnostic of the report was written yet.
///
/// A located line is `FILE:LINE:COLUMN:LINK`, where FILE is all before the first `:digits:digits:`. Its link is
/// checked, also an empty one, and reported by that file and line and from that column on. What isn't of this form is
/// reported by the name and number of the list's line. Each diagnostic then has round it what a file's have.
///
/// A line ends with LF, and one CR before that isn't a part of it; a last part without LF is a line if it isn't empty.
/// A byte order mark at the file's start isn't a part of the first line, though it is among the bytes that this may
/// have. Lines are numbered from 1, and an empty line, which is numbered too, isn't checked. A line may have 65,536
/// bytes, and 1,000,000,000 lines may come. What is found with the lines that a read has ended is written before the
/// next read, and sooner where 262,144 bytes or more wait after a diagnostic. What is after the diagnostics is written
/// after each fault but one of a write. If memory ran out, nothing may have been written, and the last line that is
/// reported on may have only its first diagnostics. The writer isn't flushed. The lines that were reported on whole are
/// counted, even after a fault. After a fault nothing is tried again, and how far the reader was read is open.
pub fn run_lint<R: Source, W: Sink>(
    alloc: Global,
    reader: &mut R,
    writer: &mut W,
    file: &str,
    is_first: bool,
    setting: LintSetting<'_>,
) -> (LintCounts, Result<(), StopFault>)
    requires reads { R.failed reader.old < 2 ^ 64 - 1 }
    requires writes { W.failed writer.old < 2 ^ 64 - 1 }
    ensures report { OnOk result.1 ((read : List ℕ)
        × Consumes (R.remaining reader.old) (R.remaining reader.new) read × IsAtEnd (R.remaining reader.new)
        × Reports (file_setting file.now setting.entry) line_limits is_first (W.contents writer.old) read result.0
        (W.contents writer.new)) }
    ensures fault { IfErr result.1 (λ e. (read : List ℕ)
        × Consumes (R.remaining reader.old) (R.remaining reader.new) read
        × Leaves e (file_setting file.now setting.entry) line_limits is_first (W.contents writer.old) read
        (IsAtEnd (R.remaining reader.new)) result.0 (W.contents writer.new)) }
    ensures failed { IfErr result.1 (λ e. FailsReads e (R.failed reader.old) (R.failed reader.new)
        × (W.failed writer.new ≡ W.failed writer.old + writes_failed e)) }
    ensures quiet { OnOk result.1 ((R.failed reader.new ≡ R.failed reader.old)
        × (W.failed writer.new ≡ W.failed writer.old)) }
{
    run_within(alloc, reader, writer, file, is_first, setting, LINE_LIMITS)
}

/// Reports on a file as `run_lint` does, within other limits: a line may have no more bytes than these say, and no more
/// lines may come.
#[tactic(none)]
pub fn run_within<R: Source, W: Sink>(
    alloc: Global,
    reader: &mut R,
    writer: &mut W,
    file: &str,
    is_first: bool,
    setting: LintSetting<'_>,
    limits: LineLimits,
) -> (LintCounts, Result<(), StopFault>)
    requires reads { R.failed reader.old < 2 ^ 64 - 1 }
    requires writes { W.failed writer.old < 2 ^ 64 - 1 }
    requires short { limits.line_bytes ≤ 65536 }
    requires few { limits.lines ≤ 1000000000 }
    ensures report { OnOk result.1 ((read : List ℕ)
        × Consumes (R.remaining reader.old) (R.remaining reader.new) read × IsAtEnd (R.remaining reader.new)
        × Reports (file_setting file.now setting.entry) limits is_first (W.contents writer.old) read result.0
        (W.contents writer.new)) }
    ensures fault { IfErr result.1 (λ e. (read : List ℕ)
        × Consumes (R.remaining reader.old) (R.remaining reader.new) read
        × Leaves e (file_setting file.now setting.entry) limits is_first (W.contents writer.old) read
        (IsAtEnd (R.remaining reader.new)) result.0 (W.contents writer.new)) }
    ensures failed { IfErr result.1 (λ e. FailsReads e (R.failed reader.old) (R.failed reader.new)
        × (W.failed writer.new ≡ W.failed writer.old + writes_failed e)) }
    ensures quiet { OnOk result.1 ((R.failed reader.new ≡ R.failed reader.old)
        × (W.failed writer.new ≡ W.failed writer.old)) }
{
    let reporter = LintReporter::new(alloc, file, is_first, setting);
    let Ok(begin) = list_begin(alloc, setting, file) else {
        return (reporter.counts(), Err(StopFault::Memory));
    };
    let end = list_end(setting);
    let frame = Frame {
        begin: begin.as_bytes(),
        end: end.as_bytes(),
    };
    let (reporter, answer) = run_lines(alloc, reader, writer, reporter, limits, frame);
    (reporter.counts(), answer_of_run(answer))
}

// The answer of a run over a file, by the answer of its run over lines.
fn answer_of_run(answer: Result<(), LineFault<AllocError>>) -> Result<(), StopFault>
    ensures { result ≡ spec.answer_of_run answer }
{
    match answer {
        Ok(()) => Ok(()),
        Err(LineFault::Own(AllocError)) => Err(StopFault::Memory),
        Err(LineFault::Stop(fault)) => Err(fault),
    }
}

// What is before the diagnostics of a file: nothing where each of them is about a file of its own.
fn list_begin(alloc: Global, setting: LintSetting<'_>, file: &str) -> Result<String, AllocError>
    ensures { IfOk result (λ begin. string_bytes begin
        ≡ list_begin_text setting.entry.form setting.entry.format file.now) }
{
    match setting.form {
        LineForm::Plain => file_begin_of(alloc, setting.format, file),
        LineForm::Located => Ok(String::new(alloc)),
    }
}

// What is after them.
fn list_end(setting: LintSetting<'_>) -> &'static str
    ensures { result.now ≡ list_end_text setting.entry.form setting.entry.format }
{
    match setting.form {
        LineForm::Plain => file_end_of(setting.format),
        LineForm::Located => "",
    }
}
