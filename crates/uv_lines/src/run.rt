//! A run over the lines of a list, without what is around the report.
ghost use Rattle.std.specs.Prelude.{◌≡◌, ℕ, ◌+◌, ◌-◌, ◌^◌, ◌<◌, ◌≤◌, List, IfErr, OnOk};
ghost use Rattle.std.specs.Io.KnownBytes.{Consumes, IsAtEnd};
ghost use Rattle.uv_lines.specs.Reported.{Reported, ReportedPart};
ghost use Rattle.uv_lines.specs.Run.{Leaves, WroteAll, reads_failed, writes_failed};

use crate::fault::{LineFault, fault_of_list};
use crate::limits::LineLimits;
use crate::pieces::take_list;
use crate::progress::Progress;
use crate::reporter::Reporter;
use std::alloc::Global;
use uv_io::{Sink, Source};

/// Has a reporter report on each line of a list, and gives the reporter back in the state after the last line.
#[tactic(none)]
pub(crate) fn run_between<R: Source, W: Sink, T: Reporter>(
    alloc: Global,
    reader: &mut R,
    writer: &mut W,
    reporter: T,
    limits: LineLimits,
) -> (T, Result<(), LineFault<T::Fault>>)
    requires reads { R.failed reader.old < 2 ^ 64 - 1 }
    requires writes { W.failed writer.old < 2 ^ 64 - 1 }
    requires short { limits.line_bytes ≤ 65536 }
    requires few { limits.lines ≤ 1000000000 }
    requires start { T.lines reporter ≡ 0 }
    ensures report { OnOk result.1 ((read : List ℕ)
        × Consumes (R.remaining reader.old) (R.remaining reader.new) read × IsAtEnd (R.remaining reader.new)
        × WroteAll (Reported T.reports limits.line_bytes reporter) limits (W.contents writer.old) read result.0
        (W.contents writer.new)) }
    ensures fault { IfErr result.1 (λ e. (read : List ℕ)
        × Consumes (R.remaining reader.old) (R.remaining reader.new) read
        × Leaves (Reported T.reports limits.line_bytes reporter)
        (ReportedPart T.reports T.begins limits.line_bytes reporter) limits e (W.contents writer.old) read
        (IsAtEnd (R.remaining reader.new)) result.0 (W.contents writer.new)) }
    ensures failed { IfErr result.1 (λ e. (R.failed reader.new ≡ R.failed reader.old + reads_failed e)
        × (W.failed writer.new ≡ W.failed writer.old + writes_failed e)) }
    ensures quiet { OnOk result.1 ((R.failed reader.new ≡ R.failed reader.old)
        × (W.failed writer.new ≡ W.failed writer.old)) }
{
    let mut progress = Progress::new(alloc, reporter, limits);
    match take_list(alloc, reader, writer, &mut progress) {
        Ok(()) => (progress.into_reporter(), Ok(())),
        Err(fault) => (progress.into_reporter(), Err(fault_of_list(fault))),
    }
}
