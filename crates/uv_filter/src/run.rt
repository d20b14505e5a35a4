//! A run of the filter over a list.
ghost use Rattle.std.specs.Prelude.{◌≡◌, ℕ, ◌+◌, ◌-◌, ◌^◌, ◌<◌, List, IfErr, OnOk};
ghost use Rattle.std.specs.Io.KnownBytes.{Consumes, IsAtEnd};
ghost use Rattle.uv_lines.specs.Fault.{reads_failed, writes_failed};
ghost use Rattle.uv_filter.specs.Fates.{mender_of};
ghost use Rattle.uv_filter.specs.Filtered.{Filtering, starting};
ghost use Rattle.uv_filter.specs.Lines.{all_lines};
ghost use Rattle.uv_filter.specs.Run as spec;
ghost use Rattle.uv_filter.specs.Run.{Leaves, Wrote};

use crate::counts::FilterCounts;
use crate::progress::Progress;
use crate::setting::FilterSetting;
use std::alloc::{AllocError, Global};
use uv_io::{Sink, Source};
use uv_lines::{LineFault, ReportFault, StopFault, take_list};

/// Writes each line of a list: a mended text in place of a refused one, if there is one of a kind that is wanted, and
/// otherwise the line as it was, byte for byte.
///
/// A line ends with LF, and one CR before that is part of its end; a last part without LF is a line if it isn't empty.
/// Each end is kept. A byte order mark at the list's start isn't a part of the first text, and is kept too. A line
/// isn't checked if it is empty, isn't UTF-8 or has more than 65,536 bytes without its end. The lines that a read has
/// ended are written before the next read, and so is all that was read of a line that is too long: memory doesn't grow
/// with the list. The writer isn't flushed. The lines that were written are counted, even after a fault. After a fault
/// nothing is tried again, and how far the reader was read is left open. `StopFault::TooManyLines` never comes.
pub fn run_filter<R: Source, W: Sink>(
    alloc: Global,
    reader: &mut R,
    writer: &mut W,
    setting: FilterSetting<'_>,
) -> (FilterCounts, Result<(), StopFault>)
    requires reads { R.failed reader.old < 2 ^ 64 - 1 }
    requires writes { W.failed writer.old < 2 ^ 64 - 1 }
    ensures filtered { OnOk result.1 ((read : List ℕ) × (now : Filtering)
        × Consumes (R.remaining reader.old) (R.remaining reader.new) read × IsAtEnd (R.remaining reader.new)
        × Wrote (starting (mender_of setting.entry)) (all_lines read) (W.contents writer.old) (W.contents writer.new)
        now × (result.0 ≡ now.counts)) }
    ensures fault { IfErr result.1 (λ e. (read : List ℕ) × (now : Filtering)
        × Consumes (R.remaining reader.old) (R.remaining reader.new) read
        × Leaves e (starting (mender_of setting.entry)) (W.contents writer.old) read (IsAtEnd (R.remaining reader.new))
        now (W.contents writer.new) × (result.0 ≡ now.counts)) }
    ensures failed { IfErr result.1 (λ e. (R.failed reader.new ≡ R.failed reader.old + reads_failed e)
        × (W.failed writer.new ≡ W.failed writer.old + writes_failed e)) }
    ensures quiet { OnOk result.1 ((R.failed reader.new ≡ R.failed reader.old)
        × (W.failed writer.new ≡ W.failed writer.old)) }
{
    let mut progress = Progress::new(alloc, setting);
    match take_list(alloc, reader, writer, &mut progress) {
        Ok(()) => (progress.counts(), Ok(())),
        Err(fault) => (progress.counts(), Err(fault_of_list(fault))),
    }
}

// The fault of a run, by the fault of its list.
fn fault_of_list(fault: LineFault<ReportFault<AllocError>>) -> StopFault
    ensures { result ≡ spec.fault_of_list fault }
{
    match fault {
        LineFault::Own(ReportFault::Reporter(AllocError)) => StopFault::Memory,
        LineFault::Own(ReportFault::Write) => StopFault::Write,
        LineFault::Stop(fault) => fault,
    }
}
