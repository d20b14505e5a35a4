//! A run over a list of links.
ghost use Rattle.std.specs.Prelude.{◌≡◌, ℕ, ◌+◌, ◌-◌, ◌^◌, ◌<◌, List, IfErr, IfOk, OnOk, option_copied};
ghost use Rattle.std.specs.Io.KnownBytes.{Consumes, IsAtEnd};
ghost use Rattle.uv_links.specs.Run as spec;
ghost use Rattle.uv_links.specs.Run.{Leaves, Reports, reads_failed, writes_failed};
ghost use Rattle.uv_compare.specs.Second.{AgreesOnBase};

use crate::counts::Counts;
use crate::fault::{LinkFault, fault_of_room};
use crate::limits::LinkLimits;
use crate::line_checker::LineChecker;
use crate::reporter::LinkReporter;
use std::alloc::Global;
use uv_compare::RoomFault;
use uv_io::{Sink, Source};
use uv_lines::{Frame, LineFault, LineLimits, run_lines};
use uv_model::{Profile, Record};

/// Reports on a list of links: each of its lines is checked under the profile, against the base if there is one, and
/// each accepted line is compared with what the crate `url` makes of it.
///
/// A line ends with LF, and one CR before that isn't a part of it; a last part without LF is a line if it isn't empty.
/// The base's text is compared before the first read. The report on the lines that a read has ended is written before
/// the next read. The writer isn't flushed. After a fault nothing is tried again, and how far the reader was read is
/// left open.
#[tactic(none)]
pub fn run_links<R: Source, W: Sink>(
    alloc: Global,
    reader: &mut R,
    writer: &mut W,
    base: Option<&Record>,
    limits: LinkLimits,
    profile: Profile,
) -> Result<Counts, LinkFault>
    requires reads { R.failed reader.old < 2 ^ 64 - 1 }
    requires writes { W.failed writer.old < 2 ^ 64 - 1 }
    ensures report { IfOk result (λ counts. (read : List ℕ)
        × Consumes (R.remaining reader.old) (R.remaining reader.new) read × IsAtEnd (R.remaining reader.new)
        × Reports (record {
          profile = profile;
          base = option_copied base.entry;
          line_bytes = limits.line_bytes;
        }) limits.lines
        (W.contents writer.old) read counts (W.contents writer.new)) }
    ensures base { OnOk result (AgreesOnBase (option_copied base.entry)) }
    ensures fault { IfErr result (λ e. (read : List ℕ)
        × Consumes (R.remaining reader.old) (R.remaining reader.new) read
        × Leaves e (record {
          profile = profile;
          base = option_copied base.entry;
          line_bytes = limits.line_bytes;
        }) limits.lines
        (W.contents writer.old) read (IsAtEnd (R.remaining reader.new)) (W.contents writer.new)) }
    ensures failed { IfErr result (λ e. (R.failed reader.new ≡ R.failed reader.old + reads_failed e)
        × (W.failed writer.new ≡ W.failed writer.old + writes_failed e)) }
    ensures quiet { OnOk result ((R.failed reader.new ≡ R.failed reader.old)
        × (W.failed writer.new ≡ W.failed writer.old)) }
{
    let checker = match LineChecker::new(alloc, base, limits.line_bytes(), profile) {
        Ok(checker) => checker,
        Err(fault) => return Err(fault),
    };
    let limits = LineLimits {
        line_bytes: limits.line_bytes(),
        lines: limits.lines(),
    };
    let reporter = LinkReporter::new(alloc, checker);
    let (reporter, answer) = run_lines(alloc, reader, writer, reporter, limits, Frame::none());
    match answer {
        Ok(()) => Ok(reporter.counts()),
        Err(fault) => Err(fault_of_run(fault)),
    }
}

// The fault of a run over links, by the fault of its run over lines.
fn fault_of_run(fault: LineFault<RoomFault>) -> LinkFault
    ensures { result ≡ spec.fault_of_run fault }
{
    match fault {
        LineFault::Own(fault) => fault_of_room(fault),
        LineFault::Stop(fault) => LinkFault::Stop(fault),
    }
}
