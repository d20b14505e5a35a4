//! The end of a list: the last line, if no LF ends it.
ghost use Rattle.std.specs.Prelude.{◌≡◌, ◌+◌, ◌-◌, ◌^◌, ◌<◌, IfErr, OnOk};
ghost use Rattle.uv_lines.specs.Fault.{failed_within};
ghost use Rattle.uv_lines.specs.Taking.{Turns};
ghost use Rattle.uv_lines.specs.Ways.{Ending, EndingFault, Waiting};

use crate::fault::ReportFault;
use crate::progress::Progress;
use crate::reporter::Reporter;
use std::alloc::Global;
use uv_io::Sink;

impl<R: Reporter> Progress<R> {
    /// Takes the end of the list: reports on the line that has begun, if any.
    pub(crate) fn take_end<W: Sink>(
        &mut self,
        alloc: Global,
        writer: &mut W,
    ) -> Result<(), ReportFault<R::Fault>>
        requires { W.failed writer.old < 2 ^ 64 - 1 }
        ensures setting { self.new.limits ≡ self.old.limits }
        ensures ends { OnOk result (Turns (Waiting self.old.limits) (Ending self.old.limits) self.old
            (W.contents writer.old) self.new (W.contents writer.new)) }
        ensures quiet { OnOk result (W.failed writer.new ≡ W.failed writer.old) }
        ensures fault { IfErr result (λ e. Turns (Waiting self.old.limits) (EndingFault self.old.limits e) self.old
            (W.contents writer.old) self.new (W.contents writer.new)) }
        ensures failed { IfErr result (λ e. W.failed writer.new ≡ W.failed writer.old + failed_within e) }
    {
        if self.begun.is_empty() {
            return Ok(());
        }
        match self.report_begun(alloc, writer, false) {
            Ok(()) => Ok(()),
            Err(fault) => Err(fault),
        }
    }
}
