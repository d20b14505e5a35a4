//! The lines of a list passed on: the report on the lines of a piece is written before the next piece is read.
ghost use Rattle.std.specs.Prelude.{◌≡◌, ℕ, ◌+◌, ◌-◌, ◌^◌, ◌<◌, [], false};
ghost use Rattle.uv_lines.specs.declared.limits.LineLimits.{LineLimits};
ghost use Rattle.uv_lines.specs.Fault as spec;
ghost use Rattle.uv_lines.specs.Reported.{Reported};
ghost use Rattle.uv_lines.specs.Run.{FinishFault, WroteAll, writes_failed};
ghost use Rattle.uv_lines.specs.Taking.{Turns};
ghost use Rattle.uv_lines.specs.Ways.{PassingFault, Waiting, WaitingFault};

use crate::fault::{LineFault, ReportFault, StopFault, is_write};
use crate::line::Line;
use crate::progress::Progress;
use crate::reporter::Reporter;
use crate::taker::Taker;
use crate::waiting::{end_part, write_out};
use std::alloc::Global;
use uv_io::{DeviceFault, Sink};

impl<R: Reporter> Taker for Progress<R> {
    type Fault = LineFault<R::Fault>;

    ghost writes = { writes_failed };

    ghost stands = { λ start old read now new. Waiting start.limits start.reporter old read now new
        × (now.limits ≡ start.limits) };

    ghost rests = { λ now. now.text.items ≡ [] };

    ghost stops = { λ fault start. PassingFault start.limits fault start.reporter };

    ghost ends = { λ start old read now new. WroteAll (Reported R.reports start.limits.line_bytes start.reporter)
        start.limits old read now.reporter new };

    ghost fails = { λ fault start old read now new. FinishFault R.reports R.begins start.limits start.reporter fault old
        read now.reporter new };

    fn take_line<W: Sink>(
        &mut self,
        alloc: Global,
        writer: &mut W,
        line: Line<'_>,
        _whole: &[u8],
    ) -> Result<(), LineFault<R::Fault>> {
        if let Err(fault) = self.close_line(alloc, writer, line) {
            return Err(self.stop(writer, fault));
        }
        match end_part(&mut self.text, writer) {
            Ok(()) => Ok(()),
            Err(DeviceFault) => Err(LineFault::Stop(StopFault::Write)),
        }
    }

    fn take_part<W: Sink>(
        &mut self,
        writer: &mut W,
        part: &[u8],
    ) -> Result<(), LineFault<R::Fault>> {
        match self.begin_line(part) {
            Ok(()) => Ok(()),
            Err(fault) => Err(self.stop(writer, fault)),
        }
    }

    fn end_piece<W: Sink>(&mut self, writer: &mut W) -> Result<(), LineFault<R::Fault>> {
        match write_out(&mut self.text, writer) {
            Ok(()) => Ok(()),
            Err(DeviceFault) => Err(LineFault::Stop(StopFault::Write)),
        }
    }

    // The report on the last line is written even if the report on it isn't whole.
    fn end_list<W: Sink>(
        &mut self,
        alloc: Global,
        writer: &mut W,
    ) -> Result<(), LineFault<R::Fault>> {
        match self.take_end(alloc, writer) {
            Ok(()) => match write_out(&mut self.text, writer) {
                Ok(()) => Ok(()),
                Err(DeviceFault) => Err(LineFault::Stop(StopFault::Write)),
            },
            Err(ReportFault::Reporter(fault)) => match write_out(&mut self.text, writer) {
                Ok(()) => Err(LineFault::Own(fault)),
                Err(DeviceFault) => Err(LineFault::Stop(StopFault::Write)),
            },
            Err(ReportFault::Write) => Err(LineFault::Stop(StopFault::Write)),
        }
    }
}

impl<R: Reporter> Progress<R> {
    // Writes what waits to be written after a fault that wasn't a failed write, and gives the fault.
    fn stop<W: Sink>(&mut self, writer: &mut W, fault: LineFault<R::Fault>) -> LineFault<R::Fault>
        requires { spec.is_write fault ≡ false → W.failed writer.old < 2 ^ 64 - 1 }
        ensures left { (limits : LineLimits) → Turns (WaitingFault limits fault) (PassingFault limits result)
            self.old (W.contents writer.old) self.new (W.contents writer.new) }
        ensures failed { (before : ℕ) → W.failed writer.old ≡ before + writes_failed fault
            → W.failed writer.new ≡ before + writes_failed result }
    {
        if is_write(&fault) {
            return fault;
        }
        match write_out(&mut self.text, writer) {
            Ok(()) => fault,
            Err(DeviceFault) => LineFault::Stop(StopFault::Write),
        }
    }
}
