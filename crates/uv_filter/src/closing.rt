//! What is written after the text that waits: for the last line, at the end of a list, and if memory runs out.
ghost use Rattle.std.specs.Prelude.{◌≡◌, ℕ, ◌+◌, ◌-◌, ◌^◌, ◌<◌, List, [], Option, OnErr, OnOk, vec_len};
ghost use Rattle.uv_lines.specs.Fault.{failed_within};
ghost use Rattle.uv_filter.specs.Filtered.{Filtering};
ghost use Rattle.uv_filter.specs.Progress.{Adds, Ends, Stands};
ghost use Rattle.uv_filter.specs.Run.{Stops};

use crate::progress::Progress;
use crate::written::ListLine;
use std::alloc::{AllocError, Global};
use uv_io::{DeviceFault, Sink};
use uv_lines::{ReportFault, write_out};

impl<'b> Progress<'b> {
    /// Appends what is written for the last line, if no LF ends it and it isn't written already.
    pub(crate) fn append_last(&mut self, alloc: Global) -> Result<(), AllocError>
        ensures ends { OnOk result ((start : Filtering) (old : Option (List ℕ)) (read : List ℕ)
            (new : Option (List ℕ))
            → Stands start old read self.old.filter self.old.begun.items self.old.is_long self.old.text.items new
            → Ends start old read self.new.filter self.new.text.items new) }
        ensures none { OnErr result ((self.new.filter ≡ self.old.filter)
            × (self.new.text.items ≡ self.old.text.items)) }
        ensures some { OnErr result (0 < vec_len self.old.begun) }
    {
        if self.begun.is_empty() {
            return Ok(());
        }
        self.append_begun(alloc, false)
    }

    /// Appends what is written for the line that has begun, which an LF or the end of the list has ended.
    pub(crate) fn append_begun(&mut self, alloc: Global, is_closed: bool) -> Result<(), AllocError>
        ensures added { OnOk result (Adds self.old.filter
            (record { bytes = self.old.begun.items; closed = is_closed }) self.old.text.items self.new.filter
            self.new.text.items) }
        ensures begun { OnOk result (self.new.begun.items ≡ []) }
        ensures long { self.new.is_long ≡ self.old.is_long }
        ensures none { OnErr result ((self.new.filter ≡ self.old.filter)
            × (self.new.text.items ≡ self.old.text.items)) }
    {
        let line = ListLine {
            bytes: self.begun.as_slice(),
            is_closed,
        };
        self.filter.filter(alloc, line, &mut self.text)?;
        self.begun.clear();
        Ok(())
    }

    /// Writes what waits to be written after memory ran out, and gives the fault.
    pub(crate) fn stop<W: Sink>(&mut self, writer: &mut W) -> ReportFault<AllocError>
        requires { W.failed writer.old < 2 ^ 64 - 1 }
        ensures stopped { Stops result self.old.text.items (W.contents writer.old) (W.contents writer.new) }
        ensures filter { self.new.filter ≡ self.old.filter }
        ensures failed { W.failed writer.new ≡ W.failed writer.old + failed_within result }
    {
        match write_out(&mut self.text, writer) {
            Ok(()) => ReportFault::Reporter(AllocError),
            Err(DeviceFault) => ReportFault::Write,
        }
    }
}
