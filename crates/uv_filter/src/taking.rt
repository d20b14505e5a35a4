//! The lines of a list: each is written when it ends, and one that is too long as it comes.
ghost use Rattle.std.specs.Prelude.{◌≡◌, ℕ, ◌+◌, ◌-◌, ◌^◌, ◌<◌, ◌≤◌, [], ◌++◌, OnErr, OnOk, length, take, vec_len};
ghost use Rattle.std.specs.Io.KnownBytes.{Appends};
ghost use Rattle.uv_lines.specs.Fault.{failed_within};
ghost use Rattle.uv_filter.specs.Lines.{all_lines, ended_line};
ghost use Rattle.uv_filter.specs.Progress.{Adds, Stands, passing};
ghost use Rattle.uv_filter.specs.Run.{TakeFault, Wrote};

use crate::progress::{KEPT_BYTES, Progress};
use crate::written::ListLine;
use std::alloc::{AllocError, Global};
use uv_io::{DeviceFault, Sink, write_whole};
use uv_lines::{Line, ReportFault, Taker, end_part, write_out};

impl<'b> Taker for Progress<'b> {
    type Fault = ReportFault<AllocError>;

    ghost writes = { failed_within };

    ghost stands = { λ start old read now new. Stands start.filter old read now.filter now.begun.items now.is_long
        now.text.items new };

    ghost rests = { λ now. now.text.items ≡ [] };

    ghost stops = { λ fault start old read now new. TakeFault fault start.filter old read now.filter new };

    ghost ends = { λ start old read now new. Wrote start.filter (all_lines read) old new now.filter };

    ghost fails = { λ fault start old read now new. TakeFault fault start.filter old read now.filter new };

    fn take_line<W: Sink>(
        &mut self,
        alloc: Global,
        writer: &mut W,
        line: Line<'_>,
        whole: &[u8],
    ) -> Result<(), ReportFault<AllocError>> {
        let line = line.as_bytes();
        if self.is_long || line.len() > KEPT_BYTES - self.begun.len() {
            return match self.pass_on(writer, whole, false) {
                Ok(()) => Ok(()),
                Err(DeviceFault) => Err(ReportFault::Write),
            };
        }
        if let Err(AllocError) = self.close_short(alloc, line) {
            return Err(self.stop(writer));
        }
        match end_part(&mut self.text, writer) {
            Ok(()) => Ok(()),
            Err(DeviceFault) => Err(ReportFault::Write),
        }
    }

    fn take_part<W: Sink>(
        &mut self,
        writer: &mut W,
        part: &[u8],
    ) -> Result<(), ReportFault<AllocError>> {
        if self.is_long || part.len() > KEPT_BYTES - self.begun.len() {
            return match self.pass_on(writer, part, true) {
                Ok(()) => Ok(()),
                Err(DeviceFault) => Err(ReportFault::Write),
            };
        }
        match self.begun.extend_from_slice(part) {
            Ok(()) => Ok(()),
            Err(AllocError) => Err(self.stop(writer)),
        }
    }

    fn end_piece<W: Sink>(&mut self, writer: &mut W) -> Result<(), ReportFault<AllocError>> {
        match write_out(&mut self.text, writer) {
            Ok(()) => Ok(()),
            Err(DeviceFault) => Err(ReportFault::Write),
        }
    }

    fn end_list<W: Sink>(
        &mut self,
        alloc: Global,
        writer: &mut W,
    ) -> Result<(), ReportFault<AllocError>> {
        if let Err(AllocError) = self.append_last(alloc) {
            return Err(self.stop(writer));
        }
        match write_out(&mut self.text, writer) {
            Ok(()) => Ok(()),
            Err(DeviceFault) => Err(ReportFault::Write),
        }
    }
}

impl<'b> Progress<'b> {
    // Appends what is written for the line that an LF ends after this prefix of a part, and that isn't too long to be
    // kept.
    fn close_short(&mut self, alloc: Global, prefix: &[u8]) -> Result<(), AllocError>
        requires { vec_len self.old.begun + length prefix.now ≤ 65540 }
        ensures added { OnOk result (Adds self.old.filter (ended_line (self.old.begun.items ++ prefix.now))
            self.old.text.items self.new.filter self.new.text.items) }
        ensures begun { OnOk result (self.new.begun.items ≡ []) }
        ensures long { self.new.is_long ≡ self.old.is_long }
        ensures none { OnErr result ((self.new.filter ≡ self.old.filter)
            × (self.new.text.items ≡ self.old.text.items)) }
    {
        if self.begun.is_empty() {
            let line = ListLine {
                bytes: prefix,
                is_closed: true,
            };
            return self.filter.filter(alloc, line, &mut self.text);
        }
        self.begun.extend_from_slice(prefix)?;
        self.append_begun(alloc, true)
    }

    // Writes what waits to be written, what is kept of a line that is too long, and a further part of it, which may end
    // it. The line is counted once.
    fn pass_on<W: Sink>(
        &mut self,
        writer: &mut W,
        part: &[u8],
        goes_on: bool,
    ) -> Result<(), DeviceFault>
        requires { W.failed writer.old < 2 ^ 64 - 1 }
        ensures whole { OnOk result (Appends (W.contents writer.old) (W.contents writer.new)
            (self.old.text.items ++ (self.old.begun.items ++ part.now))) }
        ensures none { OnOk result ((self.new.text.items ≡ []) × (self.new.begun.items ≡ [])
            × (self.new.is_long ≡ goes_on)) }
        ensures counted { self.new.filter ≡ passing self.old.is_long self.old.filter }
        ensures quiet { OnOk result (W.failed writer.new ≡ W.failed writer.old) }
        ensures prefix { OnErr result ((n : ℕ) × Appends (W.contents writer.old) (W.contents writer.new)
            (take n (self.old.text.items ++ (self.old.begun.items ++ part.now)))) }
        ensures failed { OnErr result (W.failed writer.new ≡ W.failed writer.old + 1) }
    {
        self.filter.count_long(self.is_long);
        self.is_long = goes_on;
        if let Err(DeviceFault) = write_out(&mut self.text, writer) {
            return Err(DeviceFault);
        }
        if let Err(DeviceFault) = write_whole(writer, self.begun.as_slice()) {
            return Err(DeviceFault);
        }
        self.begun.clear();
        write_whole(writer, part)
    }
}
