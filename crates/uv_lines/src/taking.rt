//! The lines of a list, each reported on when it ends.
ghost use Rattle.std.specs.Prelude.{◌≡◌, ℕ, ◌+◌, ◌-◌, ◌^◌, ◌<◌, List, [], ◌∷◌, ◌++◌, IfErr, OnOk, OnErr};
ghost use Rattle.std.specs.Prelude.{Option, false, take, vec_len};
ghost use Rattle.uv_lines.specs.Line.{bytes_of};
ghost use Rattle.uv_lines.specs.Lines.{line_feed, short_line, split};
ghost use Rattle.uv_lines.specs.Fault.{failed_within, is_write};
ghost use Rattle.uv_lines.specs.Progress.{ended};
ghost use Rattle.uv_lines.specs.Run.{writes_failed};
ghost use Rattle.uv_lines.specs.Taking.{Keeps, Leads};
ghost use Rattle.uv_lines.specs.Waiting.{Adds, LeavesLine};
ghost use Rattle.uv_lines.specs.Ways.{Waiting, WaitingFault};

use crate::fault::{LineFault, ReportFault, StopFault};
use crate::line::Line;
use crate::line_parts::line_text;
use crate::progress::Progress;
use crate::reporter::Reporter;
use std::alloc::{AllocError, Global};
use uv_io::Sink;

impl<R: Reporter> Progress<R> {
    /// Reports on the line that an LF ends after this prefix of a piece.
    pub(crate) fn close_line<W: Sink>(
        &mut self,
        alloc: Global,
        writer: &mut W,
        prefix: Line<'_>,
    ) -> Result<(), LineFault<R::Fault>>
        requires line { split (bytes_of prefix) ≡ ([], bytes_of prefix) }
        requires writes { W.failed writer.old < 2 ^ 64 - 1 }
        ensures setting { self.new.limits ≡ self.old.limits }
        ensures waits { OnOk result (Keeps (Waiting self.old.limits) self.old (W.contents writer.old)
            (bytes_of prefix.entry ++ line_feed ∷ []) self.new (W.contents writer.new)) }
        ensures quiet { OnOk result (W.failed writer.new ≡ W.failed writer.old) }
        ensures fault { IfErr result (λ e. (rest : List ℕ) → Leads (Waiting self.old.limits)
            (WaitingFault self.old.limits e) self.old (W.contents writer.old)
            (bytes_of prefix.entry ++ line_feed ∷ rest) self.new (W.contents writer.new)) }
        ensures failed { IfErr result (λ e. W.failed writer.new ≡ W.failed writer.old + writes_failed e) }
    {
        if !self.begun.is_empty() {
            return self.close_begun_line(alloc, writer, prefix.as_bytes());
        }
        if self.reporter.line_count() == self.limits.lines {
            return Err(LineFault::Stop(StopFault::TooManyLines));
        }
        let line_bytes = self.limits.line_bytes;
        let line = prefix.without_return();
        match report_on(
            alloc,
            &mut self.reporter,
            line_bytes,
            line,
            &mut self.text,
            writer,
        ) {
            Ok(()) => Ok(()),
            Err(fault) => Err(fault.of_run()),
        }
    }

    // Reports on the line that has begun and that an LF ends after this prefix of a piece.
    fn close_begun_line<W: Sink>(
        &mut self,
        alloc: Global,
        writer: &mut W,
        prefix: &[u8],
    ) -> Result<(), LineFault<R::Fault>>
        requires begun { 0 < vec_len self.old.begun }
        requires line { split prefix.now ≡ ([], prefix.now) }
        requires writes { W.failed writer.old < 2 ^ 64 - 1 }
        ensures setting { self.new.limits ≡ self.old.limits }
        ensures waits { OnOk result (Keeps (Waiting self.old.limits) self.old (W.contents writer.old)
            (prefix.now ++ line_feed ∷ []) self.new (W.contents writer.new)) }
        ensures quiet { OnOk result (W.failed writer.new ≡ W.failed writer.old) }
        ensures fault { IfErr result (λ e. (rest : List ℕ) → Leads (Waiting self.old.limits)
            (WaitingFault self.old.limits e) self.old (W.contents writer.old) (prefix.now ++ line_feed ∷ rest)
            self.new (W.contents writer.new)) }
        ensures failed { IfErr result (λ e. W.failed writer.new ≡ W.failed writer.old + writes_failed e) }
    {
        if let Err(AllocError) = self.keep(prefix) {
            return Err(LineFault::Stop(StopFault::Memory));
        }
        match self.report_begun(alloc, writer, true) {
            Ok(()) => Ok(()),
            Err(fault) => Err(fault.of_run()),
        }
    }

    /// Keeps the end of a piece, with which a line goes on or begins.
    pub(crate) fn begin_line(&mut self, rest: &[u8]) -> Result<(), LineFault<R::Fault>>
        requires { split rest.now ≡ ([], rest.now) }
        ensures kind { IfErr result (λ e. is_write e ≡ false) }
        ensures setting { self.new.limits ≡ self.old.limits }
        ensures waits { OnOk result ((written : Option (List ℕ))
            → Keeps (Waiting self.old.limits) self.old written rest.now self.new written) }
        ensures fault { IfErr result (λ e. (written : Option (List ℕ)) → Leads (Waiting self.old.limits)
            (WaitingFault self.old.limits e) self.old written rest.now self.new written) }
    {
        if rest.is_empty() {
            return Ok(());
        }
        if self.begun.is_empty() && self.reporter.line_count() == self.limits.lines {
            return Err(LineFault::Stop(StopFault::TooManyLines));
        }
        match self.keep(rest) {
            Ok(()) => Ok(()),
            Err(AllocError) => Err(LineFault::Stop(StopFault::Memory)),
        }
    }

    // Keeps what is needed of a line's next bytes to know what to say about it: two bytes more than a line may have,
    // with or without a CR at their end, are too many.
    fn keep(&mut self, more: &[u8]) -> Result<(), AllocError>
        requires { R.lines self.old.reporter < self.old.limits.lines }
        ensures kept { OnOk result (self.new.begun.items ≡
            take (self.old.limits.line_bytes + 2) (self.old.begun.items ++ more.now)) }
        ensures none { OnErr result (self.new.begun.items ≡ self.old.begun.items) }
        ensures rest { (self.new.reporter ≡ self.old.reporter) × (self.new.limits ≡ self.old.limits)
            × (self.new.text.items ≡ self.old.text.items) }
    {
        let room = self.limits.line_bytes + 2 - self.begun.len();
        let count = room.min(more.len());
        match self.begun.extend_from_slice(&more[..count]) {
            Ok(()) => Ok(()),
            Err(AllocError) => Err(AllocError),
        }
    }

    /// Reports on the line that has begun, which an LF or the end of the list has ended.
    pub(crate) fn report_begun<W: Sink>(
        &mut self,
        alloc: Global,
        writer: &mut W,
        is_closed: bool,
    ) -> Result<(), ReportFault<R::Fault>>
        requires few { R.lines self.old.reporter < self.old.limits.lines }
        requires writes { W.failed writer.old < 2 ^ 64 - 1 }
        ensures setting { self.new.limits ≡ self.old.limits }
        ensures begun { OnOk result (self.new.begun.items ≡ []) }
        ensures added { OnOk result (Adds R.reports R.lines self.old.reporter self.old.text.items
            (W.contents writer.old) (short_line self.old.limits.line_bytes (ended is_closed self.old.begun.items))
            self.new.reporter self.new.text.items (W.contents writer.new)) }
        ensures quiet { OnOk result (W.failed writer.new ≡ W.failed writer.old) }
        ensures same { OnErr result (self.new.reporter ≡ self.old.reporter) }
        ensures fault { IfErr result (λ e. LeavesLine R.begins e self.old.reporter self.old.text.items
            (W.contents writer.old) (short_line self.old.limits.line_bytes (ended is_closed self.old.begun.items))
            self.new.text.items (W.contents writer.new)) }
        ensures failed { IfErr result (λ e. W.failed writer.new ≡ W.failed writer.old + failed_within e) }
    {
        let line_bytes = self.limits.line_bytes;
        let line = Line::Bytes(line_text(self.begun.as_slice(), is_closed));
        report_on(
            alloc,
            &mut self.reporter,
            line_bytes,
            line,
            &mut self.text,
            writer,
        )?;
        self.begun.clear();
        Ok(())
    }
}

// Reports on a line, which may be longer than a line may be.
fn report_on<R: Reporter, W: Sink>(
    alloc: Global,
    reporter: &mut R,
    line_bytes: usize,
    line: Line<'_>,
    text: &mut Vec<u8>,
    writer: &mut W,
) -> Result<(), ReportFault<R::Fault>>
    requires few { R.lines reporter.old < 2 ^ 64 - 1 }
    requires writes { W.failed writer.old < 2 ^ 64 - 1 }
    ensures added { OnOk result (Adds R.reports R.lines reporter.old text.old.items (W.contents writer.old)
        (short_line line_bytes (bytes_of line.entry)) reporter.new text.new.items (W.contents writer.new)) }
    ensures quiet { OnOk result (W.failed writer.new ≡ W.failed writer.old) }
    ensures same { OnErr result (reporter.new ≡ reporter.old) }
    ensures fault { IfErr result (λ e. LeavesLine R.begins e reporter.old text.old.items (W.contents writer.old)
        (short_line line_bytes (bytes_of line.entry)) text.new.items (W.contents writer.new)) }
    ensures failed { IfErr result (λ e. W.failed writer.new ≡ W.failed writer.old + failed_within e) }
{
    if line.as_bytes().len() <= line_bytes {
        reporter.report(alloc, Some(line), text, writer)
    } else {
        reporter.report(alloc, None, text, writer)
    }
}
