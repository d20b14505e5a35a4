//! A run over the lines of a list, with what is around the report.
ghost use Rattle.std.specs.Prelude.{◌≡◌, ◌≢◌, ℕ, ◌+◌, ◌-◌, ◌^◌, ◌<◌, ◌≤◌, ◌++◌, List, [], true, IfErr, Ok, OnErr};
ghost use Rattle.std.specs.Prelude.{OnOk, take};
ghost use Rattle.std.specs.Io.KnownBytes.{Appends, Consumes, IsAtEnd};
ghost use Rattle.uv_lines.specs.Fault.{may_write};
ghost use Rattle.uv_lines.specs.Framed.{Ends, FailsReads, Follows, Framed, LeavesPart};
ghost use Rattle.uv_lines.specs.Reported.{Reported, ReportedPart};
ghost use Rattle.uv_lines.specs.Run.{WroteAll, writes_failed};

use crate::fault::{LineFault, StopFault};
use crate::limits::LineLimits;
use crate::reporter::Reporter;
use crate::run::run_between;
use std::alloc::Global;
use uv_io::{DeviceFault, Sink, Source, write_whole};

/// What comes before and after the report on a list.
#[derive(Clone, Copy)]
pub struct Frame<'a> {
    /// What is written before the first line is read.
    pub begin: &'a [u8],
    /// What is written after everything else, even after a fault, unless it was a failed write.
    pub end: &'a [u8],
}

impl Frame<'static> {
    /// Nothing is around the report.
    pub fn none() -> Frame<'static>
        ensures begin { result.begin.now ≡ [] }
        ensures end { result.end.now ≡ [] }
    {
        Frame {
            begin: &[],
            end: &[],
        }
    }
}

/// Has a reporter report on each line of a list, in a frame, and gives the reporter back in the state after the last
/// line.
///
/// A line ends with LF, and one CR before that isn't a part of it; a last part without LF is a line if it isn't empty.
/// The report on the lines that a read has ended is written before the next read, and no more than 262,143 bytes
/// wait when a line or a part has ended. What the reporter says after the last line is written if no fault came. The
/// frame's end is written after every fault except a failed write, even if the reporter failed between two parts of a
/// line. The writer isn't flushed. After a fault nothing is tried again, and how far the reader was read is left open.
#[tactic(none)]
pub fn run_lines<R: Source, W: Sink, T: Reporter>(
    alloc: Global,
    reader: &mut R,
    writer: &mut W,
    reporter: T,
    limits: LineLimits,
    frame: Frame<'_>,
) -> (T, Result<(), LineFault<T::Fault>>)
    requires reads { R.failed reader.old < 2 ^ 64 - 1 }
    requires writes { W.failed writer.old < 2 ^ 64 - 1 }
    requires short { limits.line_bytes ≤ 65536 }
    requires few { limits.lines ≤ 1000000000 }
    requires start { T.lines reporter ≡ 0 }
    ensures report { OnOk result.1 ((read : List ℕ)
        × Consumes (R.remaining reader.old) (R.remaining reader.new) read × IsAtEnd (R.remaining reader.new)
        × WroteAll (Framed (Reported T.reports limits.line_bytes reporter) frame.entry.begin.now
        (λ now. T.last now ++ frame.entry.end.now)) limits (W.contents writer.old) read result.0
        (W.contents writer.new)) }
    ensures fault { IfErr result.1 (λ e. (read : List ℕ)
        × Consumes (R.remaining reader.old) (R.remaining reader.new) read
        × LeavesPart (Framed (Reported T.reports limits.line_bytes reporter) frame.entry.begin.now
        (λ _. frame.entry.end.now))
        (Framed (ReportedPart T.reports T.begins limits.line_bytes reporter) frame.entry.begin.now
        (λ _. frame.entry.end.now))
        (Framed (Reported T.reports limits.line_bytes reporter) frame.entry.begin.now
        (λ now. T.last now ++ frame.entry.end.now))
        limits e (W.contents writer.old) read (IsAtEnd (R.remaining reader.new)) result.0 (W.contents writer.new)) }
    ensures failed { IfErr result.1 (λ e.
        FailsReads frame.entry.end.now e (R.failed reader.old) (R.failed reader.new)
        × (W.failed writer.new ≡ W.failed writer.old + writes_failed e)) }
    ensures quiet { OnOk result.1 ((R.failed reader.new ≡ R.failed reader.old)
        × (W.failed writer.new ≡ W.failed writer.old)) }
{
    if let Err(DeviceFault) = write_whole(writer, frame.begin) {
        return (reporter, Err(LineFault::Stop(StopFault::Write)));
    }
    let (reporter, answer) = run_between(alloc, reader, writer, reporter, limits);
    let answer = write_end(alloc, writer, &reporter, frame.end, answer);
    (reporter, answer)
}

// Writes what comes after the lines.
fn write_end<W: Sink, T: Reporter>(
    alloc: Global,
    writer: &mut W,
    reporter: &T,
    end: &[u8],
    answer: Result<(), LineFault<T::Fault>>,
) -> Result<(), LineFault<T::Fault>>
    requires { may_write answer ≡ true → W.failed writer.old < 2 ^ 64 - 1 }
    ensures { Ends (T.last reporter.now) end.now answer result (W.contents writer.old) (W.contents writer.new)
        (W.failed writer.old) (W.failed writer.new) }
{
    match answer {
        Ok(()) => match reporter.last(alloc) {
            Ok(last) => write_last(writer, last.as_bytes(), end),
            Err(fault) => follow(writer, end, Err(LineFault::Own(fault))),
        },
        Err(LineFault::Stop(StopFault::Write)) => Err(LineFault::Stop(StopFault::Write)),
        Err(fault) => follow(writer, end, Err(fault)),
    }
}

// Writes what the reporter says after the last line, and then the end.
fn write_last<W: Sink, F: Drop>(writer: &mut W, last: &[u8], end: &[u8]) -> Result<(), LineFault<F>>
    requires { W.failed writer.old < 2 ^ 64 - 1 }
    ensures { (u : Unit {0}) → Follows (last.now ++ end.now) (Ok u) result (W.contents writer.old)
        (W.contents writer.new) (W.failed writer.old) (W.failed writer.new) }
{
    match write_some(writer, last) {
        Ok(()) => follow(writer, end, Ok(())),
        Err(DeviceFault) => Err(LineFault::Stop(StopFault::Write)),
    }
}

// Writes a piece after an answer.
fn follow<W: Sink, F: Drop>(
    writer: &mut W,
    piece: &[u8],
    reported: Result<(), LineFault<F>>,
) -> Result<(), LineFault<F>>
    requires { W.failed writer.old < 2 ^ 64 - 1 }
    ensures { Follows piece.now reported result (W.contents writer.old) (W.contents writer.new) (W.failed writer.old)
        (W.failed writer.new) }
{
    match write_some(writer, piece) {
        Ok(()) => reported,
        Err(DeviceFault) => Err(LineFault::Stop(StopFault::Write)),
    }
}

// Writes a piece, unless it is empty.
fn write_some<W: Sink>(writer: &mut W, piece: &[u8]) -> Result<(), DeviceFault>
    requires { W.failed writer.old < 2 ^ 64 - 1 }
    ensures whole { OnOk result (Appends (W.contents writer.old) (W.contents writer.new) piece.now) }
    ensures quiet { OnOk result (W.failed writer.new ≡ W.failed writer.old) }
    ensures some { OnErr result (piece.now ≢ []) }
    ensures prefix { OnErr result ((n : ℕ)
        × Appends (W.contents writer.old) (W.contents writer.new) (take n piece.now)) }
    ensures failed { OnErr result (W.failed writer.new ≡ W.failed writer.old + 1) }
{
    if piece.is_empty() {
        return Ok(());
    }
    write_whole(writer, piece)
}
