//! The report on a list, and on one line, is written in parts.
ghost use Rattle.std.specs.Prelude.{◌≡◌, ℕ, ◌+◌, ◌-◌, ◌^◌, ◌<◌, ◌⊎◌, ◌++◌, List, None, [], IfErr, OnOk};
ghost use Rattle.uv_lines.specs.Fault.{failed_within};
ghost use Rattle.uv_lines.specs.Waiting.{LeavesParts, Passes};

use std::alloc::{AllocError, Global};
use std::process::Abort;
use std::test::Fail;
use uv_io::{DeviceFault, FromReader, Sink};
use uv_lines::{
    Frame, Line, LineFault, LineLimits, ReportFault, Reporter, StopFault, end_part, run_lines,
};

// Says this many parts about a line, and then either can't go on or has said everything. The first part is one digit
// further than the first part of the line before.
#[derive(Drop)]
struct Thousands {
    lines: u64,
    parts: u64,
    is_whole: bool,
}

impl Reporter for Thousands {
    type Fault = AllocError;

    ghost lines = { λ r. r.lines };

    ghost reports = { λ before line text after. Unit {0} };

    ghost begins = { λ before line parts. Unit {0} };

    fn report<W: Sink>(
        &mut self,
        _alloc: Global,
        _line: Option<Line<'_>>,
        text: &mut Vec<u8>,
        writer: &mut W,
    ) -> Result<(), ReportFault<AllocError>> {
        if let Err(fault) = say_parts(self.lines, self.parts, text, writer) {
            return Err(fault);
        }
        if !self.is_whole {
            return Err(ReportFault::Reporter(AllocError));
        }
        self.lines += 1;
        Ok(())
    }

    fn line_count(&self) -> u64 {
        self.lines
    }

    ghost last = { λ _. [] };

    fn last(&self, alloc: Global) -> Result<String, AllocError> {
        Ok(String::new(alloc))
    }
}

// Says this many parts, from this one on.
fn say_parts<W: Sink>(
    first: u64,
    count: u64,
    text: &mut Vec<u8>,
    writer: &mut W,
) -> Result<(), ReportFault<AllocError>>
    requires { W.failed writer.old < 2 ^ 64 - 1 }
    ensures said { OnOk result ((said : List ℕ) × Passes (text.old.items ++ said) (W.contents writer.old)
        (W.contents writer.new) text.new.items) }
    ensures quiet { OnOk result (W.failed writer.new ≡ W.failed writer.old) }
    ensures fault { IfErr result (λ e. LeavesParts (λ parts. (parts ≡ []) ⊎ Unit {0}) e text.old.items
        (W.contents writer.old) text.new.items (W.contents writer.new)) }
    ensures failed { IfErr result (λ e. W.failed writer.new ≡ W.failed writer.old + failed_within e) }
{
    for part in 0..count {
        if let Err(fault) = say_part(first.wrapping_add(part), text, writer) {
            return Err(fault);
        }
    }
    Ok(())
}

// Says a part, and ends it.
fn say_part<W: Sink>(
    part: u64,
    text: &mut Vec<u8>,
    writer: &mut W,
) -> Result<(), ReportFault<AllocError>>
    requires { W.failed writer.old < 2 ^ 64 - 1 }
    ensures said { OnOk result ((said : List ℕ) × Passes (text.old.items ++ said) (W.contents writer.old)
        (W.contents writer.new) text.new.items) }
    ensures quiet { OnOk result (W.failed writer.new ≡ W.failed writer.old) }
    ensures fault { IfErr result (λ e. LeavesParts (λ parts. (parts ≡ []) ⊎ Unit {0}) e text.old.items
        (W.contents writer.old) text.new.items (W.contents writer.new)) }
    ensures failed { IfErr result (λ e. W.failed writer.new ≡ W.failed writer.old + failed_within e) }
{
    if let Err(AllocError) = text.extend_from_slice(&part_bytes(part)) {
        return Err(ReportFault::Reporter(AllocError));
    }
    match end_part(text, writer) {
        Ok(()) => Ok(()),
        Err(DeviceFault) => Err(ReportFault::Write),
    }
}

// A part: one digit, a thousand times.
fn part_bytes(part: u64) -> [u8; 1_000] {
    [b"0123456789"[(part % 10) as usize]; 1_000]
}

// Takes this many pieces whole and then fails. It keeps what it took, and the most bytes that came at once.
#[derive(Drop)]
struct Pieces {
    room: u32,
    most: usize,
    text: Vec<u8>,
    failures: u64,
}

impl Sink for Pieces {
    ghost contents = { λ _. None };

    ghost failed = { λ s. s.failures };

    fn write(&mut self, from: &[u8]) -> Result<usize, DeviceFault> {
        self.most = self.most.max(from.len());
        if self.room == 0 || self.text.extend_from_slice(from).is_err() {
            self.failures += 1;
            return Err(DeviceFault);
        }
        self.room -= 1;
        Ok(from.len())
    }

    fn failures(&self) -> u64 {
        self.failures
    }
}

// What a run over a list answers, how many lines it reported on, and what was written.
fn ran(
    alloc: Global,
    list: &[u8],
    reporter: Thousands,
    room: u32,
) -> (Result<(), LineFault<AllocError>>, u64, Pieces)
    requires { reporter.lines ≡ 0 }
{
    let limits = LineLimits {
        line_bytes: 4,
        lines: 2_000,
    };
    let frame = Frame {
        begin: b"<",
        end: b">",
    };
    let mut reader = FromReader::new(list);
    let mut writer = Pieces {
        room,
        most: 0,
        text: Vec::new(alloc),
        failures: 0,
    };
    let (reporter, answer) = run_lines(alloc, &mut reader, &mut writer, reporter, limits, frame);
    (answer, reporter.lines, writer)
}

// This many parts in the frame.
fn framed(alloc: Global, parts: u64) -> Result<Vec<u8>, AllocError> {
    let mut text = Vec::new(alloc);
    text.push(b'<')?;
    for part in 0..parts {
        text.extend_from_slice(&part_bytes(part))?;
    }
    text.push(b'>')?;
    Ok(text)
}

// Checks that a run over a list with this many parts for each line gives this answer after this many writes, reports on
// this many lines, and writes this. Gives the most bytes that came at once, and how many writes failed.
fn leaves(
    rt: &(impl Abort + AllocGlobal),
    (list, parts, is_whole, room): (&[u8], u64, bool, u32),
    answer: Result<(), LineFault<AllocError>>,
    lines: u64,
    text: Option<&[u8]>,
) -> (usize, u64) {
    let reporter = Thousands {
        lines: 0,
        parts,
        is_whole,
    };
    let (found, count, writer) = ran(rt.alloc(), list, reporter, room);
    assert!(rt; found == answer && count == lines);
    assert!(rt; Some(writer.text.as_slice()) == text);
    (writer.most, writer.failures)
}

// The reports on 2,000 lines of one piece are 2,000,000 bytes, and so is the report on one line, even if no LF ends it.
// It is written in order whenever 262,144 bytes or more wait, which are the 263,000 of 263 parts.
#[test]
fn writes_what_is_much_in_the_midst_of_a_piece_and_of_a_line(rt: HostRuntime) -> Result<(), Fail> {
    let whole = framed(rt.alloc(), 2_000)?;
    let text = Some(whole.as_slice());
    let lines = [b'\n'; 2_000];
    let ends = leaves(&rt, (&lines, 1, true, 100), Ok(()), 2_000, text);
    assert!(rt; ends == (263_000, 0));
    let ends = leaves(&rt, (b"\n", 2_000, true, 100), Ok(()), 1, text);
    assert!(rt; ends == (263_000, 0));
    let ends = leaves(&rt, (b"a", 2_000, true, 100), Ok(()), 1, text);
    assert!(rt; ends == (263_000, 0));
    Ok(())
}

// After this many writes one fails. What was taken before it is a prefix, and nothing is written after it.
fn stops(
    rt: &(impl Abort + AllocGlobal),
    list: &[u8],
    whole: &[u8],
    (room, taken, lines): (u32, usize, u64),
) {
    let text = whole.get(..taken);
    let (_, failures) = leaves(
        rt,
        (list, 2_000, true, room),
        Err(LineFault::Stop(StopFault::Write)),
        lines,
        text,
    );
    assert!(rt; failures == 1);
}

// Each write of a list of one line fails in turn. Those within the line fail before it is counted; the last two, of
// what waits at the piece's end and of the frame's end, after that.
fn stops_at_each_write(rt: &(impl Abort + AllocGlobal), list: &[u8], whole: &[u8]) {
    stops(rt, list, whole, (0, 0, 0));
    stops(rt, list, whole, (1, 1, 0));
    stops(rt, list, whole, (2, 263_001, 0));
    stops(rt, list, whole, (7, 1_578_001, 0));
    stops(rt, list, whole, (8, 1_841_001, 1));
    stops(rt, list, whole, (9, 2_000_001, 1));
}

#[test]
fn stops_at_each_write_that_fails(rt: HostRuntime) -> Result<(), Fail> {
    let whole = framed(rt.alloc(), 2_000)?;
    stops_at_each_write(&rt, b"\n", whole.as_slice());
    stops_at_each_write(&rt, b"a", whole.as_slice());
    Ok(())
}

// If no memory is left after this many parts of a line, these are written, and the frame's end. The line isn't counted.
fn writes_parts(
    rt: &(impl Abort + AllocGlobal),
    list: &[u8],
    parts: u64,
) -> Result<(), AllocError> {
    let want = framed(rt.alloc(), parts)?;
    let fault = Err(LineFault::Own(AllocError));
    let text = Some(want.as_slice());
    let (_, failures) = leaves(rt, (list, parts, false, 100), fault, 0, text);
    assert!(rt; failures == 0);
    Ok(())
}

#[test]
fn writes_the_parts_before_a_fault_in_the_midst_of_a_line(rt: HostRuntime) -> Result<(), Fail> {
    writes_parts(&rt, b"\n", 400)?;
    writes_parts(&rt, b"a", 400)?;
    writes_parts(&rt, b"\n", 1)?;
    writes_parts(&rt, b"\n", 0)?;
    Ok(())
}

// Checks that when a part of this many bytes ends, this many of them are written, or the write fails.
fn ends(
    rt: &(impl Abort + AllocGlobal),
    size: usize,
    room: u32,
    answer: Result<(), DeviceFault>,
    taken: usize,
) -> Result<(), AllocError> {
    let mut text = vec![in rt.alloc(); b'.'; size]?;
    let mut writer = Pieces {
        room,
        most: 0,
        text: Vec::new(rt.alloc()),
        failures: 0,
    };
    assert!(rt; end_part(&mut text, &mut writer) == answer);
    assert!(rt; writer.text.len() == taken);
    assert!(rt; text.len().saturating_add(taken) == size);
    Ok(())
}

// Of 262,143 bytes nothing is written when a part ends. With one more, all are written and none waits, or the write
// fails.
#[test]
fn ends_a_part_of_much(rt: HostRuntime) -> Result<(), Fail> {
    ends(&rt, 262_143, 0, Ok(()), 0)?;
    ends(&rt, 262_144, 1, Ok(()), 262_144)?;
    ends(&rt, 262_144, 0, Err(DeviceFault), 0)?;
    Ok(())
}
