//! Runs over given lists, in a frame, with a reporter that says the number of each line and how many bytes it has.
ghost use Rattle.std.specs.Prelude.{◌≡◌, ℕ, ◌≤◌, ◌++◌, List, OnErr, OnOk, codes};

use std::alloc::{AllocError, Global};
use std::process::Abort;
use uv_io::{FromReader, Sink, ToWriter};
use uv_lines::{Frame, Line, LineFault, LineLimits, ReportFault, Reporter, StopFault, run_lines};

mod parts;

// Says `NUMBER:BYTES `, `NUMBER:- ` for a line that is too long, and `.` after the last line.
#[derive(Drop)]
struct Lengths {
    lines: u64,
}

impl Reporter for Lengths {
    type Fault = AllocError;

    ghost lines = { λ r. r.lines };

    ghost reports = { λ before line text after. Unit {0} };

    ghost begins = { λ before line parts. ⊥ };

    #[tactic(auto, using(uv_lines::proofs::WaitingLemmas::adds_waiting, uv_lines::proofs::WaitingLemmas::leaves_none))]
    fn report<W: Sink>(
        &mut self,
        alloc: Global,
        line: Option<Line<'_>>,
        text: &mut Vec<u8>,
        _writer: &mut W,
    ) -> Result<(), ReportFault<AllocError>> {
        match push_length(alloc, self.lines + 1, line, text) {
            Ok(()) => {
                self.lines += 1;
                Ok(())
            }
            Err(AllocError) => Err(ReportFault::Reporter(AllocError)),
        }
    }

    fn line_count(&self) -> u64 {
        self.lines
    }

    ghost last = { λ _. codes "." };

    fn last(&self, alloc: Global) -> Result<String, AllocError> {
        String::from_str(alloc, ".")
    }
}

// Appends the report on a line with this number.
fn push_length(
    alloc: Global,
    number: u64,
    line: Option<Line<'_>>,
    text: &mut Vec<u8>,
) -> Result<(), AllocError>
    ensures said { OnOk result ((said : List ℕ) × (text.new.items ≡ text.old.items ++ said)) }
    ensures none { OnErr result (text.new.items ≡ text.old.items) }
{
    let said = match line {
        Some(line) => {
            let size = line.as_bytes().len();
            format!(in alloc; "{number}:{size} ")?
        }
        None => format!(in alloc; "{number}:- ")?,
    };
    text.extend_from_slice(said.as_bytes())
}

// What a run over these bytes answers and writes, and how many lines it reported on.
fn ran(
    alloc: Global,
    bytes: &[u8],
    limits: LineLimits,
) -> (Result<(), LineFault<AllocError>>, u64, Vec<u8>)
    requires { (limits.line_bytes ≤ 65536) × (limits.lines ≤ 1000000000) }
{
    let mut reader = FromReader::new(bytes);
    let mut writer = ToWriter::new(Vec::new(alloc));
    let reporter = Lengths { lines: 0 };
    let frame = Frame {
        begin: b"<",
        end: b">",
    };
    let (reporter, answer) = run_lines(alloc, &mut reader, &mut writer, reporter, limits, frame);
    (answer, reporter.lines, writer.into_writer())
}

// Checks that a run over these bytes, whose lines may have four bytes each, gives this answer and writes this.
fn says(
    rt: &(impl Abort + AllocGlobal),
    bytes: &[u8],
    most: u64,
    answer: Result<(), LineFault<AllocError>>,
    lines: u64,
    text: &str,
)
    requires { most ≤ 1000000000 }
{
    let limits = LineLimits {
        line_bytes: 4,
        lines: most,
    };
    let (found, count, written) = ran(rt.alloc(), bytes, limits);
    assert!(rt; found == answer && count == lines);
    assert!(rt; written.as_slice() == text.as_bytes());
}

// Lists with an empty line, a CR before LF and at the end, no line, and lines of the most bytes and more.
#[test]
fn reports_on_lines_in_order(rt: HostRuntime) {
    says(&rt, b"a\n\nbcd\n", 100, Ok(()), 3, "<1:1 2:0 3:3 .>");
    says(&rt, b"a\r\n\r\nb", 100, Ok(()), 3, "<1:1 2:0 3:1 .>");
    says(&rt, b"a\r", 100, Ok(()), 1, "<1:2 .>");
    says(&rt, b"a\r\r\n", 100, Ok(()), 1, "<1:2 .>");
    says(&rt, b"", 100, Ok(()), 0, "<.>");
    let list = b"abcd\nabcde\nabcd\r\nabcde\r\n";
    says(&rt, list, 100, Ok(()), 4, "<1:4 2:- 3:4 4:- .>");
    says(&rt, b"abcdefgh", 100, Ok(()), 1, "<1:- .>");
}

// A line after the last one that may come is a fault. The reports on the lines before it are written, and the end of
// the frame, but not the text after the last line.
#[test]
fn stops_after_the_last_line_that_may_come(rt: HostRuntime) {
    let fault = Err(LineFault::Stop(StopFault::TooManyLines));
    says(&rt, b"a\nb\n", 2, Ok(()), 2, "<1:1 2:1 .>");
    says(&rt, b"a\nb\n\n", 2, fault, 2, "<1:1 2:1 >");
    says(&rt, b"a\nb\nc", 2, fault, 2, "<1:1 2:1 >");
    says(&rt, b"a\nb", 2, Ok(()), 2, "<1:1 2:1 .>");
}
