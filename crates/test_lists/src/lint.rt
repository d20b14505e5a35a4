//! Reports on a file over readers and writers that play a list of answers: each read and each write is made to fail in
//! turn, after short ones, and a file has too many lines. The runs of the program show what is reported on which line,
//! in each format.
ghost use Rattle.std.specs.Prelude.{◌<◌};

use crate::line_ends::line_feeds;
use scripted_streams::{ScriptSink, ScriptSource};
use std::alloc::{AllocError, Global};
use std::process::Abort;
use std::test::Fail;
use uv_io::{DeviceFault, Sink};
use uv_lines::{LineLimits, StopFault};
use uv_lint::{LineForm, LintCounts, LintSetting, run_lint, run_within};
use uv_model::{Extent, Profile};
use uv_report::{Columns, Format, Look};

const LIST: &[u8] = b"b\r\nhttp://h/\n\n\xff\nurn:a b";

// The report on it: a line at its beginning, three diagnostics and a line at its end.
const REPORT: &str = "<file name=\"list\">\n\
    <error line=\"1\" column=\"1\" severity=\"error\" message=\"there is no scheme and no base\" \
    source=\"urlcheck.no-scheme\"/>\n\
    <error line=\"4\" column=\"1\" severity=\"error\" message=\"this line isn't UTF-8\" \
    source=\"urlcheck.not-utf8\"/>\n\
    <error line=\"5\" column=\"6\" severity=\"error\" message=\"U+0020 SPACE is not allowed in a URL\" \
    source=\"urlcheck.code-point\"/>\n\
    </file>\n";

const END: &str = "</file>\n";

const SETTING: LintSetting<'static> = LintSetting {
    base: None,
    profile: Profile::Standard,
    extent: Extent::First,
    format: Format::Checkstyle,
    look: Look::Plain,
    columns: Columns::CodePoints,
    form: LineForm::Plain,
};

// More writes than a run makes, each of which takes everything.
const TAKEN: [Result<usize, DeviceFault>; 100] = [Ok(1_000_000); 100];

// What a run over these reads and writes answers, how many lines it has checked and refused, and what it has written.
fn ran<'w>(
    alloc: Global,
    reads: &[Result<&[u8], DeviceFault>],
    writes: &'w [Result<usize, DeviceFault>],
    setting: LintSetting<'_>,
) -> Result<(Result<(), StopFault>, (u64, u64), ScriptSink<'w>), Fail> {
    let mut reader = ScriptSource::new(reads).ok_or("a piece is empty")?;
    let mut writer = ScriptSink::new(alloc, 1_000_000, writes)?;
    let (counts, answer) = run_lint(alloc, &mut reader, &mut writer, "list", true, setting);
    Ok((answer, counts_of(counts), writer))
}

// How many lines are checked and refused.
fn counts_of(counts: LintCounts) -> (u64, u64) {
    (counts.lines, counts.refused)
}

// How many lines are checked, and how many refused, among this many of the list's first lines.
fn counts_on(lines: usize) -> (u64, u64) {
    match lines {
        0 => (0, 0),
        1 => (1, 1),
        2 | 3 => (2, 1),
        4 => (3, 2),
        _ => (4, 3),
    }
}

// What is before the report's end.
fn before_end(report: &[u8]) -> &[u8] {
    report
        .get(..report.len().saturating_sub(END.len()))
        .unwrap_or(&[])
}

// Checks that a run over these reads gives this answer, and writes the report on this many lines, with its end.
fn answers(
    rt: &(impl Abort + AllocGlobal),
    reads: &[Result<&[u8], DeviceFault>],
    want: Result<(), StopFault>,
    lines: usize,
) -> Result<(), Fail> {
    let (answer, counts, writer) = ran(rt.alloc(), reads, &TAKEN, SETTING)?;
    let written = before_end(writer.bytes());
    assert!(rt; answer == want && counts == counts_on(lines));
    assert!(rt; writer.bytes().ends_with(END.as_bytes()));
    assert!(rt; REPORT.as_bytes().starts_with(written) && written.ends_with(b">\n"));
    assert!(rt; line_feeds(written) as u64 == counts.1.saturating_add(1));
    Ok(())
}

// With this many pieces read before it, each read fails in turn: the report on the lines that have ended is written,
// with its end. If none fails, the report is whole.
fn fails_each_read(rt: &(impl Abort + AllocGlobal), length: usize) -> Result<(), Fail>
    requires { 0 < length }
{
    let mut reads: Vec<Result<&[u8], DeviceFault>> = Vec::new(rt.alloc());
    let mut ended = 0usize;
    for piece in LIST.chunks(length) {
        reads.push(Err(DeviceFault))?;
        answers(rt, &reads, Err(StopFault::Read), ended)?;
        reads.pop();
        reads.push(Ok(piece))?;
        ended = ended.saturating_add(line_feeds(piece));
    }
    answers(rt, &reads, Ok(()), 5)
}

#[test]
fn ends_the_report_after_each_failed_read(rt: HostRuntime) -> Result<(), Fail> {
    for length in 1..8 {
        fails_each_read(&rt, length)?;
    }
    Ok(())
}

// More writes than a run over the list makes.
const MOST_WRITES: usize = 800;

// Whether the writes suffice for the whole report. If they don't, the one after them fails, and a beginning of the
// report is written.
fn writes_all(
    rt: &(impl Abort + AllocGlobal),
    writes: &[Result<usize, DeviceFault>],
) -> Result<bool, Fail> {
    let (answer, _, writer) = ran(rt.alloc(), &[Ok(LIST)], writes, SETTING)?;
    if answer.is_ok() {
        assert!(rt; writer.bytes() == REPORT.as_bytes());
        return Ok(true);
    }
    assert!(rt; answer == Err(StopFault::Write) && writer.failures() == 1);
    assert!(rt; REPORT.as_bytes().starts_with(writer.bytes()));
    assert!(rt; writer.bytes().len() < REPORT.len());
    Ok(false)
}

// With this many short writes before it, each write fails in turn, until none does.
fn fails_each_write(rt: &(impl Abort + AllocGlobal), length: usize) -> Result<(), Fail> {
    let mut writes = Vec::new(rt.alloc());
    for _ in 0..MOST_WRITES {
        if writes_all(rt, &writes)? {
            return Ok(());
        }
        writes.push(Ok(length))?;
    }
    Err("no run was whole".into())
}

#[test]
fn reports_each_failed_write(rt: HostRuntime) -> Result<(), Fail> {
    fails_each_write(&rt, 1)?;
    fails_each_write(&rt, 7)?;
    fails_each_write(&rt, 60)?;
    fails_each_write(&rt, 1_000)
}

// The end fails after a failed read: the failed write is reported, and the counts are of the lines before.
#[test]
fn reports_a_failed_write_after_a_failed_read(rt: HostRuntime) -> Result<(), Fail> {
    let reads = [Ok(b"b\nurn".as_slice()), Err(DeviceFault)];
    let writes = [Ok(1_000), Ok(1_000), Ok(4)];
    let (answer, counts, writer) = ran(rt.alloc(), &reads, &writes, SETTING)?;
    assert!(rt; answer == Err(StopFault::Write) && counts == (1, 1));
    let written = writer.bytes();
    assert!(rt; written.ends_with(b"</fi") && line_feeds(written) == 2);
    let lines = written
        .get(..written.len().saturating_sub(4))
        .unwrap_or(&[]);
    assert!(rt; REPORT.as_bytes().starts_with(lines) && lines.ends_with(b"\n"));
    Ok(())
}

// A line with a scheme and then this many carets.
fn line_of_carets(alloc: Global, count: usize) -> Result<Vec<u8>, AllocError> {
    let mut line = Vec::new(alloc);
    line.extend_from_slice(b"urn:")?;
    line.resize(count, b'^')?;
    Ok(line)
}

// If each code point of a line is wrong, its first diagnostics are written before the others are said. If the second
// write fails, what the first one has written is whole diagnostics, and the line isn't counted.
#[test]
fn writes_a_long_line_in_parts(rt: HostRuntime) -> Result<(), Fail> {
    let line = line_of_carets(rt.alloc(), 6_999)?;
    let reads = [Ok(line.as_slice())];
    let all = LintSetting {
        extent: Extent::All,
        format: Format::Gnu,
        ..SETTING
    };
    let (whole, counted, report) = ran(rt.alloc(), &reads, &TAKEN, all)?;
    assert!(rt; whole == Ok(()) && counted == (1, 1));
    let (answer, counts, writer) = ran(rt.alloc(), &reads, &[Ok(1_000_000)], all)?;
    assert!(rt; answer == Err(StopFault::Write) && counts == (0, 0));
    let written = writer.bytes();
    assert!(rt; report.bytes().starts_with(written) && written.ends_with(b"[code-point]\n"));
    assert!(rt; written.len() >= 262_144 && written.len() < 262_300);
    Ok(())
}

// Checks that a run over the file, which may have two lines of three bytes each, gives this answer after a report on
// the first line.
fn stops(
    rt: &(impl Abort + AllocGlobal),
    bytes: &[u8],
    want: Result<(), StopFault>,
) -> Result<(), Fail> {
    let reads = [Ok(bytes)];
    let mut reader = ScriptSource::new(&reads).ok_or("a piece is empty")?;
    let mut writer = ScriptSink::new(rt.alloc(), 1_000, &TAKEN)?;
    let limits = LineLimits {
        line_bytes: 3,
        lines: 2,
    };
    let (counts, answer) = run_within(
        rt.alloc(),
        &mut reader,
        &mut writer,
        "list",
        true,
        SETTING,
        limits,
    );
    assert!(rt; answer == want && counts_of(counts) == (1, 1));
    let report = "<file name=\"list\">\n<error line=\"1\" column=\"1\" severity=\"error\" \
        message=\"this line has more than 65536 bytes\" source=\"urlcheck.line-too-long\"/>\n</file>\n";
    assert!(rt; writer.bytes() == report.as_bytes());
    Ok(())
}

// A line after the last one that may come is a fault, and the file's end is written.
#[test]
fn stops_after_the_last_line_that_may_come(rt: HostRuntime) -> Result<(), Fail> {
    stops(&rt, b"abcd\n\n", Ok(()))?;
    stops(&rt, b"abcd\n\nb\n", Err(StopFault::TooManyLines))?;
    stops(&rt, b"abcd\n\n\n", Err(StopFault::TooManyLines))?;
    stops(&rt, b"abcd\n\nb", Err(StopFault::TooManyLines))
}
