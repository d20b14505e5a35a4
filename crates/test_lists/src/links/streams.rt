//! Runs over readers and writers that play a list of answers: I/O errors, and each read and each write made to fail in
//! turn, after short ones, in each profile.
ghost use Rattle.std.specs.Prelude.{◌<◌};

use crate::line_ends::line_feeds;
use scripted_streams::{ScriptSink, ScriptSource};
use std::alloc::Global;
use std::process::Abort;
use std::test::Fail;
use uv_io::{DeviceFault, Sink};
use uv_lines::StopFault;
use uv_links::{Counts, LinkFault, LinkLimits, run_links};
use uv_model::Profile;
use uv_resolve::resolve_base;

// A list, the base of its run, the longest line and how many may come, the profile, and the report on it.
#[derive(Clone, Copy)]
struct Row<'r> {
    list: &'r [u8],
    base: Option<&'r str>,
    line_bytes: usize,
    lines: u64,
    profile: Profile,
    report: &'r str,
}

// A list of lines that are checked without a base.
const ALONE: Row<'static> = Row {
    list: b"",
    base: None,
    line_bytes: 65_536,
    lines: 1_000_000_000,
    profile: Profile::Standard,
    report: "",
};

const ROWS: [Row<'static>; 8] = [
    Row {
        list: b"a\n\nhttp://x_y/\n",
        base: Some("http://h/"),
        line_bytes: 65_536,
        lines: 1_000_000_000,
        profile: Profile::Standard,
        report: "1 ok http://h/a\n2 ok http://h/\n3 bad 7 host-domain\nlinks 3 ok 2 bad 1 differs 0\n",
    },
    Row {
        list: b"a\n\nhttp://x_y/\n",
        base: Some("http://h/"),
        line_bytes: 65_536,
        lines: 1_000_000_000,
        profile: Profile::Wide,
        report: "1 ok http://h/a\n2 ok http://h/\n3 ok http://x_y/\nlinks 3 ok 3 bad 0 differs 0\n",
    },
    Row {
        list: b"a\r\n\xff\nb",
        base: None,
        line_bytes: 65_536,
        lines: 1_000_000_000,
        profile: Profile::Standard,
        report: "1 bad 0 no-scheme\n2 bad 0 not-utf8\n3 bad 0 no-scheme\nlinks 3 ok 0 bad 3 differs 0\n",
    },
    Row {
        list: b"a\r\n\xff\nb",
        base: None,
        line_bytes: 65_536,
        lines: 1_000_000_000,
        profile: Profile::Wide,
        report: "1 bad 0 no-scheme\n2 bad 0 not-utf8\n3 bad 0 no-scheme\nlinks 3 ok 0 bad 3 differs 0\n",
    },
    Row {
        list: b"abcd\nabc\r\n",
        base: Some("http://h/"),
        line_bytes: 3,
        lines: 1_000_000_000,
        profile: Profile::Standard,
        report: "1 bad 0 line-too-long\n2 ok http://h/abc\nlinks 2 ok 1 bad 1 differs 0\n",
    },
    Row {
        list: b"abcd\nabc\r\n",
        base: Some("http://h/"),
        line_bytes: 3,
        lines: 1_000_000_000,
        profile: Profile::Wide,
        report: "1 bad 0 line-too-long\n2 ok http://h/abc\nlinks 2 ok 1 bad 1 differs 0\n",
    },
    Row {
        list: b"a\n\nhttp://%68/\nurn:a b\n",
        base: Some("http://h/"),
        line_bytes: 65_536,
        lines: 1_000_000_000,
        profile: Profile::Parser,
        report: "1 ok http://h/a\n2 ok http://h/\n3 ok http://h/\n4 ok urn:a b\nlinks 4 ok 4 bad 0 differs 0\n",
    },
    Row {
        list: b"http://256/\nhttp://1.2/",
        base: None,
        line_bytes: 65_536,
        lines: 1_000_000_000,
        profile: Profile::Parser,
        report: "1 bad 7 host-number\n2 ok http://1.0.0.2/\nlinks 2 ok 1 bad 1 differs 0\n",
    },
];

// More writes than a run makes, each of which takes everything.
const TAKEN: [Result<usize, DeviceFault>; 100] = [Ok(1_000); 100];

// What a run over these reads and writes answers, with the base, limits and profile of the row, and what it has
// written.
fn ran<'w>(
    alloc: Global,
    row: &Row<'_>,
    reads: &[Result<&[u8], DeviceFault>],
    writes: &'w [Result<usize, DeviceFault>],
) -> Result<(Result<Counts, LinkFault>, ScriptSink<'w>), Fail> {
    let base = resolve_base(alloc, row.base, row.profile)?;
    let limits = LinkLimits::new(row.line_bytes, row.lines).ok_or("the limits are refused")?;
    let mut reader = ScriptSource::new(reads).ok_or("a piece is empty")?;
    let mut writer = ScriptSink::new(alloc, 1_000, writes)?;
    let answer = run_links(
        alloc,
        &mut reader,
        &mut writer,
        base.as_ref(),
        limits,
        row.profile,
    );
    Ok((answer, writer))
}

#[test]
fn reports_a_list_written_out(rt: HostRuntime) -> Result<(), Fail> {
    let row = &ROWS[0];
    let (answer, writer) = ran(rt.alloc(), row, &[Ok(row.list)], &TAKEN)?;
    let counts = Counts {
        lines: 3,
        ok: 2,
        bad: 1,
        differs: 0,
    };
    assert!(rt; answer == Ok(counts));
    assert!(rt; writer.bytes() == row.report.as_bytes());
    Ok(())
}

// After these reads one fails: the report's lines on the lines that have ended, which are this many, are written, and
// no more.
fn fails_after(
    rt: &(impl Abort + AllocGlobal),
    row: &Row<'_>,
    reads: &[Result<&[u8], DeviceFault>],
    ended: usize,
) -> Result<(), Fail> {
    let (answer, writer) = ran(rt.alloc(), row, reads, &TAKEN)?;
    let written = writer.bytes();
    assert!(rt; answer == Err(LinkFault::Stop(StopFault::Read)));
    assert!(rt; row.report.as_bytes().starts_with(written) && line_feeds(written) == ended);
    assert!(rt; written.is_empty() || written.ends_with(b"\n"));
    Ok(())
}

// With this many pieces read before it, each read fails in turn. If none fails, the report is whole.
fn fails_each_read(
    rt: &(impl Abort + AllocGlobal),
    row: &Row<'_>,
    length: usize,
) -> Result<(), Fail>
    requires { 0 < length }
{
    let mut reads: Vec<Result<&[u8], DeviceFault>> = Vec::new(rt.alloc());
    let mut ended = 0usize;
    for piece in row.list.chunks(length) {
        reads.push(Err(DeviceFault))?;
        fails_after(rt, row, &reads, ended)?;
        reads.pop();
        reads.push(Ok(piece))?;
        ended = ended.saturating_add(line_feeds(piece));
    }
    let (answer, writer) = ran(rt.alloc(), row, &reads, &TAKEN)?;
    assert!(rt; answer.is_ok() && writer.bytes() == row.report.as_bytes());
    Ok(())
}

// Each read fails in turn after pieces of one length, for each length from 1 to 7 bytes.
fn fails_reads(rt: &(impl Abort + AllocGlobal), row: &Row<'_>) -> Result<(), Fail> {
    for length in 1..8 {
        fails_each_read(rt, row, length)?;
    }
    Ok(())
}

#[test]
fn reports_each_failed_read(rt: HostRuntime) -> Result<(), Fail> {
    for row in &ROWS {
        fails_reads(&rt, row)?;
    }
    Ok(())
}

// More writes than a run of the rows makes.
const MOST_WRITES: usize = 200;

// Whether the writes suffice for the whole report. If they don't, the one after them fails, and a beginning of the
// report is written.
fn writes_all(
    rt: &(impl Abort + AllocGlobal),
    row: &Row<'_>,
    reads: &[Result<&[u8], DeviceFault>],
    writes: &[Result<usize, DeviceFault>],
) -> Result<bool, Fail> {
    let (answer, writer) = ran(rt.alloc(), row, reads, writes)?;
    if answer.is_ok() {
        assert!(rt; writer.bytes() == row.report.as_bytes());
        return Ok(true);
    }
    assert!(rt; answer == Err(LinkFault::Stop(StopFault::Write)) && writer.failures() == 1);
    assert!(rt; row.report.as_bytes().starts_with(writer.bytes()));
    assert!(rt; writes.len() <= writer.bytes().len());
    Ok(false)
}

// With this many short writes before it, each write fails in turn, until none does.
fn fails_each_write(
    rt: &(impl Abort + AllocGlobal),
    row: &Row<'_>,
    reads: &[Result<&[u8], DeviceFault>],
    length: usize,
) -> Result<(), Fail> {
    let mut writes = Vec::new(rt.alloc());
    for _ in 0..MOST_WRITES {
        if writes_all(rt, row, reads, &writes)? {
            return Ok(());
        }
        writes.push(Ok(length))?;
    }
    Err("no run was whole".into())
}

// Each write fails in turn, with pieces of this many bytes read and written.
fn fails_pieces(rt: &(impl Abort + AllocGlobal), row: &Row<'_>, length: usize) -> Result<(), Fail>
    requires { 0 < length }
{
    let mut reads: Vec<Result<&[u8], DeviceFault>> = Vec::new(rt.alloc());
    for piece in row.list.chunks(length) {
        reads.push(Ok(piece))?;
    }
    fails_each_write(rt, row, &reads, length)
}

// Each write fails in turn, for pieces of each length from 1 to 7 bytes.
fn fails_writes(rt: &(impl Abort + AllocGlobal), row: &Row<'_>) -> Result<(), Fail> {
    for length in 1..8 {
        fails_pieces(rt, row, length)?;
    }
    Ok(())
}

#[test]
fn reports_each_failed_write(rt: HostRuntime) -> Result<(), Fail> {
    for row in &ROWS {
        fails_writes(&rt, row)?;
    }
    Ok(())
}

// Checks that a run over these reads and writes gives this answer and writes the report of the row, under the standard
// profile and the wide one.
fn ends(
    rt: &(impl Abort + AllocGlobal),
    row: Row<'_>,
    reads: &[Result<&[u8], DeviceFault>],
    writes: &[Result<usize, DeviceFault>],
    fault: Option<LinkFault>,
) -> Result<(), Fail> {
    let wide = Row {
        profile: Profile::Wide,
        ..row
    };
    for row in [row, wide] {
        let (answer, writer) = ran(rt.alloc(), &row, reads, writes)?;
        assert!(rt; answer.err() == fault && writer.bytes() == row.report.as_bytes());
    }
    Ok(())
}

// A read that fails within a line, a line cut within a code point, and lines that are too long.
#[test]
fn reads_what_a_source_gives(rt: HostRuntime) -> Result<(), Fail> {
    let begun = Row {
        report: "1 bad 0 no-scheme\n",
        ..ALONE
    };
    let reads = [Ok(b"a\n".as_slice()), Ok(b"b"), Err(DeviceFault)];
    ends(
        &rt,
        begun,
        &reads,
        &TAKEN,
        Some(LinkFault::Stop(StopFault::Read)),
    )?;
    let cut = Row {
        report: "1 ok http://h/%C3%A9\nlinks 1 ok 1 bad 0 differs 0\n",
        ..ALONE
    };
    let reads = [Ok(b"http://h/\xc3".as_slice()), Ok(b"\xa9\n")];
    ends(&rt, cut, &reads, &TAKEN, None)?;
    let long = Row {
        base: Some("http://h/"),
        line_bytes: 3,
        report: "1 bad 0 line-too-long\nlinks 1 ok 0 bad 1 differs 0\n",
        ..ALONE
    };
    ends(&rt, long, &[Ok(b"abc\r")], &TAKEN, None)?;
    ends(&rt, long, &[Ok(b"\xff\xff\xff\xff\n")], &TAKEN, None)
}

// A line after the last one that may come is a fault.
#[test]
fn stops_after_the_last_line_that_may_come(rt: HostRuntime) -> Result<(), Fail> {
    let one = Row {
        base: Some("http://h/"),
        line_bytes: 3,
        lines: 1,
        report: "1 bad 0 line-too-long\n",
        ..ALONE
    };
    let fault = Some(LinkFault::Stop(StopFault::TooManyLines));
    ends(&rt, one, &[Ok(b"abcd\nabc\r\n")], &TAKEN, fault)?;
    let none = Row {
        line_bytes: 0,
        lines: 0,
        ..ALONE
    };
    ends(&rt, none, &[Ok(b"\n")], &TAKEN, fault)?;
    let whole = Row {
        report: "links 0 ok 0 bad 0 differs 0\n",
        ..none
    };
    ends(&rt, whole, &[], &TAKEN, None)
}

// A sink that takes one byte a call and fails after 20, and one that takes none.
#[test]
fn writes_what_a_sink_takes(rt: HostRuntime) -> Result<(), Fail> {
    let begun = Row {
        report: "1 bad 0 no-scheme\nli",
        ..ALONE
    };
    let fault = Some(LinkFault::Stop(StopFault::Write));
    ends(&rt, begun, &[Ok(b"a\n")], &[Ok(1); 20], fault)?;
    ends(&rt, ALONE, &[Ok(b"a\n")], &[Ok(0)], fault)
}
