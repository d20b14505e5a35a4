//! Lists, each with what a filter writes for it, worked out by hand: what to write in place of a text by the URL
//! Standard, and the line ends as they were. Each read and each write is made to fail in turn, after short ones.
ghost use Rattle.std.specs.Prelude.{◌<◌};

use crate::line_ends::line_feeds;
use scripted_streams::{ScriptSink, ScriptSource};
use std::alloc::{AllocError, Global};
use std::process::Abort;
use std::test::Fail;
use uv_filter::{FilterCounts, FilterSetting, WrittenKinds, run_filter};
use uv_io::{DeviceFault, Sink};
use uv_lines::StopFault;
use uv_model::Profile;

// No base, the standard profile, and every mended text.
const SETTING: FilterSetting<'static> = FilterSetting {
    base: None,
    profile: Profile::Standard,
    kinds: WrittenKinds::Every,
    all: false,
};

// A line of each kind, with an end of each kind, and an empty one.
const LIST: &[u8] =
    b"http://h/a\nhttp://h/a b\r\nhttp://h/a|b\nhttp:c\nhttp://h:x/\r\n\n\xff\nhttp://h/\0";

const MENDED: &[u8] =
    b"http://h/a\nhttp://h/a%20b\r\nhttp://h/a%7Cb\nhttp://c\nhttp://h:x/\r\n\n\xff\nhttp://h/";

const COUNTS: FilterCounts = FilterCounts {
    lines: 7,
    valid: 1,
    same: 3,
    escaped: 1,
    changed: 0,
    refused: 1,
    not_utf8: 1,
    too_long: 0,
};

// More writes than a run makes, each of which takes everything.
const TAKEN: [Result<usize, DeviceFault>; 100] = [Ok(1_000_000); 100];

// What a run over these reads and writes answers, its counts, and what it has written.
fn ran<'w>(
    alloc: Global,
    reads: &[Result<&[u8], DeviceFault>],
    writes: &'w [Result<usize, DeviceFault>],
) -> Result<(Result<(), StopFault>, FilterCounts, ScriptSink<'w>), Fail> {
    let mut reader = ScriptSource::new(reads).ok_or("a piece is empty")?;
    let mut writer = ScriptSink::new(alloc, 200_000, writes)?;
    let (counts, answer) = run_filter(alloc, &mut reader, &mut writer, SETTING);
    Ok((answer, counts, writer))
}

#[test]
fn mends_each_line_and_keeps_its_end(rt: HostRuntime) -> Result<(), Fail> {
    let (answer, counts, writer) = ran(rt.alloc(), &[Ok(LIST)], &TAKEN)?;
    assert!(rt; answer == Ok(()) && counts == COUNTS);
    assert!(rt; writer.bytes() == MENDED);
    Ok(())
}

// After these reads one fails: the lines that have ended, which are this many, are written, and no more.
fn fails_after(
    rt: &(impl Abort + AllocGlobal),
    reads: &[Result<&[u8], DeviceFault>],
    ended: usize,
) -> Result<(), Fail> {
    let (answer, _, writer) = ran(rt.alloc(), reads, &TAKEN)?;
    let written = writer.bytes();
    assert!(rt; answer == Err(StopFault::Read));
    assert!(rt; MENDED.starts_with(written) && line_feeds(written) == ended);
    assert!(rt; written.is_empty() || written.ends_with(b"\n"));
    Ok(())
}

// With this many pieces read before it, each read fails in turn. If none fails, everything is written.
fn fails_each_read(rt: &(impl Abort + AllocGlobal), length: usize) -> Result<(), Fail>
    requires { 0 < length }
{
    let mut reads: Vec<Result<&[u8], DeviceFault>> = Vec::new(rt.alloc());
    let mut ended = 0usize;
    for piece in LIST.chunks(length) {
        reads.push(Err(DeviceFault))?;
        fails_after(rt, &reads, ended)?;
        reads.pop();
        reads.push(Ok(piece))?;
        ended = ended.saturating_add(line_feeds(piece));
    }
    let (answer, _, writer) = ran(rt.alloc(), &reads, &TAKEN)?;
    assert!(rt; answer == Ok(()) && writer.bytes() == MENDED);
    Ok(())
}

#[test]
fn writes_the_lines_before_a_failed_read(rt: HostRuntime) -> Result<(), Fail> {
    for length in 1..8 {
        fails_each_read(&rt, length)?;
    }
    Ok(())
}

// A text with this many bytes: its start, and then spaces.
fn long_line(alloc: Global, length: usize) -> Result<Vec<u8>, AllocError> {
    let mut line = Vec::new(alloc);
    line.extend_from_slice(b"http://h/")?;
    line.resize(length, b' ')?;
    Ok(line)
}

// Whatever was read of a line that is too long is written, and the line is counted.
#[test]
fn writes_a_long_line_before_a_failed_read(rt: HostRuntime) -> Result<(), Fail> {
    let mut line = long_line(rt.alloc(), 65_538)?;
    let reads = [
        Ok(b"http://h/\n".as_slice()),
        Ok(line.as_slice()),
        Ok(b"xyz"),
        Err(DeviceFault),
    ];
    let (answer, counts, writer) = ran(rt.alloc(), &reads, &TAKEN)?;
    line.extend_from_slice(b"xyz")?;
    let written = writer.bytes();
    assert!(rt; answer == Err(StopFault::Read));
    assert!(rt; written.starts_with(b"http://h/\n") && written.ends_with(&line));
    assert!(rt; written.len() == 65_551);
    let counted = FilterCounts {
        lines: 2,
        valid: 1,
        same: 0,
        escaped: 0,
        changed: 0,
        refused: 0,
        not_utf8: 0,
        too_long: 1,
    };
    assert!(rt; counts == counted);
    Ok(())
}

// More writes than a run over the lists makes.
const MOST_WRITES: usize = 100;

// Whether the writes suffice for the whole list. If they don't, the one after them fails, and a prefix is written.
fn writes_all(
    rt: &(impl Abort + AllocGlobal),
    list: &[u8],
    want: &[u8],
    writes: &[Result<usize, DeviceFault>],
) -> Result<bool, Fail> {
    let (answer, _, writer) = ran(rt.alloc(), &[Ok(list)], writes)?;
    if answer.is_ok() {
        assert!(rt; writer.bytes() == want);
        return Ok(true);
    }
    assert!(rt; answer == Err(StopFault::Write) && writer.failures() == 1);
    assert!(rt; want.starts_with(writer.bytes()) && writer.bytes().len() < want.len());
    Ok(false)
}

// With this many short writes before it, each write fails in turn, until none does.
fn fails_each_write(
    rt: &(impl Abort + AllocGlobal),
    list: &[u8],
    want: &[u8],
    length: usize,
) -> Result<(), Fail> {
    let mut writes = Vec::new(rt.alloc());
    for _ in 0..MOST_WRITES {
        if writes_all(rt, list, want, &writes)? {
            return Ok(());
        }
        writes.push(Ok(length))?;
    }
    Err("no run was whole".into())
}

#[test]
fn reports_each_failed_write(rt: HostRuntime) -> Result<(), Fail> {
    fails_each_write(&rt, LIST, MENDED, 1)?;
    fails_each_write(&rt, LIST, MENDED, 7)?;
    fails_each_write(&rt, LIST, MENDED, 1_000)?;
    let mut list = long_line(rt.alloc(), 150_000)?;
    list.extend_from_slice(b"\nhttp://h/a\n")?;
    fails_each_write(&rt, list.as_slice(), list.as_slice(), 10_000)
}
