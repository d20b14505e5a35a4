//! Readers and writers: bytes in pieces, the end and a read that fails between two that don't, through the bound; and
//! scripts played to their end, and past it.
ghost use Rattle.std.specs.Prelude.{◌^◌, ◌<◌, ◌+◌, ◌-◌, None};

use crate::{ScriptSink, ScriptSource};
use std::alloc::AllocError;
use std::io::{self, Read};
use uv_io::{DeviceFault, FromReader, Sink, Source};

// A reader whose second call fails; before and after that it gives one byte a call.
#[derive(Drop)]
struct Faltering {
    calls: u8,
}

impl Read for Faltering {
    fn read(&mut self, buf: &mut [u8]) -> io::Result<usize> {
        self.calls = self.calls.saturating_add(1);
        if self.calls == 2 {
            return Err(io::ErrorKind::BrokenPipe.into());
        }
        match buf.split_first_mut() {
            Some((first, _)) => {
                *first = b'a';
                Ok(1)
            }
            None => Ok(0),
        }
    }
}

// Whether one read of a piece of two bytes gives these bytes, through the bound, or fails when none are wanted.
fn gives<S: Source>(source: &mut S, wanted: Option<&[u8]>) -> bool
    requires { S.failed source.old < 2 ^ 64 - 1 }
    ensures { S.failed source.new < S.failed source.old + 2 }
{
    let mut piece = [0; 2];
    match (source.read(&mut piece), wanted) {
        (Ok(count), Some(wanted)) => &piece[..count] == wanted,
        (Err(DeviceFault), None) => true,
        _ => false,
    }
}

#[test]
fn reads_a_slice_to_its_end(rt: HostRuntime) {
    let text: &[u8] = b"abc";
    let mut source = FromReader::new(text);
    assert!(rt; gives(&mut source, Some(b"ab")));
    assert!(rt; gives(&mut source, Some(b"c")));
    assert!(rt; gives(&mut source, Some(b"")));
    assert!(rt; source.failures() == 0);
}

#[test]
fn counts_a_failed_read(rt: HostRuntime) {
    let mut source = FromReader::new(Faltering { calls: 0 });
    assert!(rt; gives(&mut source, Some(b"a")));
    assert!(rt; gives(&mut source, None));
    assert!(rt; source.failures() == 1);
    assert!(rt; gives(&mut source, Some(b"a")));
    assert!(rt; source.into_reader().calls == 3);
}

// A piece longer than the room for it comes in two reads, a failure takes nothing from what follows it, and after the
// last answer comes the end.
#[test]
fn plays_reads(rt: HostRuntime) {
    let answers: [Result<&[u8], DeviceFault>; 4] = [
        Ok(b"abc"),
        Err(DeviceFault),
        Ok(b"d"),
        Err(DeviceFault),
    ];
    let Some(mut source) = ScriptSource::new(&answers) else {
        panic!(rt; "a piece is empty");
    };
    assert!(rt; gives(&mut source, Some(b"ab")));
    assert!(rt; gives(&mut source, Some(b"c")));
    assert!(rt; gives(&mut source, None));
    assert!(rt; gives(&mut source, Some(b"d")));
    assert!(rt; gives(&mut source, None));
    assert!(rt; gives(&mut source, Some(b"")));
    assert!(rt; gives(&mut source, Some(b"")));
    assert!(rt; source.failures() == 2);
}

#[test]
fn refuses_an_empty_piece(rt: HostRuntime) {
    assert!(rt; ScriptSource::new(&[Ok(b"a"), Err(DeviceFault), Ok(b"")]).is_none());
    assert!(rt; ScriptSource::new(&[]).is_some());
}

// Whether one write through the bound takes this many of the bytes, or fails if no number is given.
fn takes<S: Sink>(sink: &mut S, bytes: &[u8], wanted: Option<usize>) -> bool
    requires { S.failed sink.old < 2 ^ 64 - 1 }
    ensures { S.failed sink.new < S.failed sink.old + 2 }
{
    match (sink.write(bytes), wanted) {
        (Ok(taken), Some(wanted)) => taken == wanted,
        (Err(DeviceFault), None) => true,
        _ => false,
    }
}

// A sink takes what its answers say, no more than its room, and after the last answer it fails.
#[test]
fn plays_writes(rt: HostRuntime) -> Result<(), AllocError> {
    let answers = [Ok(2), Err(DeviceFault), Ok(0), Ok(9), Ok(9), Ok(9)];
    let mut sink = ScriptSink::new(rt.alloc(), 5, &answers)?;
    assert!(rt; takes(&mut sink, b"abc", Some(2)));
    assert!(rt; takes(&mut sink, b"c", None));
    assert!(rt; takes(&mut sink, b"c", Some(0)));
    assert!(rt; takes(&mut sink, b"c", Some(1)));
    assert!(rt; takes(&mut sink, b"def", Some(2)));
    assert!(rt; takes(&mut sink, b"f", Some(0)));
    assert!(rt; takes(&mut sink, b"f", None));
    assert!(rt; sink.bytes() == b"abcde".as_slice());
    assert!(rt; sink.failures() == 4);
    Ok(())
}
