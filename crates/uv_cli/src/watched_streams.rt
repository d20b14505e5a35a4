//! Readers and writers that keep why a call of them failed, where the product's own only keep that it did. A reader
//! also keeps what is noticed about its bytes, and a writer whether all is flushed: only then was all of the output
//! written.
ghost use Rattle.std.specs.Prelude.{◌≡◌, false, is_ok};
ghost use Rattle.std.specs.Io.{ReadsAtMost, WritesAtMost};
ghost use Rattle.std.specs.Io.KnownBytes.{Keeps, ReadConsumes, WriteAppends};
ghost use Rattle.uv_cli.specs.Calls.{fault_after};

use crate::seen_bytes::SeenBytes;
use std::io::{self, ErrorKind, Read, Write};
use uv_messages::list_contents::Content;

/// A reader, with the kind of its last error, if a read of it has failed, and with what is noticed about the bytes that
/// were read.
#[derive(Drop)]
pub(crate) struct WatchedReader<R> {
    reader: R,
    fault: Option<ErrorKind>,
    seen: SeenBytes,
}

impl<R> WatchedReader<R> {
    /// The reader, before anything was read from it.
    pub(crate) fn new(reader: R) -> WatchedReader<R>
        ensures reader { result.reader ≡ reader }
        ensures fault { result.fault ≡ None }
    {
        WatchedReader {
            reader,
            fault: None,
            seen: SeenBytes::new(),
        }
    }

    /// The kind of the last error.
    pub(crate) fn fault(&self) -> Option<ErrorKind>
        ensures { result ≡ self.now.fault }
    {
        self.fault
    }

    /// What the bytes that were read look like, if they don't look like lines of links.
    pub(crate) fn content(&self) -> Option<Content> {
        self.seen.content()
    }
}

impl<R: Read> Read for WatchedReader<R> {
    ghost remaining = { λ w. R.remaining w.reader };

    fn read(&mut self, buf: &mut [u8]) -> io::Result<usize>
        ensures bound { ReadsAtMost result buf.new }
        ensures bytes { ReadConsumes (R.remaining self.old.reader) (R.remaining self.new.reader) result buf.new }
        ensures fault { self.new.fault ≡ fault_after self.old.fault result }
    {
        match self.reader.read(buf) {
            Ok(given) => {
                self.seen.add(&buf[..given]);
                Ok(given)
            }
            Err(error) => {
                self.fault = Some(error.kind());
                Err(error)
            }
        }
    }
}

/// A writer, with the kind of its last error, if a write or a flush of it has failed, and whether it is flushed: no
/// write came after the last flush, which didn't fail.
#[derive(Drop)]
pub struct WatchedWriter<W> {
    writer: W,
    fault: Option<ErrorKind>,
    is_flushed: bool,
}

impl<W> WatchedWriter<W> {
    /// The writer, before any call: it isn't flushed.
    pub fn new(writer: W) -> WatchedWriter<W>
        ensures { result ≡ record { writer = writer; fault = None; is_flushed = false } }
    {
        WatchedWriter {
            writer,
            fault: None,
            is_flushed: false,
        }
    }

    /// The kind of the last error.
    pub fn fault(&self) -> Option<ErrorKind>
        ensures { result ≡ self.now.fault }
    {
        self.fault
    }
}

impl<W> WatchedWriter<W> {
    /// The writer itself.
    pub(crate) fn into_writer(self) -> W
        ensures { result ≡ self.writer }
    {
        self.writer
    }
}

impl<W: Write> Write for WatchedWriter<W> {
    ghost contents = { λ w. W.contents w.writer };

    fn write(&mut self, buf: &[u8]) -> io::Result<usize>
        ensures bound { WritesAtMost result buf.now }
        ensures bytes { WriteAppends (W.contents self.old.writer) (W.contents self.new.writer) result buf.now }
        ensures fault { self.new.fault ≡ fault_after self.old.fault result }
        ensures flushed { self.new.is_flushed ≡ false }
    {
        self.is_flushed = false;
        match self.writer.write(buf) {
            Ok(taken) => Ok(taken),
            Err(error) => {
                self.fault = Some(error.kind());
                Err(error)
            }
        }
    }

    fn flush(&mut self) -> io::Result<()>
        ensures bytes { Keeps (W.contents self.old.writer) (W.contents self.new.writer) }
        ensures fault { self.new.fault ≡ fault_after self.old.fault result }
        ensures flushed { self.new.is_flushed ≡ is_ok result }
    {
        match self.writer.flush() {
            Ok(()) => {
                self.is_flushed = true;
                Ok(())
            }
            Err(error) => {
                self.is_flushed = false;
                self.fault = Some(error.kind());
                Err(error)
            }
        }
    }
}
