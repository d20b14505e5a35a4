//! What the program's edge does with its writer: a flush that fails, and a pipe that is closed.
use std::io::{self, ErrorKind, Write};
use uv_cli::program::finished;
use uv_cli::{CliFault, End, WatchedWriter, status};

// A writer that takes everything, and whose flush fails like this, if it fails.
#[derive(Drop)]
struct Held {
    fails: Option<ErrorKind>,
}

impl Write for Held {
    fn write(&mut self, buf: &[u8]) -> io::Result<usize> {
        Ok(buf.len())
    }

    fn flush(&mut self) -> io::Result<()> {
        match self.fails {
            Some(kind) => Err(io::Error::from(kind)),
            None => Ok(()),
        }
    }
}

// A flush that fails is reported, with the status of a write; a closed pipe isn't mentioned.
#[test]
fn reports_a_failed_flush(rt: HostRuntime) {
    let whole = finished(End::Valid, &mut WatchedWriter::new(Held { fails: None }));
    assert!(rt; whole.end == End::Valid && !whole.is_closed);
    let fails = Some(ErrorKind::StorageFull);
    let failed = finished(End::Valid, &mut WatchedWriter::new(Held { fails }));
    assert!(rt; failed.end == End::Fault(CliFault::Write) && !failed.is_closed);
    let fails = Some(ErrorKind::BrokenPipe);
    let closed = finished(End::Refused, &mut WatchedWriter::new(Held { fails }));
    assert!(rt; status(closed.end) == 3 && closed.is_closed);
}
