//! The bytes of a vector file, or why there are none.
ghost use Rattle.uv_cli.specs.VectorFile.{IsFault};

use std::fs;
use std::fs::Files;
use std::io::{self, ErrorKind, Read};
use uv_vectors::MOST_BYTES;

/// Why there are no bytes of a file.
#[derive(Clone, Copy, PartialEq, Eq)]
pub(crate) enum FileFault {
    /// Memory ran out.
    Memory,
    /// It can't be opened, or a read failed, because of an error of this kind.
    Unread(ErrorKind),
}

impl FileFault {
    /// Why there are no bytes, by the kind of the error that the library gave.
    pub(crate) fn of(kind: ErrorKind) -> FileFault
        ensures { IsFault kind result }
    {
        match kind {
            ErrorKind::OutOfMemory => FileFault::Memory,
            kind => FileFault::Unread(kind),
        }
    }
}

/// Reads a vector file. If it is larger than it may be, only one byte more than the limit is read, which shows that.
pub(crate) fn read_vector_file<R: Files + AllocGlobal>(
    rt: &R,
    path: &str,
) -> Result<Vec<u8>, FileFault> {
    match first_bytes(rt, path) {
        Ok(bytes) => Ok(bytes),
        Err(error) => Err(FileFault::of(error.kind())),
    }
}

// The bytes of a file up to the first that are too many.
fn first_bytes<R: Files + AllocGlobal>(rt: &R, path: &str) -> io::Result<Vec<u8>> {
    let mut bytes = Vec::new(rt.alloc());
    fs::open(rt, path)?
        .take(MOST_BYTES as u64 + 1)
        .read_to_end(&mut bytes)?;
    Ok(bytes)
}
