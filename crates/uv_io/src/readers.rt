//! The standard library's readers as readers of this product.
ghost use Rattle.std.specs.Prelude.{◌≡◌, ℕ, ◌+◌, ◌<◌};

use crate::stream::{DeviceFault, Source};
use std::io::Read;
use std::marker::Model;

/// A reader as a source. Contracts see the reader and how many of its reads have failed.
#[derive(Drop)]
pub struct FromReader<R> {
    reader: R,
    failures: u64,
}

impl<R> Model for FromReader<R> {
    ghost Value = { R × ℕ };

    ghost view = { λ s. (s.reader, s.failures) };
}

impl<R: Read> FromReader<R> {
    /// The reader as a source whose reads have not failed yet.
    pub fn new(reader: R) -> FromReader<R>
        ensures { result ≡ (reader, 0) }
    {
        FromReader {
            reader,
            failures: 0,
        }
    }

    /// The reader given back.
    pub fn into_reader(self) -> R
        ensures { result ≡ self.0 }
    {
        self.reader
    }
}

impl<R: Read> Source for FromReader<R> {
    ghost remaining = { λ s. R.remaining s.0 };

    ghost failed = { λ s. s.1 };

    fn read(&mut self, into: &mut [u8]) -> Result<usize, DeviceFault> {
        match self.reader.read(into) {
            Ok(given) => Ok(given),
            Err(_) => {
                self.failures += 1;
                Err(DeviceFault)
            }
        }
    }

    fn failures(&self) -> u64 {
        self.failures
    }
}
