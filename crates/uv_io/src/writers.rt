//! The standard library's writers as writers of this product.
ghost use Rattle.std.specs.Prelude.{◌≡◌, ℕ, ◌+◌, ◌<◌};

use crate::stream::{DeviceFault, Sink};
use std::io::Write;
use std::marker::Model;

/// A writer as a sink. Contracts see the writer and how many of its writes have failed.
#[derive(Drop)]
pub struct ToWriter<W> {
    writer: W,
    failures: u64,
}

impl<W> Model for ToWriter<W> {
    ghost Value = { W × ℕ };

    ghost view = { λ s. (s.writer, s.failures) };
}

impl<W: Write> ToWriter<W> {
    /// The writer as a sink whose writes have not failed yet.
    pub fn new(writer: W) -> ToWriter<W>
        ensures { result ≡ (writer, 0) }
    {
        ToWriter {
            writer,
            failures: 0,
        }
    }

    /// The writer given back.
    pub fn into_writer(self) -> W
        ensures { result ≡ self.0 }
    {
        self.writer
    }
}

impl<W: Write> Sink for ToWriter<W> {
    ghost contents = { λ s. W.contents s.0 };

    ghost failed = { λ s. s.1 };

    fn write(&mut self, from: &[u8]) -> Result<usize, DeviceFault> {
        match self.writer.write(from) {
            Ok(0) if !from.is_empty() => {
                self.failures += 1;
                Ok(0)
            }
            Ok(taken) => Ok(taken),
            Err(_) => {
                self.failures += 1;
                Err(DeviceFault)
            }
        }
    }

    fn failures(&self) -> u64 {
        self.failures
    }
}
