//! Readers and writers: the sources of this product's inputs, and where its outputs go.
ghost use Rattle.std.specs.Prelude.{◌≡◌, ℕ, List, Option, OnOk, OnErr, take, ◌+◌, ◌-◌, ◌^◌, ◌<◌};
ghost use Rattle.std.specs.Io.{ReadsAtMost, WritesAtMost};
ghost use Rattle.std.specs.Io.KnownBytes.{Appends, ReadConsumes, WriteAppends};
ghost use Rattle.uv_io.specs.Stream.{read_failures, write_failures};

/// A read or a write failed, or a write took none of a piece that had bytes.
#[derive(Clone, Copy, Debug, PartialEq, Eq)]
pub struct DeviceFault;

/// What gives bytes.
pub trait Source {
    // The bytes still to come, where they are known.
    ghost remaining: { Self → Option (List ℕ) };

    // How many reads have failed.
    ghost failed: { Self → ℕ };

    /// Puts the next bytes at the start of the piece, and says how many they are. If the piece has room, 0 means the
    /// end: no more bytes will come. An error gives no bytes and leaves those to come as they were.
    fn read(&mut self, into: &mut [u8]) -> Result<usize, DeviceFault>
        requires { failed self.old < 2 ^ 64 - 1 }
        ensures bound { ReadsAtMost result into.new }
        ensures bytes { ReadConsumes (remaining self.old) (remaining self.new) result into.new }
        ensures count { failed self.new ≡ failed self.old + read_failures result };

    /// How many reads have failed: those that answered an error.
    fn failures(&self) -> u64
        ensures { result ≡ failed self.now };
}

/// What takes bytes.
pub trait Sink {
    // The bytes that it holds, where they are known.
    ghost contents: { Self → Option (List ℕ) };

    // How many writes have failed.
    ghost failed: { Self → ℕ };

    /// Takes a prefix of the piece, and says how many bytes it took. With an error it took none.
    fn write(&mut self, from: &[u8]) -> Result<usize, DeviceFault>
        requires { failed self.old < 2 ^ 64 - 1 }
        ensures bound { WritesAtMost result from.now }
        ensures bytes { WriteAppends (contents self.old) (contents self.new) result from.now }
        ensures count { failed self.new ≡ failed self.old + write_failures result from.now };

    /// How many writes have failed: those that answered an error, and those that took none of a piece that had bytes.
    fn failures(&self) -> u64
        ensures { result ≡ failed self.now };
}

/// Writes a whole piece.
///
/// A fault comes at the first write that fails, and leaves a prefix of the piece written.
pub fn write_whole<S: Sink>(out: &mut S, piece: &[u8]) -> Result<(), DeviceFault>
    requires { S.failed out.old < 2 ^ 64 - 1 }
    ensures whole { OnOk result (Appends (S.contents out.old) (S.contents out.new) piece.now) }
    ensures quiet { OnOk result (S.failed out.new ≡ S.failed out.old) }
    ensures prefix { OnErr result ((n : ℕ) × Appends (S.contents out.old) (S.contents out.new) (take n piece.now)) }
    ensures failed { OnErr result (S.failed out.new ≡ S.failed out.old + 1) }
{
    let mut at = 0;
    while at < piece.len() {
        match out.write(&piece[at..]) {
            Err(DeviceFault) => return Err(DeviceFault),
            Ok(0) => return Err(DeviceFault),
            Ok(taken) => at += taken,
        }
    }
    Ok(())
}
