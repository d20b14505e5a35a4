//! The report on lines, as far as it waits to be written.
ghost use Rattle.std.specs.Prelude.{◌≡◌, ℕ, ◌+◌, ◌-◌, ◌^◌, ◌<◌, [], OnOk, OnErr, length, take};
ghost use Rattle.std.specs.Io.KnownBytes.{Appends};
ghost use Rattle.uv_lines.specs.Waiting.{Passes};

use uv_io::{DeviceFault, Sink, write_whole};

// When a part has ended, fewer bytes than this may wait to be written.
const MUCH_BYTES: usize = 262_144;

/// Ends a part of what the report says about a line, or about a list: writes what waits to be written, if that is
/// 262,144 bytes or more.
///
/// A reporter may end a part between any two bytes of what it says of a line. After a fault a prefix of what waited was
/// written.
#[tactic(auto, using(crate::proofs::WaitingLemmas::passes_none, crate::proofs::WaitingLemmas::passes_all))]
pub fn end_part<W: Sink>(text: &mut Vec<u8>, writer: &mut W) -> Result<(), DeviceFault>
    requires { W.failed writer.old < 2 ^ 64 - 1 }
    ensures passes { OnOk result (Passes text.old.items (W.contents writer.old) (W.contents writer.new)
        text.new.items) }
    ensures much { OnOk result (length text.new.items < 262144) }
    ensures quiet { OnOk result (W.failed writer.new ≡ W.failed writer.old) }
    ensures prefix { OnErr result ((n : ℕ)
        × Appends (W.contents writer.old) (W.contents writer.new) (take n text.old.items)) }
    ensures failed { OnErr result (W.failed writer.new ≡ W.failed writer.old + 1) }
{
    if text.len() < MUCH_BYTES {
        return Ok(());
    }
    write_out(text, writer)
}

/// Writes what waits to be written.
pub fn write_out<W: Sink>(text: &mut Vec<u8>, writer: &mut W) -> Result<(), DeviceFault>
    requires { W.failed writer.old < 2 ^ 64 - 1 }
    ensures whole { OnOk result (Appends (W.contents writer.old) (W.contents writer.new) text.old.items) }
    ensures none { OnOk result (text.new.items ≡ []) }
    ensures quiet { OnOk result (W.failed writer.new ≡ W.failed writer.old) }
    ensures prefix { OnErr result ((n : ℕ)
        × Appends (W.contents writer.old) (W.contents writer.new) (take n text.old.items)) }
    ensures failed { OnErr result (W.failed writer.new ≡ W.failed writer.old + 1) }
{
    write_whole(writer, text.as_slice())?;
    text.clear();
    Ok(())
}
