//! What takes a list, line by line.
ghost use Rattle.std.specs.Prelude.{◌≡◌, ℕ, ◌+◌, ◌-◌, ◌^◌, ◌<◌, List, [], ◌∷◌, ◌++◌, IfErr, OnOk};
ghost use Rattle.uv_lines.specs.Line.{bytes_of};
ghost use Rattle.uv_lines.specs.Lines.{line_feed, split};
ghost use Rattle.uv_lines.specs.Taking.{Keeps, Leads, Turns, Way};

use crate::line::Line;
use std::alloc::Global;
use uv_io::Sink;

/// Takes the lines of a list, and the parts of lines that go on in the next piece, and writes the output for them.
///
/// A fault leaves nothing that waits to be written, unless a write failed.
pub trait Taker {
    /// Why it takes no more.
    type Fault: Drop;

    // How many failed writes a fault stands for.
    ghost writes: { Self.Fault → ℕ };

    // It began in the first state, when the writer had this, and has taken these bytes. Now it is in the second state,
    // and the writer has that.
    ghost stands: { Way Self };

    // Nothing waits to be written.
    ghost rests: { Self → Type 0 };

    // A fault came while it took these bytes, from the first state and contents of the writer to the second ones.
    ghost stops: { Self.Fault → Way Self };

    // It has taken these bytes, which are the whole list, from the first state and contents to the second ones.
    ghost ends: { Way Self };

    // A fault came at the end of the list, which is these bytes, from the first state and contents to the second ones.
    ghost fails: { Self.Fault → Way Self };

    /// Takes the rest of a line, which an LF ends: without the LF, and with it.
    fn take_line<W: Sink>(
        &mut self,
        alloc: Global,
        writer: &mut W,
        line: Line<'_>,
        whole: &[u8],
    ) -> Result<(), Self::Fault>
        requires writes { W.failed writer.old < 2 ^ 64 - 1 }
        requires line { split (bytes_of line) ≡ ([], bytes_of line) }
        requires whole { whole.now ≡ bytes_of line ++ line_feed ∷ [] }
        ensures stands { OnOk result (Keeps stands self.old (W.contents writer.old)
            (bytes_of line.entry ++ line_feed ∷ []) self.new (W.contents writer.new)) }
        ensures quiet { OnOk result (W.failed writer.new ≡ W.failed writer.old) }
        ensures fault { IfErr result (λ e. (rest : List ℕ) → Leads stands (stops e) self.old (W.contents writer.old)
            (bytes_of line.entry ++ line_feed ∷ rest) self.new (W.contents writer.new)) }
        ensures failed { IfErr result (λ e. W.failed writer.new ≡ W.failed writer.old + writes e) };

    /// Takes a part of a line, at the end of a piece.
    fn take_part<W: Sink>(&mut self, writer: &mut W, part: &[u8]) -> Result<(), Self::Fault>
        requires writes { W.failed writer.old < 2 ^ 64 - 1 }
        requires line { split part.now ≡ ([], part.now) }
        ensures stands { OnOk result (Keeps stands self.old (W.contents writer.old) part.now self.new
            (W.contents writer.new)) }
        ensures quiet { OnOk result (W.failed writer.new ≡ W.failed writer.old) }
        ensures fault { IfErr result (λ e. Leads stands (stops e) self.old (W.contents writer.old) part.now self.new
            (W.contents writer.new)) }
        ensures failed { IfErr result (λ e. W.failed writer.new ≡ W.failed writer.old + writes e) };

    /// Writes what waits at the end of a piece.
    fn end_piece<W: Sink>(&mut self, writer: &mut W) -> Result<(), Self::Fault>
        requires { W.failed writer.old < 2 ^ 64 - 1 }
        ensures stands { OnOk result (Turns stands stands self.old (W.contents writer.old) self.new
            (W.contents writer.new)) }
        ensures rests { OnOk result (rests self.new) }
        ensures quiet { OnOk result (W.failed writer.new ≡ W.failed writer.old) }
        ensures fault { IfErr result (λ e. Turns stands (stops e) self.old (W.contents writer.old) self.new
            (W.contents writer.new)) }
        ensures failed { IfErr result (λ e. W.failed writer.new ≡ W.failed writer.old + writes e) };

    /// Takes the end of the list: the line that no LF ends, if there is one.
    fn end_list<W: Sink>(&mut self, alloc: Global, writer: &mut W) -> Result<(), Self::Fault>
        requires { W.failed writer.old < 2 ^ 64 - 1 }
        ensures ends { OnOk result (Turns stands ends self.old (W.contents writer.old) self.new
            (W.contents writer.new)) }
        ensures quiet { OnOk result (W.failed writer.new ≡ W.failed writer.old) }
        ensures fault { IfErr result (λ e. Turns stands (fails e) self.old (W.contents writer.old) self.new
            (W.contents writer.new)) }
        ensures failed { IfErr result (λ e. W.failed writer.new ≡ W.failed writer.old + writes e) };
}
