//! What reports on the lines of a list.
ghost use Rattle.std.specs.Prelude.{◌≡◌, ℕ, ◌+◌, ◌-◌, ◌^◌, ◌<◌, List, Option, IfErr, IfOk, OnOk, OnErr, option_map};
ghost use Rattle.std.specs.Prelude.{string_bytes};
ghost use Rattle.uv_lines.specs.Fault.{failed_within};
ghost use Rattle.uv_lines.specs.Line.{bytes_of};
ghost use Rattle.uv_lines.specs.Waiting.{Adds, LeavesLine};

use crate::fault::ReportFault;
use crate::line::Line;
use std::alloc::Global;
use uv_io::Sink;

/// What reports on the lines of a list, one after another. What it says about a line may depend on those before it.
pub trait Reporter: Drop {
    /// Why it can't report on a line.
    type Fault: Drop;

    // How many lines it has reported on.
    ghost lines: { Self → ℕ };

    // In the first state it says this text of a line, which leaves it in the second. None stands for a line that has
    // more bytes than a line may have.
    ghost reports: { Self → Option (List ℕ) → List ℕ → Self → Type 0 };

    // In this state it begins what it says about a line with these parts, and may not get any further. A reporter that
    // ends no part within a line has none.
    ghost begins: { Self → Option (List ℕ) → List ℕ → Type 0 };

    /// Appends what the report says of the next line to the text that waits to be written. It may end parts of it
    /// (`end_part`), so that little waits however long the report on a line is. None stands for a line that has more
    /// bytes than a line may have.
    ///
    /// After a fault the reporter is as it was. After a fault of its own, either nothing was added to what waits, or
    /// whole parts of what it says about the line. After a failed write, a prefix of that was written.
    fn report<W: Sink>(
        &mut self,
        alloc: Global,
        line: Option<Line<'_>>,
        text: &mut Vec<u8>,
        writer: &mut W,
    ) -> Result<(), ReportFault<Self::Fault>>
        requires few { lines self.old < 2 ^ 64 - 1 }
        requires writes { W.failed writer.old < 2 ^ 64 - 1 }
        ensures added { OnOk result (Adds reports lines self.old text.old.items (W.contents writer.old)
            (option_map bytes_of line.entry) self.new text.new.items (W.contents writer.new)) }
        ensures quiet { OnOk result (W.failed writer.new ≡ W.failed writer.old) }
        ensures same { OnErr result (self.new ≡ self.old) }
        ensures fault { IfErr result (λ e. LeavesLine begins e self.old text.old.items (W.contents writer.old)
            (option_map bytes_of line.entry) text.new.items (W.contents writer.new)) }
        ensures failed { IfErr result (λ e. W.failed writer.new ≡ W.failed writer.old + failed_within e) };

    /// How many lines it has reported on.
    fn line_count(&self) -> u64
        ensures { result ≡ lines self.now };

    // What it says after the last line, if no fault came.
    ghost last: { Self → List ℕ };

    /// The end of the report, if no fault came.
    fn last(&self, alloc: Global) -> Result<String, Self::Fault>
        ensures { IfOk result (λ text. string_bytes text ≡ last self.now) };
}
