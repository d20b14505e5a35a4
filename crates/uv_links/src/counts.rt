//! The counts of a report.
ghost use Rattle.std.specs.Prelude.{◌≡◌, IfOk, string_bytes};
ghost use Rattle.uv_links.specs.Report.{count_line};

use std::alloc::{AllocError, Global};

/// How many lines a list had, and how they were reported: each once, as ok, bad or differing.
#[derive(Clone, Copy, Debug, PartialEq, Eq)]
pub struct Counts {
    /// All lines.
    pub lines: u64,
    /// The accepted lines that the second parser reads as the same text.
    pub ok: u64,
    /// The lines that are refused, aren't UTF-8 or are too long.
    pub bad: u64,
    /// The accepted lines that the second parser reads as another text, or refuses.
    pub differs: u64,
}

/// The line of counts, with its LF.
#[tactic(auto, unfolding(crate::specs::Report::count_line))]
pub(crate) fn count_text(alloc: Global, counts: Counts) -> Result<String, AllocError>
    ensures { IfOk result (λ text. string_bytes text ≡ count_line counts) }
{
    let lines = counts.lines;
    let ok = counts.ok;
    let bad = counts.bad;
    let differs = counts.differs;
    format!(in alloc; "links {lines} ok {ok} bad {bad} differs {differs}\n")
}
