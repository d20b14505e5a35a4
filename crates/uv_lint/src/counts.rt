//! How many lines were checked, and of how many something was found.

/// How many lines were checked, and of how many something was found.
#[derive(Clone, Copy, Debug, PartialEq, Eq)]
pub struct LintCounts {
    /// Lines that aren't empty.
    pub lines: u64,
    /// Those that are refused, not UTF-8 or too long.
    pub refused: u64,
}
