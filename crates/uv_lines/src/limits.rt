//! The limits of a run over the lines of a list.

/// How many bytes a line may have, not counting its LF and a CR before that, and how many lines may come.
#[derive(Clone, Copy, Debug, PartialEq, Eq)]
pub struct LineLimits {
    /// How many bytes a line may have. A longer one is reported as too long, and isn't kept.
    pub line_bytes: usize,
    /// How many lines may come.
    pub lines: u64,
}
