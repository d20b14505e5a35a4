//! How much of what is wrong with a text is asked for.

/// How many of the violations of a refused text are reported.
#[derive(Clone, Copy, Debug, PartialEq, Eq)]
pub enum Extent {
    /// The first of them: that at the least place, and there the one with the least number.
    First,
    /// All of them, ordered by place and at one place by number.
    All,
}
