//! How a run over files has ended, for a report on them.

/// How a run over files has ended. Only SARIF has a word for it.
#[derive(Clone, Copy, PartialEq, Eq)]
pub enum Completion {
    /// Every file was read to its end.
    Whole,
    /// A file couldn't be opened, or couldn't be read to its end. The report on the others is whole.
    Unread,
    /// Something stopped the run before the last file's end.
    Stopped,
}
