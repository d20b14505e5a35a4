//! Whether a diagnostic has colours.

/// How a diagnostic looks in the formats `gnu` and `caret`, which people read. The other formats are for programs, and
/// have no colours.
#[derive(Clone, Copy)]
pub enum Look {
    /// As plain text.
    Plain,
    /// In the colours of a terminal: the place is bold, `error:` and the marks below a text are red, the rule is dim,
    /// and the word before a mended text is cyan.
    Coloured,
}
