//! The answer for a text that is to be mended.
use uv_model::{MendKind, Refusal};

/// What to write in place of a text.
#[derive(Debug, Drop)]
pub enum Mending {
    /// The text itself: it is a valid URL string.
    Valid,
    /// A valid URL string that the local edits make of the refused text.
    Mended {
        /// The mended text.
        text: String,
        /// How it relates to the refused one.
        kind: MendKind,
    },
    /// The local edits make no valid URL string of the text, which is refused for this.
    Refused(Refusal),
}
