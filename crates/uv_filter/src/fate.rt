//! What becomes of a line.

use uv_mend::MendKind;

/// What becomes of a line: if there is a mended text to write it is mended, and otherwise it stays as it was.
#[derive(Drop)]
pub(crate) enum Fate {
    /// It is empty, and isn't checked.
    Empty,
    /// It is valid.
    Valid,
    /// This text is written in its place.
    Mended {
        /// The mended text.
        text: String,
        /// How it relates to the refused one.
        kind: MendKind,
    },
    /// It is refused, and there is no mended text, or none of a kind that is written.
    Refused,
    /// It isn't UTF-8.
    NotUtf8,
    /// It has more bytes than a line may have.
    TooLong,
}
