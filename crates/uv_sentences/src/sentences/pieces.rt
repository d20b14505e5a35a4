//! Pieces of a text.

/// What comes before the first such mark; everything if there is none.
pub(crate) fn before(text: &str, mark: char) -> &str {
    match text.split_once(mark) {
        Some((front, _)) => front,
        None => text,
    }
}

/// What comes after the first such mark; nothing if there is none.
pub(crate) fn after(text: &str, mark: char) -> &str {
    match text.split_once(mark) {
        Some((_, rest)) => rest,
        None => "",
    }
}

/// Whether a text has a piece.
pub(crate) fn has_piece(text: &str, piece: &str) -> bool {
    text.contains(piece)
}
