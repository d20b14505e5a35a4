//! The parts of a text by its slashes and marks, whatever else is in it.

use crate::sentences::pieces::{after, before};

/// The authority of a text that has one.
pub(crate) fn authority_of(line: &str) -> &str {
    before_end(after(after(line, '/'), '/'))
}

/// What is before the end of an authority.
pub(crate) fn before_end(text: &str) -> &str {
    before_query(before(text, '/'))
}

/// What is before the query and the fragment.
pub(crate) fn before_query(text: &str) -> &str {
    before(before(text, '#'), '?')
}
