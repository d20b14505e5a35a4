//! Drive letters of `file` links that stand in place of a host, or are written with `|`.

use crate::sentences::authority::before_end;
use crate::sentences::pieces::{after, before};
use uv_model::is_name;

/// Whether a text is a `file` link whose first segment, after at most three slashes, is a letter and `|`.
pub(crate) fn has_barred_drive(text: &str) -> bool {
    is_file_link(text) && is_barred_drive(first_segment(after(text, ':')).as_bytes())
}

// The first segment of what follows the scheme's `:`, after at most three slashes.
fn first_segment(text: &str) -> &str {
    before_end(without_slash(without_slash(without_slash(text))))
}

// Whether a segment is a letter and `|`, which the URL parser reads as a drive letter.
fn is_barred_drive(segment: &[u8]) -> bool {
    match segment {
        [letter, mark] => letter.is_ascii_alphabetic() && *mark == b'|',
        _ => false,
    }
}

/// A text without the `/` at its start, if it has one.
pub(crate) fn without_slash(text: &str) -> &str {
    match text.strip_prefix('/') {
        Some(rest) => rest,
        None => text,
    }
}

/// Whether the text before the first `:` is `file`, in any case.
pub(crate) fn is_file_link(line: &str) -> bool {
    is_name(before(line, ':'), "file")
}
