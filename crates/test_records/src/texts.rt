//! What the tests of records share: paths.

use crate::ascii_texts::ascii;
use std::alloc::{AllocError, Global};
use uv_model::{PathText, UrlPath};

/// A path of segments, each after a `/`.
pub(crate) fn segments(alloc: Global, text: &str) -> Result<UrlPath, AllocError> {
    let text = ascii(alloc, text)?;
    Ok(UrlPath::Segments(PathText::of(alloc, text.as_str())?))
}
