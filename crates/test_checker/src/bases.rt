//! The base of the tests.

use std::alloc::{AllocError, Global};
use uv_calls::well_formed;
use uv_model::{Host, PathText, Profile, Record, Text, UrlPath};

/// `http://h/`, or none if its parts aren't well formed.
pub(crate) fn special_base(alloc: Global) -> Result<Option<Record>, AllocError> {
    let host = Some(Host::Domain(Text::of(String::from_str(alloc, "h")?)));
    let mut root = PathText::new(alloc);
    root.push("")?;
    let path = UrlPath::Segments(root);
    if !well_formed(
        "http",
        host.as_ref(),
        None,
        &path,
        None,
        None,
        Profile::Parser,
    ) {
        return Ok(None);
    }
    let scheme = String::from_str(alloc, "http")?;
    Ok(Some(Record::make(scheme, host, None, path, None, None)))
}
