//! What the second parser reads a text as, with running out of memory as the only error.
ghost use Rattle.std.specs.Prelude.{◌≡◌, ◌↔◌, IfOk, IsTrue, option_copied};
ghost use Rattle.uv_compare.specs.Second as spec;
ghost use Rattle.uv_compare.specs.Second.{ReadsSame};

use std::alloc::{AllocError, Global};
use url::Url;
use uv_model::Record;

/// The URL that it reads in a text, against the text of the base if there is one; none if it refuses either. An error
/// means that memory ran out, or that a URL would have 4 GiB or more.
pub(crate) fn reading(
    alloc: Global,
    base: Option<&Record>,
    text: &str,
) -> Result<Option<Url>, AllocError>
    ensures { IfOk result (λ url. url ≡ spec.reading (option_copied base.entry) text.now) }
{
    match uv_compare::reading(alloc, base, text) {
        Ok(url) => Ok(url),
        Err(_) => Err(AllocError),
    }
}

/// Whether it reads both texts as URLs with the same text. It fails as `reading` does.
pub(crate) fn reads_same(
    alloc: Global,
    base: Option<&Record>,
    text: &str,
    other: &str,
) -> Result<bool, AllocError>
    ensures { IfOk result (λ same. IsTrue same ↔ ReadsSame (option_copied base.entry) text.now other.now) }
{
    match uv_compare::reads_same(alloc, base, text, other) {
        Ok(same) => Ok(same),
        Err(_) => Err(AllocError),
    }
}
