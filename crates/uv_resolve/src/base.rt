//! The record of a base's text.
ghost use Rattle.uv_resolve.specs.Base.{IsBaseResolved};

use crate::fault::ResolveFault;
use crate::resolver::resolve;
use std::alloc::Global;
use uv_model::{Profile, Record};

/// The record of a base's text, which is resolved by itself under the profile, and none if there is no base. A base is
/// refused as a text without a base is.
pub fn resolve_base(
    alloc: Global,
    base: Option<&str>,
    profile: Profile,
) -> Result<Option<Record>, ResolveFault>
    ensures { IsBaseResolved profile base.entry result }
{
    let Some(text) = base else {
        return Ok(None);
    };
    match resolve(alloc, text, None, profile) {
        Ok(record) => Ok(Some(record)),
        Err(fault) => Err(fault),
    }
}
