//! Whether a text is valid, without its parts or what is wrong with it.
ghost use Rattle.std.specs.Prelude.{IfOk, IsOk, Option};
ghost use Rattle.std.specs.Str.{chars};
ghost use Rattle.uv_grammar.specs.NoMemory.{TakesNoMemoryAgainst};
ghost use Rattle.uv_grammar.specs.Verdict.{IsValidity};
ghost use Rattle.uv_model.specs.Records.Url.{Url};
ghost use Rattle.urlcheck_c.specs.Base.{IsOfKindGiven};
ghost use Rattle.urlcheck_c.specs.Request.{given};
ghost use Rattle.urlcheck_c.specs.Validity.{IsKnownValid, IsValidityTo};

use crate::bases::{Base, CheckRequest, asked, given_base};
use std::alloc::{AllocError, Global};
use uv_grammar::{is_valid, is_valid_of_kind};

/// Whether the bytes are known to be a valid URL string (URL Standard, section 4.3) under the profile with this number,
/// alone or against a base as `urlcheck_check` has it. The answer is also no if memory runs out, for a text whose
/// verdict needs some, and if nothing is checked.
#[unsafe(no_mangle)]
pub extern "C" fn urlcheck_is_valid(
    alloc: Global,
    text: &[u8],
    profile: u32,
    base: &Base,
    has_base: bool,
) -> bool
    ensures { IsValidityTo profile (given has_base base.now) text.now result }
{
    match asked(text, profile, given_base(base, has_base)) {
        Ok(request) => is_known_valid(alloc, &request),
        Err(_) => false,
    }
}

// The answer on a text that is checked.
fn is_known_valid(alloc: Global, request: &CheckRequest<'_>) -> bool
    ensures { (url : Option Url) → IsOfKindGiven url request.now.kind
        → IsKnownValid request.now.profile url request.now.text.now result }
{
    match validity_on(alloc, request) {
        Ok(answer) => answer,
        Err(AllocError) => false,
    }
}

// Whether a text that is checked is valid.
#[inline(always)]
fn validity_on(alloc: Global, request: &CheckRequest<'_>) -> Result<bool, AllocError>
    ensures answer { (url : Option Url) → IsOfKindGiven url request.now.kind
        → IfOk result (IsValidity request.now.profile url (chars request.now.text.now)) }
    ensures memory { (url : Option Url) → IsOfKindGiven url request.now.kind
        → TakesNoMemoryAgainst request.now.profile url (chars request.now.text.now) → IsOk result }
{
    match request.kind {
        Some(kind) => is_valid_of_kind(alloc, request.text, kind, request.profile),
        None => is_valid(alloc, request.text, None, request.profile),
    }
}
