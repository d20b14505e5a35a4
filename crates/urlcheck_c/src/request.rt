//! What a call asks for: a text, a base and a profile, read from what C gave.
ghost use Rattle.std.specs.Prelude.{◌≡◌, option_copied};
ghost use Rattle.urlcheck_c.specs.Finding.{profile_of};
ghost use Rattle.urlcheck_c.specs.Request.{IsBaseGivenRead, IsBaseRead, IsPrepared, IsTextRead, given};

use crate::ascii::ascii_text;
use crate::finding::{CallOutcome, Finding};
use simdutf8::compat::from_utf8;
use std::alloc::Global;
use uv_model::{Profile, Record};
use uv_resolve::{ResolveFault, resolve};

/// What is to be read: a text, alone or against a record.
#[derive(Drop)]
pub(crate) struct Request<'t> {
    /// The text.
    pub(crate) text: &'t str,
    /// What the base by itself denotes.
    pub(crate) base: Option<Record>,
    /// The profile by which both are checked.
    pub(crate) profile: Profile,
}

/// What is to be read of the bytes of a text, alone or against the bytes of a base; or why nothing is.
pub(crate) fn prepared<'t>(
    alloc: Global,
    text: &'t [u8],
    profile: u32,
    base: Option<&[u8]>,
) -> Result<Request<'t>, Finding>
    ensures { IsPrepared profile (option_copied base.entry) text.now result }
{
    let Some(profile) = profile_of(profile) else {
        return Err(Finding::plain(CallOutcome::NoProfile));
    };
    let text = text_of(text, CallOutcome::NoUtf8)?;
    let base = base_read(alloc, base, profile)?;
    Ok(Request {
        text,
        base,
        profile,
    })
}

/// What the bytes of a base by themselves denote, if there are any.
pub(crate) fn base_read(
    alloc: Global,
    base: Option<&[u8]>,
    profile: Profile,
) -> Result<Option<Record>, Finding>
    ensures { IsBaseGivenRead profile (option_copied base.entry) result }
{
    match base {
        Some(base) => Ok(Some(base_of(alloc, base, profile)?)),
        None => Ok(None),
    }
}

/// The bytes of a base that a caller gave, or none if it gave none.
#[inline(always)]
pub(crate) fn given_bytes(base: &[u8], has_base: bool) -> Option<&[u8]>
    ensures { option_copied result ≡ given has_base base.now }
{
    if has_base { Some(base) } else { None }
}

/// The profile with this number: 0 is the standard profile, 1 the wide one, 2 the parser's.
#[inline(always)]
pub(crate) fn profile_of(number: u32) -> Option<Profile>
    ensures { result ≡ profile_of number }
{
    match number {
        0 => Some(Profile::Standard),
        1 => Some(Profile::Wide),
        2 => Some(Profile::Parser),
        _ => None,
    }
}

/// The bytes as a text.
#[inline(always)]
pub(crate) fn text_of(bytes: &[u8], fault: CallOutcome) -> Result<&str, Finding>
    ensures { IsTextRead fault bytes.now result }
{
    match ascii_text(bytes) {
        Some(text) => Ok(text),
        None => text_beyond_ascii(bytes, fault),
    }
}

// Bytes that aren't all ASCII, as a text. The error says that they aren't UTF-8.
#[inline(never)]
fn text_beyond_ascii(bytes: &[u8], fault: CallOutcome) -> Result<&str, Finding>
    ensures { IsTextRead fault bytes.now result }
{
    match from_utf8(bytes) {
        Ok(text) => Ok(text),
        Err(error) => Err(Finding::no_utf8(fault, bytes, error.valid_up_to())),
    }
}

// What the bytes of a base by themselves denote.
fn base_of(alloc: Global, base: &[u8], profile: Profile) -> Result<Record, Finding>
    ensures { IsBaseRead profile base.now result }
{
    let base = text_of(base, CallOutcome::BaseNoUtf8)?;
    match resolve(alloc, base, None, profile) {
        Ok(record) => Ok(record),
        Err(ResolveFault::Refused(refusal)) => {
            Err(Finding::refused(CallOutcome::BaseRefused, base, refusal))
        }
        Err(ResolveFault::Memory(_)) => Err(Finding::plain(CallOutcome::Memory)),
    }
}
