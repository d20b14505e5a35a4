//! The serialized URL of a text, alone or against a base.
ghost use Rattle.std.specs.Prelude.{◌≡◌, OnOk, chars, option_copied, string_bytes};
ghost use Rattle.uv_model.specs.Records.Denote.{denote};
ghost use Rattle.uv_model.specs.Records.Serialize.{serial};
ghost use Rattle.uv_resolve.specs.Resolve.{HaveValidText, RefusesWithoutMemory};
ghost use Rattle.uv_resolve.specs.Serialized.{IsLaidAnswer, IsSerialized};

use crate::fault::ResolveFault;
use crate::layout::LaidUrl;
use crate::writer::{laid_url, write_url};
use std::alloc::{AllocError, Global};
use uv_grammar::{Parts, Verdict, check};
use uv_model::{Profile, Record};

/// The serialized URL that a text denotes under the profile, alone or against a base (URL Standard, sections 4.3 to
/// 4.5), and how it is laid out: the text of the record that `resolve` gives. The text is refused where `resolve`
/// refuses it, before any allocation for the URL.
#[inline(always)]
pub fn resolve_laid(
    alloc: Global,
    text: &str,
    base: Option<&Record>,
    profile: Profile,
) -> Result<LaidUrl, ResolveFault>
    ensures laid { IsLaidAnswer profile (option_copied base.entry) text.now result }
    ensures memory { RefusesWithoutMemory profile (option_copied base.entry) (chars text.now) result }
{
    let verdict = check(alloc, text, base, profile)?;
    match &verdict {
        Verdict::Yes(parts) => Ok(laid_url(alloc, text, parts, base)?),
        Verdict::No(refusal) => Err(ResolveFault::Refused(*refusal)),
    }
}

/// The serialized URL that a text denotes under the profile, as `resolve_laid` gives it.
pub fn resolve_serialized(
    alloc: Global,
    text: &str,
    base: Option<&Record>,
    profile: Profile,
) -> Result<String, ResolveFault>
    ensures serialized { IsSerialized profile (option_copied base.entry) text.now result }
    ensures memory { RefusesWithoutMemory profile (option_copied base.entry) (chars text.now) result }
{
    let laid = resolve_laid(alloc, text, base, profile)?;
    Ok(laid.text)
}

/// Writes the serialized URL that the parts of a valid text denote against a base (URL Standard, section 4.5) over what
/// a string holds. So a text that was checked isn't checked again, and one string serves for many texts. The error is
/// out of memory.
pub fn write_serialized(
    alloc: Global,
    out: &mut String,
    parts: &Parts<'_>,
    base: Option<&Record>,
) -> Result<(), AllocError>
    requires { HaveValidText (option_copied base) parts.now }
    ensures { OnOk result (string_bytes out.new ≡ serial (denote (option_copied base.entry) parts.now)) }
{
    out.clear();
    write_url(alloc, out, parts, base)?;
    Ok(())
}
