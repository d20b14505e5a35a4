//! What to write in place of a text.
ghost use Rattle.std.specs.Prelude.{IfOk, chars, option_copied};
ghost use Rattle.uv_grammar.specs.Verdict.{IsRefused};
ghost use Rattle.uv_mend.specs.Mending.{IsMending};

use crate::answer::Mending;
use crate::edits::cleaned;
use crate::kinds::kind_of;
use crate::repairs::repaired;
use std::alloc::{AllocError, Global};
use uv_grammar::{Verdict, check};
use uv_model::{Profile, Record, Refusal};

/// What to write in place of a text, under the profile, alone or against a base: local edits that keep all else of it
/// as its author wrote it.
///
/// First the edits by what the URL parser passes over: C0 controls and spaces at both ends, tabs, LF and CR go; in a
/// text of a special scheme or of `file` each `\` before the query becomes `/`, and the slashes after the scheme become
/// `//`, or `///` before the path of a `file` URL; every other code point of the path, the query and the fragment that
/// may not be there, and each `%` without two hex digits, becomes the escapes of its UTF-8. Then, if a rule of the host
/// is still violated, the host as the crate `url` writes it, unless there is a user name or a password; and `/.` before
/// a path that begins with an empty segment, or with a drive letter after a host.
///
/// A mended text was checked: it is valid. The time and the memory that this takes grow linearly with the text. An
/// error means that memory ran out, or that the crate `url` would make a text of 4 GiB or more.
pub fn mend(
    alloc: Global,
    text: &str,
    base: Option<&Record>,
    profile: Profile,
) -> Result<Mending, AllocError>
    ensures { IfOk result (IsMending profile (option_copied base.entry) text.now) }
{
    match check(alloc, text, base, profile)? {
        Verdict::Yes(_) => Ok(Mending::Valid),
        Verdict::No(refusal) => mend_refused(alloc, text, base, profile, refusal),
    }
}

/// The answer of `mend` for a text whose refusal is known, so that it isn't checked again. An error means that memory
/// ran out.
pub fn mend_refused(
    alloc: Global,
    text: &str,
    base: Option<&Record>,
    profile: Profile,
    refusal: Refusal,
) -> Result<Mending, AllocError>
    requires { IsRefused profile (option_copied base) (chars text.now) refusal }
    ensures { IfOk result (IsMending profile (option_copied base.entry) text.now) }
{
    let written = cleaned(alloc, text, base)?;
    match repaired(alloc, written, base, profile)? {
        Some(mended) => {
            let kind = kind_of(alloc, text, mended.as_str(), base)?;
            Ok(Mending::Mended { text: mended, kind })
        }
        None => Ok(Mending::Refused(refusal)),
    }
}
