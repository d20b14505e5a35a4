//! Whether a text is a valid URL string, without its parts or what is wrong with it.
ghost use Rattle.std.specs.Prelude.{ℕ, List, Option, IfOk, IsOk, Some, option_copied};
ghost use Rattle.std.specs.Str.{chars};
ghost use Rattle.uv_model.specs.declared.profile.Profile.{Profile};
ghost use Rattle.uv_model.specs.Records.Url.{Url};
ghost use Rattle.uv_grammar.specs.Bases.{IsOfKind};
ghost use Rattle.uv_grammar.specs.NoMemory.{TakesNoMemoryAgainst};
ghost use Rattle.uv_grammar.specs.Verdict.{IsValidity, IsVerdict, IsWiderProfile};

use crate::bases::BaseKind;
use crate::checker::{Verdict, check, check_of_kind};
use std::alloc::{AllocError, Global};
use uv_model::{Profile, Record};

/// Whether a text is a valid URL string under the profile, alone or against a base (URL Standard, section 4.3): what
/// `check` says, without the parts. The error is out of memory, which is only asked for when a domain's form is made.
pub fn is_valid(
    alloc: Global,
    text: &str,
    base: Option<&Record>,
    profile: Profile,
) -> Result<bool, AllocError>
    ensures answer { IfOk result (IsValidity profile (option_copied base.entry) (chars text.now)) }
    ensures memory { TakesNoMemoryAgainst profile (option_copied base.entry) (chars text.now) → IsOk result }
{
    Ok(says_yes(&check(alloc, text, base, profile)?))
}

/// Whether a text is a valid URL string under the profile against a base of this kind, whichever it is. The error is
/// out of memory.
pub fn is_valid_of_kind(
    alloc: Global,
    text: &str,
    base: BaseKind,
    profile: Profile,
) -> Result<bool, AllocError>
    ensures answer { (url : Url) → IsOfKind url base → IfOk result (IsValidity profile (Some url) (chars text.now)) }
    ensures memory { (url : Url) → IsOfKind url base → TakesNoMemoryAgainst profile (Some url) (chars text.now)
        → IsOk result }
{
    Ok(says_yes(&check_of_kind(alloc, text, base, profile)?))
}

/// The next wider profile by which a text is valid, alone or against a base, where there is one. The error is out of
/// memory.
pub fn wider_profile(
    alloc: Global,
    text: &str,
    base: Option<&Record>,
    profile: Profile,
) -> Result<Option<Profile>, AllocError>
    ensures { IfOk result (IsWiderProfile profile (option_copied base.entry) (chars text.now)) }
{
    match profile {
        Profile::Standard => {
            if is_valid(alloc, text, base, Profile::Wide)? {
                return Ok(Some(Profile::Wide));
            }
            if is_valid(alloc, text, base, Profile::Parser)? {
                return Ok(Some(Profile::Parser));
            }
            Ok(None)
        }
        Profile::Wide => {
            if is_valid(alloc, text, base, Profile::Parser)? {
                return Ok(Some(Profile::Parser));
            }
            Ok(None)
        }
        Profile::Parser => Ok(None),
    }
}

// Whether a verdict is that the text is valid.
fn says_yes(verdict: &Verdict<'_>) -> bool
    ensures { (profile : Profile) (base : Option Url) (text : List ℕ) → IsVerdict profile base text verdict.now
        → IsValidity profile base text result }
{
    match verdict {
        Verdict::Yes(_) => true,
        Verdict::No(_) => false,
    }
}
