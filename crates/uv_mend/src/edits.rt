//! The edits of a text: first what the URL parser passes over is removed, then the text is edited by the rule that it
//! still violates.
ghost use Rattle.std.specs.Prelude.{◌≡◌, ◌≤◌, IfOk, IfSome, chars, length, option_copied, option_map, string_bytes};
ghost use Rattle.uv_mend.specs.Edits as spec;
ghost use Rattle.uv_mend.specs.Repairs.{decoded};
ghost use Rattle.uv_mend.specs.Rest.{EditHasRestOf};

use crate::code_points::{before_rest, push_text};
use crate::escapes::escaped;
use crate::hosts::rehosted;
use crate::slashes::slashed;
use crate::stripped::stripped;
use std::alloc::{AllocError, Global};
use uv_model::{Record, Refusal, Rule, after_code_points};

/// A text without what the parser removes, with its slashes as the parser reads them, and with escapes. In this order,
/// since what is removed may stand between slashes, and where the path begins depends on these. An error means that
/// memory ran out.
#[tactic(auto, unfolding(crate::specs::Edits::cleaned))]
pub(crate) fn cleaned(
    alloc: Global,
    text: &str,
    base: Option<&Record>,
) -> Result<String, AllocError>
    ensures { IfOk result (λ out. chars (string_bytes out)
        ≡ spec.cleaned (option_copied base.entry) (chars text.now)) }
{
    let stripped = stripped(alloc, text)?;
    let slashed = slashed(alloc, stripped.as_str(), base)?;
    escaped(alloc, slashed.as_str())
}

/// The edit of a text for this refusal, or `None` if its rule has none. An error means that memory ran out.
#[tactic(auto, unfolding(crate::specs::Edits::edit_of))]
pub(crate) fn edit_of(
    alloc: Global,
    text: &str,
    base: Option<&Record>,
    refusal: Refusal,
) -> Result<Option<String>, AllocError>
    requires { refusal.place ≤ length (chars text.now) }
    ensures edit { IfOk result (λ out. option_map decoded out
        ≡ spec.edit_of (option_copied base.entry) (chars text.now) refusal) }
    ensures rest { IfOk result (λ out.
        IfSome out (λ next. EditHasRestOf (option_copied base.entry) refusal (chars text.now) (decoded next))) }
{
    match refusal.rule {
        Rule::HostDomain | Rule::HostNumber | Rule::HostIpv6 | Rule::HostCodePoint => {
            rehosted(alloc, text, base)
        }
        Rule::FirstSegmentEmpty => {
            Ok(Some(dotted(alloc, text, refusal.place.saturating_sub(1))?))
        }
        Rule::DriveAfterHost => Ok(Some(dotted(alloc, text, refusal.place)?)),
        Rule::NoScheme
        | Rule::OpaqueBase
        | Rule::TwoSlashes
        | Rule::HostMissing
        | Rule::PortDigit
        | Rule::PortRange
        | Rule::CodePoint
        | Rule::Percent => Ok(None),
    }
}

// The text with `/.` before the code point at the place.
#[tactic(auto, unfolding(crate::specs::Edits::dotted))]
fn dotted(alloc: Global, text: &str, place: usize) -> Result<String, AllocError>
    requires { place ≤ length (chars text.now) }
    ensures { IfOk result (λ out. decoded out ≡ spec.dotted place (chars text.now)) }
{
    let after = after_code_points(text, place);
    let mut out = String::with_capacity(alloc, text.len().saturating_add(2))?;
    push_text(&mut out, before_rest(text, after))?;
    push_text(&mut out, "/.")?;
    push_text(&mut out, after)?;
    Ok(out)
}
