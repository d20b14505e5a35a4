//! The checker of valid URL strings.
ghost use Rattle.std.specs.Prelude.{◌≡◌, IfOk, IsOk, None, Ok, Some, option_copied};
ghost use Rattle.std.specs.Str.{chars};
ghost use Rattle.uv_model.specs.Records.Url.{Url};
ghost use Rattle.uv_grammar.specs.Bases.{IsOfKind, as_base};
ghost use Rattle.uv_grammar.specs.NoMemory.{TakesNoMemoryAgainst};
ghost use Rattle.uv_grammar.specs.Verdict.{IsVerdict};

use crate::authority::{check_host_part, check_port_part};
use crate::bases::{Base, BaseKind};
use crate::built::build;
use crate::checked::Checked;
use crate::cut::cut_text;
use crate::links::plain::{plain_parts, plain_rest, plain_start};
use crate::parts::Parts;
use crate::start_rules::start_fault;
use crate::unit_faults::fault_after_authority;
use std::alloc::{AllocError, Global};
use uv_model::{Profile, Record, Refusal};

/// What a text is against a base.
#[derive(Drop)]
pub enum Verdict<'t> {
    /// A valid URL string, with its parts.
    Yes(Parts<'t>),
    /// Not a valid URL string: the least place at which it violates a rule, and there the rule of the least number.
    No(Refusal),
}

/// Whether a text is a valid URL string under the profile, alone or against a base (URL Standard, section 4.3), with
/// its parts or its least refusal. The error is out of memory, which is only asked for when a domain's form is made.
pub fn check<'t>(
    alloc: Global,
    text: &'t str,
    base: Option<&Record>,
    profile: Profile,
) -> Result<Verdict<'t>, AllocError>
    ensures answer { IfOk result (IsVerdict profile (option_copied base.entry) (chars text.now)) }
    ensures memory { TakesNoMemoryAgainst profile (option_copied base.entry) (chars text.now) → IsOk result }
{
    if let Some(start) = plain_start(text) {
        if let Some(rest) = plain_rest(&start) {
            return Ok(Verdict::Yes(plain_parts(text, &start, &rest)));
        }
    }
    check_otherwise(alloc, text, Base::whole(base), profile)
}

/// Whether a text alone is a valid URL string under the profile, with its parts or its least refusal. The error is out
/// of memory. A program that calls it in one place gets it there, and the parts aren't copied.
pub fn check_alone<'t>(
    alloc: Global,
    text: &'t str,
    profile: Profile,
) -> Result<Verdict<'t>, AllocError>
    ensures answer { IfOk result (IsVerdict profile None (chars text.now)) }
    ensures memory { TakesNoMemoryAgainst profile None (chars text.now) → IsOk result }
{
    if let Some(start) = plain_start(text) {
        if let Some(rest) = plain_rest(&start) {
            return Ok(Verdict::Yes(plain_parts(text, &start, &rest)));
        }
    }
    check_otherwise(alloc, text, None, profile)
}

/// Whether a text is a valid URL string under the profile against a base of this kind, whichever it is, with its parts
/// or its least refusal. The error is out of memory.
pub fn check_of_kind<'t>(
    alloc: Global,
    text: &'t str,
    base: BaseKind,
    profile: Profile,
) -> Result<Verdict<'t>, AllocError>
    ensures answer { (url : Url) → IsOfKind url base → IfOk result (IsVerdict profile (Some url) (chars text.now)) }
    ensures memory { (url : Url) → IsOfKind url base → TakesNoMemoryAgainst profile (Some url) (chars text.now)
        → IsOk result }
{
    if let Some(start) = plain_start(text) {
        if let Some(rest) = plain_rest(&start) {
            return Ok(Verdict::Yes(plain_parts(text, &start, &rest)));
        }
    }
    check_otherwise(alloc, text, Some(Base::Kind(base)), profile)
}

// The verdict on a text that isn't known as a plain link. It is inlined, so that the place of the verdict that it asks
// for is filled with zeros here, and not before a link is known to be plain.
#[inline(always)]
fn check_otherwise<'t>(
    alloc: Global,
    text: &'t str,
    base: Option<Base<'_>>,
    profile: Profile,
) -> Result<Verdict<'t>, AllocError>
    ensures answer { IfOk result (IsVerdict profile (as_base base.entry) (chars text.now)) }
    ensures memory { TakesNoMemoryAgainst profile (as_base base.entry) (chars text.now) → IsOk result }
{
    check_by_parts(alloc, text, base, profile)
}

// The verdict on any text, part by part, in the order of their places. It is never inlined, as plain links would then
// have to keep registers free for it; what it calls is inlined, as each verdict would else be copied once more.
#[inline(never)]
fn check_by_parts<'t>(
    alloc: Global,
    text: &'t str,
    base: Option<Base<'_>>,
    profile: Profile,
) -> Result<Verdict<'t>, AllocError>
    ensures answer { IfOk result (IsVerdict profile (as_base base.entry) (chars text.now)) }
    ensures memory { TakesNoMemoryAgainst profile (as_base base.entry) (chars text.now) → IsOk result }
{
    let (cut, setting) = cut_text(text, base, profile);
    if let Some(refusal) = start_fault(text, &cut, &setting) {
        return refused(refusal);
    }
    let host = match check_host_part(alloc, &cut, &setting)? {
        Checked::Valid(host) => host,
        Checked::Refused(refusal) => return refused(refusal),
    };
    let port = match check_port_part(&cut, &setting) {
        Checked::Valid(port) => port,
        Checked::Refused(refusal) => return refused(refusal),
    };
    match fault_after_authority(&cut, &setting) {
        Some(refusal) => refused(refusal),
        None => Ok(Verdict::Yes(build(text, cut, host, port))),
    }
}

// The verdict that refuses a text. It is inlined, so that its place is filled with zeros only when a text is refused.
#[inline(always)]
fn refused<'t>(refusal: Refusal) -> Result<Verdict<'t>, AllocError>
    ensures { result ≡ Ok (Verdict.No refusal) }
{
    Ok(Verdict::No(refusal))
}
