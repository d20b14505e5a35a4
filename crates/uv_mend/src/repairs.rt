//! A text edited until it is valid, or no edit is left.
ghost use Rattle.std.specs.Prelude.{◌≤◌, IfNone, IfOk, IfSome, chars, length, option_copied, option_map};
ghost use Rattle.uv_model.specs.Violations.Violation.{Violation};
ghost use Rattle.uv_model.specs.Violations.Refusal.{IsLeast};
ghost use Rattle.uv_mend.specs.Rest.{HasRestOf};
ghost use Rattle.uv_mend.specs.Repairs.{IsTried, IsValid, Repairs, decoded};

use crate::edits::edit_of;
use std::alloc::{AllocError, Global};
use uv_grammar::{Verdict, check};
use uv_model::{Profile, Record, Refusal};

/// What a text is, and what its edit makes of it.
#[derive(Drop)]
pub(crate) enum Tried {
    /// It is valid.
    Valid(String),
    /// It isn't, and this is what its edit makes of it.
    Edited(String),
    /// It isn't, and it has no edit.
    Stuck,
}

/// What at most two edits make of a text, each for the least of what is wrong with what the one before left; none if
/// there is no such edit. An error means that memory ran out.
pub(crate) fn repaired(
    alloc: Global,
    text: String,
    base: Option<&Record>,
    profile: Profile,
) -> Result<Option<String>, AllocError>
    ensures valid { IfOk result (λ answer.
        IfSome answer (λ text. IsValid profile (option_copied base.entry) (decoded text))) }
    ensures repairs { IfOk result (λ answer.
        Repairs 2 profile (option_copied base.entry) (decoded text) (option_map decoded answer)) }
    ensures rest { IfOk result (λ answer.
        IfSome answer (λ mended. HasRestOf (decoded text) (decoded mended))) }
{
    match once_edited(alloc, text, base, profile)? {
        Tried::Valid(text) => Ok(Some(text)),
        Tried::Edited(next) => repaired_by_one(alloc, next, base, profile),
        Tried::Stuck => Ok(None),
    }
}

// What at most one edit makes of a text, for the least of what is wrong with it, if that is valid.
fn repaired_by_one(
    alloc: Global,
    text: String,
    base: Option<&Record>,
    profile: Profile,
) -> Result<Option<String>, AllocError>
    ensures valid { IfOk result (λ answer.
        IfSome answer (λ text. IsValid profile (option_copied base.entry) (decoded text))) }
    ensures repairs { IfOk result (λ answer.
        Repairs 1 profile (option_copied base.entry) (decoded text) (option_map decoded answer)) }
    ensures rest { IfOk result (λ answer.
        IfSome answer (λ mended. HasRestOf (decoded text) (decoded mended))) }
{
    match once_edited(alloc, text, base, profile)? {
        Tried::Valid(text) => Ok(Some(text)),
        Tried::Edited(next) => repaired_by_none(alloc, next, base, profile),
        Tried::Stuck => Ok(None),
    }
}

// The text itself, if it is valid.
fn repaired_by_none(
    alloc: Global,
    text: String,
    base: Option<&Record>,
    profile: Profile,
) -> Result<Option<String>, AllocError>
    ensures valid { IfOk result (λ answer.
        IfSome answer (λ text. IsValid profile (option_copied base.entry) (decoded text))) }
    ensures repairs { IfOk result (λ answer.
        Repairs 0 profile (option_copied base.entry) (decoded text) (option_map decoded answer)) }
    ensures rest { IfOk result (λ answer.
        IfSome answer (λ mended. HasRestOf (decoded text) (decoded mended))) }
{
    match least(alloc, text.as_str(), base, profile)? {
        None => Ok(Some(text)),
        Some(_) => Ok(None),
    }
}

// What a text is, and what its edit makes of it.
fn once_edited(
    alloc: Global,
    text: String,
    base: Option<&Record>,
    profile: Profile,
) -> Result<Tried, AllocError>
    ensures { IfOk result (IsTried profile (option_copied base.entry) (decoded text)) }
{
    let Some(refusal) = least(alloc, text.as_str(), base, profile)? else {
        return Ok(Tried::Valid(text));
    };
    match edit_of(alloc, text.as_str(), base, refusal)? {
        Some(next) => Ok(Tried::Edited(next)),
        None => Ok(Tried::Stuck),
    }
}

// The least of what is wrong with a text, if anything is: by place, and at one place by the rule's number.
fn least(
    alloc: Global,
    text: &str,
    base: Option<&Record>,
    profile: Profile,
) -> Result<Option<Refusal>, AllocError>
    ensures least { IfOk result (IsLeast (Violation profile (option_copied base.entry) (chars text.now))) }
    ensures valid { IfOk result (λ refusal.
        IfNone refusal (IsValid profile (option_copied base.entry) (chars text.now))) }
    ensures within { IfOk result (λ refusal.
        IfSome refusal (λ least. least.place ≤ length (chars text.now))) }
{
    match check(alloc, text, base, profile)? {
        Verdict::Yes(_) => Ok(None),
        Verdict::No(refusal) => Ok(Some(refusal)),
    }
}
