//! The check of a text: whether it is valid, and where its parts are.
ghost use Rattle.std.specs.Prelude.{◌≡◌, IfOk, IsOk, Option, option_copied};
ghost use Rattle.std.specs.Str.{chars};
ghost use Rattle.uv_grammar.specs.NoMemory.{TakesNoMemoryAgainst};
ghost use Rattle.uv_grammar.specs.Verdict.{IsVerdict};
ghost use Rattle.uv_model.specs.declared.profile.Profile.{Profile};
ghost use Rattle.uv_model.specs.Records.Url.{Url};
ghost use Rattle.urlcheck_c.specs.Answer.{IsAnswerTo, IsChecked, IsFound};
ghost use Rattle.urlcheck_c.specs.Base.{IsOfKindGiven};
ghost use Rattle.urlcheck_c.specs.Finding.{IsSmall};
ghost use Rattle.urlcheck_c.specs.Request.{given};
ghost use Rattle.urlcheck_c.specs.Span.{no_spans};

use crate::bases::{Base, CheckRequest, asked, given_base};
use crate::finding::{CallOutcome, Finding};
use crate::spans::{Spans, placed};
use std::alloc::{AllocError, Global};
use uv_grammar::{Verdict, check_alone, check_of_kind};

/// What a text is, and where its parts are.
#[repr(C)]
#[derive(Clone, Copy)]
pub struct Answer {
    /// The verdict.
    pub found: Finding,
    /// The parts of a valid text, otherwise none.
    pub parts: Spans,
}

/// Whether the bytes are a valid URL string (URL Standard, section 4.3) under the profile with this number, alone or
/// against a base: if `has_base` is true, one that `urlcheck_prepare` made under the same profile.
#[unsafe(no_mangle)]
pub extern "C" fn urlcheck_check(
    alloc: Global,
    text: &[u8],
    profile: u32,
    base: &Base,
    has_base: bool,
) -> Answer
    ensures { IsAnswerTo profile (given has_base base.now) text.now result }
{
    answer_to(alloc, text, profile, given_base(base, has_base))
}

/// What was found of a text, without its parts. Its verdict and its rule are small numbers.
#[inline(always)]
pub(crate) fn found_of(alloc: Global, text: &[u8], profile: u32, base: Option<&Base>) -> Finding
    ensures found { IsFound profile (option_copied base.entry) text.now result }
    ensures small { IsSmall result }
{
    answer_to(alloc, text, profile, base).found
}

// The answer on the bytes of a text.
#[inline(always)]
fn answer_to(alloc: Global, text: &[u8], profile: u32, base: Option<&Base>) -> Answer
    ensures answer { IsAnswerTo profile (option_copied base.entry) text.now result }
    ensures small { IsSmall result.found }
{
    match asked(text, profile, base) {
        Ok(request) => checked(alloc, &request),
        Err(found) => unchecked(found),
    }
}

// The answer on a text that is checked.
#[inline(always)]
fn checked(alloc: Global, request: &CheckRequest<'_>) -> Answer
    ensures answer { (url : Option Url) → IsOfKindGiven url request.now.kind
        → IsChecked request.now.profile url request.now.text.now result }
    ensures small { IsSmall result.found }
{
    let verdict = verdict_on(alloc, request);
    answer_of(request.text, &verdict)
}

/// The verdict on a text that is checked.
#[inline(always)]
pub(crate) fn verdict_on<'t>(
    alloc: Global,
    request: &CheckRequest<'t>,
) -> Result<Verdict<'t>, AllocError>
    ensures verdict { (url : Option Url) → IsOfKindGiven url request.now.kind
        → IfOk result (IsVerdict request.now.profile url (chars request.now.text.now)) }
    ensures memory { (url : Option Url) → IsOfKindGiven url request.now.kind
        → TakesNoMemoryAgainst request.now.profile url (chars request.now.text.now) → IsOk result }
{
    match request.kind {
        Some(kind) => check_of_kind(alloc, request.text, kind, request.profile),
        None => check_alone(alloc, request.text, request.profile),
    }
}

// The answer by the verdict on a text: with the parts of a valid one, or with what the checker says instead. The
// verdict is borrowed, so that a valid text's parts are read where the checker left them.
#[inline(always)]
fn answer_of(text: &str, verdict: &Result<Verdict<'_>, AllocError>) -> Answer
    requires { (profile : Profile) × (base : Option Url) × IfOk verdict.now (IsVerdict profile base (chars text.now)) }
    ensures answer { (profile : Profile) (base : Option Url) → IfOk verdict.now (IsVerdict profile base (chars text.now))
        → (TakesNoMemoryAgainst profile base (chars text.now) → IsOk verdict.now)
        → IsChecked profile base text.now result }
    ensures small { IsSmall result.found }
{
    match verdict {
        Ok(Verdict::Yes(parts)) => Answer {
            found: Finding::plain(CallOutcome::Valid),
            parts: placed(text, parts),
        },
        Ok(Verdict::No(fault)) => unchecked(Finding::refused(CallOutcome::Refused, text, *fault)),
        Err(AllocError) => unchecked(Finding::plain(CallOutcome::Memory)),
    }
}

// An answer without parts.
#[inline(always)]
fn unchecked(found: Finding) -> Answer
    ensures found { result.found ≡ found }
    ensures parts { result.parts ≡ no_spans }
{
    Answer {
        found,
        parts: Spans::none(),
    }
}
