//! The sentence on what is wrong with a text.
ghost use Rattle.std.specs.Prelude.{IfOk, option_copied, string_bytes};
ghost use Rattle.uv_sentences.specs.Sentences.Message.{IsMessage};
ghost use Rattle.urlcheck_c.specs.Request.{given};
ghost use Rattle.urlcheck_c.specs.Violation.{IsMessageAnswer, IsMessageGiven, IsViolationRead};

use crate::bases::{Base, CheckRequest, asked, given_base};
use crate::buffers::write_prefix;
use crate::finding::{CallOutcome, Finding};
use crate::reports::report_numbers::violation_of;
use crate::written::Written;
use std::alloc::{AllocError, Global};
use uv_grammar::{BaseKind, is_valid_of_kind, wider_profile};
use uv_model::Profile;
use uv_rules::LineViolation;
use uv_sentences::{Checked, KnownText, PlacedMessage, Wording, is_by_choice, message};
use uv_text::count_code_points;

/// What is wrong with a text that is checked, alone or against a base.
#[derive(Drop)]
pub(crate) struct FoundViolation<'t> {
    /// How the text was checked.
    pub(crate) request: CheckRequest<'t>,
    /// What is wrong.
    pub(crate) violation: LineViolation,
}

/// Writes the sentence on a violation of a text by a profile, alone or against a base as `urlcheck_check` has it, at a
/// place in code points, without its full stop: what compilers print after `error: `. The wording is one of four, by
/// its number. The answer has the place of the code point that the sentence names.
#[unsafe(no_mangle)]
pub extern "C" fn urlcheck_message(
    alloc: Global,
    text: &[u8],
    profile: u32,
    base: &Base,
    has_base: bool,
    wording: u32,
    rule: u32,
    place: usize,
    out: &mut [u8],
) -> Written
    ensures { IsMessageAnswer profile (given has_base base.now) wording rule place text.now out.old out.new result }
{
    if wording > 3 {
        return Written::refused(CallOutcome::NoWording);
    }
    match violation_read(text, profile, given_base(base, has_base), rule, place) {
        Ok(found) => said(alloc, &found, wording_of(wording), out),
        Err(found) => Written::none(found),
    }
}

// The wording with this number; the silent one for any other number.
fn wording_of(number: u32) -> Wording {
    match number {
        0 => Wording::Options,
        1 => Wording::Arguments,
        2 => Wording::Sql,
        _ => Wording::Silent,
    }
}

// What is wrong with the bytes of a text, by the numbers of a profile and of a rule of texts or of lines, at a place;
// or why these numbers don't say it.
fn violation_read<'t>(
    text: &'t [u8],
    profile: u32,
    base: Option<&Base>,
    rule: u32,
    place: usize,
) -> Result<FoundViolation<'t>, Finding>
    ensures { IsViolationRead profile (option_copied base.entry) rule place text.now result }
{
    let request = asked(text, profile, base)?;
    let Some(violation) = violation_of(rule, place) else {
        return Err(Finding::plain(CallOutcome::NoRule));
    };
    if place > count_code_points(request.text) {
        return Err(Finding::plain(CallOutcome::NoPlace));
    }
    Ok(FoundViolation { request, violation })
}

// Writes the sentence by this wording.
fn said(alloc: Global, found: &FoundViolation<'_>, wording: Wording, out: &mut [u8]) -> Written
    ensures { IsMessageGiven found.now.request.text.now out.old out.new result }
{
    match sentence(alloc, found, wording) {
        Ok(said) => Written {
            found: Finding::placed(CallOutcome::Done, found.request.text, said.place),
            length: write_prefix(said.text.as_bytes(), out),
        },
        Err(AllocError) => Written::refused(CallOutcome::Memory),
    }
}

// The sentence, by this wording.
fn sentence(
    alloc: Global,
    found: &FoundViolation<'_>,
    wording: Wording,
) -> Result<PlacedMessage, AllocError>
    ensures { IfOk result (λ said. IsMessage (string_bytes said.text)) }
{
    let request = &found.request;
    let accepted_by = if is_by_choice(found.violation) {
        accepting_profile(alloc, request)?
    } else {
        None
    };
    let checked = Checked {
        profile: request.profile,
        accepted_by,
        wording,
    };
    message(
        alloc,
        checked,
        &KnownText::new(request.text),
        found.violation,
    )
}

// The next wider profile by which the text is valid, where there is one.
fn accepting_profile(
    alloc: Global,
    request: &CheckRequest<'_>,
) -> Result<Option<Profile>, AllocError> {
    match request.kind {
        Some(kind) => profile_against(alloc, request.text, kind, request.profile),
        None => wider_profile(alloc, request.text, None, request.profile),
    }
}

// The same against a base of this kind: under a wider profile the base denotes the same URL as under its own.
fn profile_against(
    alloc: Global,
    text: &str,
    base: BaseKind,
    profile: Profile,
) -> Result<Option<Profile>, AllocError> {
    if profile == Profile::Standard && is_valid_of_kind(alloc, text, base, Profile::Wide)? {
        return Ok(Some(Profile::Wide));
    }
    if profile != Profile::Parser && is_valid_of_kind(alloc, text, base, Profile::Parser)? {
        return Ok(Some(Profile::Parser));
    }
    Ok(None)
}
