//! Domains of special URLs (URL Standard, sections 3.3 to 3.5; UTS #46, section 4).
ghost use Rattle.std.specs.Cow.{cow_str_bytes};
ghost use Rattle.std.specs.Prelude.{chars, false, IfOk, IfSome, IsSome, IsTrue, List, MatchOption};
ghost use Rattle.std.specs.Prelude.{None, string_bytes, true, ◌≡◌, ℕ};
ghost use Rattle.std.specs.Str.{IsAscii};
ghost use Rattle.uv_host.specs.Domains.{HasFormByLengths, IsAnswer, IsOwnForm, IsPlainAnswer, fits_lengths};
ghost use Rattle.uv_host.specs.Domains.{is_lower_name, is_plain_name, takes_hyphens};
ghost use Rattle.uv_model.specs.Hosts.Domain as spec;
ghost use Rattle.uv_model.specs.declared.profile.Profile.{Profile};
ghost use Rattle.uv_model.specs.WrittenProfiles.{IsWritten};

use crate::fitting_forms::fitting_form;
use crate::names::Name;
use crate::parser_hosts::parser_form;
use crate::plain_names::ends_in_word;
use idna::AsciiDenyList;
use idna::uts46::{Hyphens, verify_dns_length};
use std::alloc::{AllocError, Global};
use std::borrow::CowStr;
use uv_model::{Profile, ends_in_number, is_domain_mark};

/// What a text is as the domain of a special URL.
#[derive(Drop)]
pub enum DomainAnswer {
    /// A valid domain, with its ASCII form.
    Ascii(String),
    /// Not a valid domain, and only because its form ends in a number.
    Number,
    /// Not a valid domain, for another reason.
    Not,
}

/// Whether the text is a valid domain of the profile, and its ASCII form (URL Standard, section 3.3): ToASCII with the
/// settings of the URL parser gives the form, its labels have 1 to 63 code points and the whole 1 to 253, and it
/// doesn't end in a number. Under the standard profile ToASCII with the strict settings of UTS #46 gives the same form;
/// under the wide profile the form holds only letters, digits, `-`, `.` and `_`. A text with any other ASCII code
/// point, or under the standard profile with `_`, isn't one, and to see that takes no memory. Under the parser's
/// profile the text is percent-decoded before it, and any form will do that isn't empty and holds no forbidden domain
/// code point. An error means that memory ran out.
pub fn domain(alloc: Global, text: &str, profile: Profile) -> Result<DomainAnswer, AllocError>
    ensures answer { IfOk result (IsAnswer profile (chars text.now)) }
    ensures refused { IsWritten profile → spec.has_permitted profile (chars text.now) ≡ false
        → result ≡ Ok DomainAnswer.Not }
{
    let name = Name::of(text.as_bytes());
    if !is_written_so(text, &name, profile) {
        return Ok(DomainAnswer::Not);
    }
    match lower_form(alloc, text, &name, profile)? {
        Some(form) => Ok(check_form(form, profile)),
        None => mapped_domain(alloc, text, profile),
    }
}

/// Whether all ASCII code points of the text are letters, digits and marks of a domain, if the profile requires that.
fn is_written_so(text: &str, name: &Name<'_>, profile: Profile) -> bool
    requires { name.now ≡ text.now }
    ensures value { IsWritten profile → result ≡ spec.has_permitted profile (chars text.now) }
    ensures written { result ≡ false → IsWritten profile }
{
    match profile {
        Profile::Standard | Profile::Wide => has_permitted(text, name, profile),
        Profile::Parser => true,
    }
}

/// The answer on a permitted text by ToASCII.
fn mapped_domain(alloc: Global, text: &str, profile: Profile) -> Result<DomainAnswer, AllocError>
    requires { IsWritten profile → spec.has_permitted profile (chars text.now) ≡ true }
    ensures { IfOk result (IsAnswer profile (chars text.now)) }
{
    let Some(form) = form_of(alloc, text, profile)? else {
        return Ok(DomainAnswer::Not);
    };
    if is_number(form.as_str()) {
        Ok(DomainAnswer::Number)
    } else {
        Ok(DomainAnswer::Ascii(form.into_owned(alloc)?))
    }
}

/// The lower case of a permitted text, if that is its form apart from the lengths: the text is ASCII, and ToASCII
/// leaves its lower case as it is. `None` means that this wasn't found out, not that there is no form.
pub(crate) fn lower_form(
    alloc: Global,
    text: &str,
    name: &Name<'_>,
    profile: Profile,
) -> Result<Option<String>, AllocError>
    requires name { name.now ≡ text.now }
    requires permitted { IsWritten profile → spec.has_permitted profile (chars text.now) ≡ true }
    ensures { IfOk result (λ answer. IfSome answer
        (λ form. HasFormByLengths profile (chars text.now) (string_bytes form))) }
{
    if !name.is_ascii() || is_mapped_in_vain(name, profile) {
        return Ok(None);
    }
    let form = text.to_ascii_lowercase(alloc)?;
    if is_own_form(&Name::of(form.as_str().as_bytes()), profile) {
        Ok(Some(form))
    } else {
        Ok(None)
    }
}

/// Whether the lower case of an ASCII text isn't a form: under the standard profile because of its hyphens, under the
/// others because of its code points. No verdict depends on the answer, only how long one takes.
fn is_mapped_in_vain(name: &Name<'_>, profile: Profile) -> bool {
    match profile {
        Profile::Standard => !name.has_placed_hyphens(),
        Profile::Wide | Profile::Parser => !name.is_permitted(profile),
    }
}

/// Whether ToASCII with the settings of the profile leaves a name as it is. A no means only that this isn't known.
fn is_own_form(name: &Name<'_>, profile: Profile) -> bool
    ensures { IsTrue result → IsOwnForm profile name.now }
{
    match profile {
        Profile::Standard => name.is_form(Profile::Standard) && name.has_placed_hyphens(),
        Profile::Wide => name.is_form(Profile::Wide) && name.is_without_punycode(),
        Profile::Parser => name.is_form(Profile::Parser) && name.is_without_punycode(),
    }
}

/// The answer on any text that has this form, apart from its lengths.
fn check_form(form: String, profile: Profile) -> DomainAnswer
    requires { IsAscii (string_bytes form) }
    ensures { (text : List ℕ) → HasFormByLengths profile text (string_bytes form) → IsAnswer profile text result }
{
    if !fits_lengths(form.as_str(), profile) {
        DomainAnswer::Not
    } else if is_number(form.as_str()) {
        DomainAnswer::Number
    } else {
        DomainAnswer::Ascii(form)
    }
}

/// What a name is as a domain, if that is known without ToASCII. A valid one is its own ASCII form.
#[derive(Clone, Copy, PartialEq, Eq)]
pub enum PlainAnswer {
    /// A valid domain.
    Domain,
    /// Not a valid domain, and only because it ends in a number.
    Number,
    /// Not a valid domain, because its lengths or, under the standard profile, its hyphens are wrong; under the
    /// parser's profile, because it is empty.
    Not,
}

/// What a name is as a domain of the profile (URL Standard, section 3.3), if that is known without ToASCII. It is known
/// for a name of lower-case letters, digits and the marks of a domain, in which no label begins with `xn--`. Such a
/// name is its own form, but under the standard profile it has none if the strict settings of ToASCII refuse its
/// hyphens. `None` for every other text. No memory is taken.
pub fn plain_answer(name: &str, profile: Profile) -> Option<PlainAnswer>
    ensures answer { IfSome result (IsPlainAnswer profile (chars name.now) name.now) }
    ensures plain { is_plain_name (chars name.now) ≡ true → IsSome result }
{
    let known = Name::of(name.as_bytes());
    if known.is_simple() {
        return Some(check_own(name, profile));
    }
    if !is_lower_name(&known, profile) {
        return None;
    }
    if takes_hyphens(&known, profile) {
        Some(check_own(name, profile))
    } else {
        Some(PlainAnswer::Not)
    }
}

/// Lower-case letters, digits and the marks of a domain, with no label that begins with `xn--`.
fn is_lower_name(name: &Name<'_>, profile: Profile) -> bool
    ensures { result ≡ is_lower_name profile name.now }
{
    name.is_form(profile) && name.is_without_punycode()
}

/// Whether the profile takes the hyphens of a name as they are, if no label begins with `xn--`.
fn takes_hyphens(name: &Name<'_>, profile: Profile) -> bool
    ensures { result ≡ takes_hyphens profile name.now }
{
    match profile {
        Profile::Standard => name.has_placed_hyphens(),
        Profile::Wide | Profile::Parser => true,
    }
}

/// The answer on a name that is its own form apart from its lengths.
fn check_own(name: &str, profile: Profile) -> PlainAnswer
    requires { HasFormByLengths profile (chars name.now) name.now }
    ensures { IsPlainAnswer profile (chars name.now) name.now result }
{
    if !fits_lengths(name, profile) {
        PlainAnswer::Not
    } else if is_number(name) {
        PlainAnswer::Number
    } else {
        PlainAnswer::Domain
    }
}

/// Whether all ASCII code points of the text are letters, digits and marks of a domain.
fn has_permitted(text: &str, name: &Name<'_>, profile: Profile) -> bool
    requires { name.now ≡ text.now }
    ensures { result ≡ spec.has_permitted profile (chars text.now) }
{
    if name.is_ascii() {
        return name.is_permitted(profile);
    }
    has_permitted_beyond(text, profile)
}

/// Whether all ASCII code points of a text that isn't all ASCII are letters, digits and marks of a domain.
#[tactic(auto, unfolding(uv_model::specs::Hosts::Domain::has_permitted))]
fn has_permitted_beyond(text: &str, profile: Profile) -> bool
    ensures { result ≡ spec.has_permitted profile (chars text.now) }
{
    text.chars().all(|c| is_permitted(c, profile))
}

/// A code point beyond ASCII, a letter, a digit or a mark of a domain.
fn is_permitted(c: char, profile: Profile) -> bool
    ensures { result ≡ spec.is_permitted profile c }
{
    !c.is_ascii() || c.is_ascii_alphanumeric() || is_domain_mark(c, profile)
}

/// The form of a permitted text, if it has one.
fn form_of(alloc: Global, text: &str, profile: Profile) -> Result<Option<CowStr<'_>>, AllocError>
    requires { IsWritten profile → spec.has_permitted profile (chars text.now) ≡ true }
    ensures { IfOk result (λ answer. MatchOption answer (spec.HasNoForm profile (chars text.now))
        (λ form. spec.IsForm profile (chars text.now) (cow_str_bytes form))) }
{
    match profile {
        Profile::Standard => standard_form(alloc, text),
        Profile::Wide => wide_form(alloc, text),
        Profile::Parser => match parser_form(alloc, text)? {
            Some(form) => Ok(Some(CowStr::Owned(form))),
            None => Ok(None),
        },
    }
}

/// The form that the strict settings give, if there is one with the right lengths: the settings of the URL parser then
/// give the same.
fn standard_form(alloc: Global, text: &str) -> Result<Option<CowStr<'_>>, AllocError>
    requires { spec.has_permitted Profile.Standard (chars text.now) ≡ true }
    ensures { IfOk result (λ answer. MatchOption answer (spec.HasNoForm Profile.Standard (chars text.now))
        (λ form. spec.IsForm Profile.Standard (chars text.now) (cow_str_bytes form))) }
{
    fitting_form(alloc, text, AsciiDenyList::STD3, Hyphens::Check)
}

/// The form that the settings of the URL parser give, if it has the right lengths and only code points of a domain.
fn wide_form(alloc: Global, text: &str) -> Result<Option<CowStr<'_>>, AllocError>
    requires { spec.has_permitted Profile.Wide (chars text.now) ≡ true }
    ensures { IfOk result (λ answer. MatchOption answer (spec.HasNoForm Profile.Wide (chars text.now))
        (λ form. spec.IsForm Profile.Wide (chars text.now) (cow_str_bytes form))) }
{
    let Some(form) = fitting_form(alloc, text, AsciiDenyList::EMPTY, Hyphens::Allow)? else {
        return Ok(None);
    };
    if Name::of(form.as_str().as_bytes()).is_form(Profile::Wide) {
        Ok(Some(form))
    } else {
        Ok(None)
    }
}

/// Whether a form has the lengths that the profile requires: under the parser's profile it only has to have a code
/// point.
pub(crate) fn fits_lengths(form: &str, profile: Profile) -> bool
    ensures { result ≡ fits_lengths profile form.now }
{
    match profile {
        Profile::Standard | Profile::Wide => has_lengths(form),
        Profile::Parser => !form.is_empty(),
    }
}

/// Whether each label of a form has 1 to 63 code points and the whole 1 to 253, not counting a full stop at its end.
pub(crate) fn has_lengths(form: &str) -> bool
    ensures { result ≡ spec.has_lengths form.now }
{
    verify_dns_length(form, true)
}

/// Whether a form ends in a number.
pub(crate) fn is_number(form: &str) -> bool
    requires { IsAscii form.now }
    ensures { result ≡ spec.ends_in_number form.now }
{
    if ends_in_word(form.as_bytes()) {
        return false;
    }
    ends_in_number(form)
}
