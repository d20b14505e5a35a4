//! Hosts of special URLs as the URL parser's host parser takes them without an error (URL Standard, sections 3.3 to
//! 3.5).
ghost use Rattle.std.specs.Cow.{cow_slice_items, cow_str_bytes};
ghost use Rattle.std.specs.List.{list_any};
ghost use Rattle.std.specs.Prelude.{◌≡◌, ℕ, List, IfOk, IsTrue, MatchOption, Some, chars, option_map, string_bytes};
ghost use Rattle.std.specs.Str.{IsAscii};
ghost use Rattle.idna.specs.Uts46.{domain_to_ascii};
ghost use Rattle.uv_model.specs.declared.profile.Profile.{Profile};
ghost use Rattle.uv_model.specs.Hosts.Domain as spec;
ghost use Rattle.uv_host.specs.ParserHosts.{IsParserAnswer, is_taken, taken_form};

use crate::domains::{is_number, lower_form};
use crate::names::Name;
use crate::numbers::numbers_value;
use crate::opaque_hosts::starts_with_bracket;
use idna::{AsciiDenyList, Errors, domain_to_ascii_cow};
use percent_encoding::percent_decode;
use std::alloc::{AllocError, Global};
use std::borrow::{CowSlice, CowStr};
use uv_model::{Profile, is_forbidden_domain};

/// What the host parser makes of a text that isn't in brackets.
#[derive(Drop)]
pub enum ParserHost {
    /// A domain, with its ASCII form.
    Domain(String),
    /// An IPv4 address, with its value.
    Address(u32),
    /// A form that ends in a number and isn't an address that the host parser takes without an error.
    Number,
    /// A text without a form.
    Not,
}

/// What the host parser makes of a text that isn't in brackets, without an error (URL Standard, sections 3.3 to 3.5):
/// the text is percent-decoded, and ToASCII gives its form, which isn't empty and holds no forbidden domain code point.
/// A form that ends in a number is one to four numbers from 0 to 255 in shortest decimal form. An error means that
/// memory ran out.
pub fn parser_host(alloc: Global, text: &str) -> Result<ParserHost, AllocError>
    ensures { IfOk result (IsParserAnswer (chars text.now)) }
{
    match any_form(alloc, text)? {
        Some(form) => Ok(check_form(form)),
        None => Ok(ParserHost::Not),
    }
}

// The answer on every text of this form.
fn check_form(form: String) -> ParserHost
    requires { IsAscii (string_bytes form) }
    ensures { (text : List ℕ) → spec.IsForm Profile.Parser text (string_bytes form) → IsParserAnswer text result }
{
    if !is_number(form.as_str()) {
        return ParserHost::Domain(form);
    }
    match numbers_value(form.as_str()) {
        Some(value) => ParserHost::Address(value),
        None => ParserHost::Number,
    }
}

// The form of a text, if it has one: its lower case, if ToASCII would leave that as it is.
fn any_form(alloc: Global, text: &str) -> Result<Option<String>, AllocError>
    ensures { IfOk result (λ answer. MatchOption answer (spec.HasNoForm Profile.Parser (chars text.now))
        (λ form. spec.IsForm Profile.Parser (chars text.now) (string_bytes form))) }
{
    match lower_form(alloc, text, &Name::of(text.as_bytes()), Profile::Parser)? {
        Some(form) if form.as_str().is_empty() => Ok(None),
        Some(form) => Ok(Some(form)),
        None => parser_form(alloc, text),
    }
}

/// The form of a text by percent-decoding and ToASCII, if it has one. An error means that memory ran out.
pub(crate) fn parser_form(alloc: Global, text: &str) -> Result<Option<String>, AllocError>
    ensures { IfOk result (λ answer. MatchOption answer (spec.HasNoForm Profile.Parser (chars text.now))
        (λ form. spec.IsForm Profile.Parser (chars text.now) (string_bytes form))) }
{
    if starts_with_bracket(text) {
        return Ok(None);
    }
    let decoded = percent_decode(text.as_bytes()).into_cow(alloc)?;
    taken_form(alloc, decoded)
}

// What ToASCII gives, if it isn't empty and holds no forbidden domain code point. Bytes that it leaves as they are
// aren't copied.
fn taken_form(alloc: Global, decoded: CowSlice<'_, u8>) -> Result<Option<String>, AllocError>
    ensures { IfOk result (λ form. option_map string_bytes form ≡ taken_form (cow_slice_items decoded.entry)) }
{
    if is_own_form(decoded.as_slice()) {
        return Ok(text_of(decoded.into_owned(alloc)?));
    }
    let Some(form) = ascii_form(alloc, decoded.as_slice())? else {
        return Ok(None);
    };
    if is_taken(form.as_str()) {
        Ok(Some(form.into_owned(alloc)?))
    } else {
        Ok(None)
    }
}

// Whether the bytes are the code points of a form, and ToASCII leaves them as they are. A no means only that this isn't
// known.
fn is_own_form(decoded: &[u8]) -> bool
    ensures ascii { IsTrue result → IsAscii decoded.now }
    ensures own { IsTrue result → taken_form decoded.now ≡ Some decoded.now }
{
    if decoded.is_empty() {
        return false;
    }
    let name = Name::of(decoded);
    name.is_form(Profile::Parser) && name.is_without_punycode()
}

// The text of ASCII bytes, which aren't copied.
fn text_of(bytes: Vec<u8>) -> Option<String>
    requires { IsAscii bytes.items }
    ensures { option_map string_bytes result ≡ Some bytes.items }
{
    match String::from_utf8(bytes) {
        Ok(text) => Some(text),
        Err(_) => None,
    }
}

// ToASCII with the settings of the URL parser (UTS #46, section 4.2).
fn ascii_form(alloc: Global, decoded: &[u8]) -> Result<Option<CowStr<'_>>, AllocError>
    ensures { IfOk result (λ form. option_map cow_str_bytes form
        ≡ domain_to_ascii AsciiDenyList.EMPTY decoded.now) }
{
    match domain_to_ascii_cow(alloc, decoded, AsciiDenyList::EMPTY) {
        Ok(form) => Ok(Some(form)),
        Err(Errors::Invalid) => Ok(None),
        Err(Errors::OutOfMemory) => Err(AllocError),
    }
}

// Whether a form isn't empty and holds no forbidden domain code point.
fn is_taken(form: &str) -> bool
    ensures { result ≡ is_taken form.now }
{
    !form.is_empty() && !has_forbidden(form.as_bytes())
}

fn has_forbidden(form: &[u8]) -> bool
    ensures { result ≡ list_any spec.is_forbidden_domain form.now }
{
    form.iter().any(|b| is_forbidden_domain(char::from(*b)))
}
