//! The host string of a special or a file URL (URL Standard, sections 3.4 and 3.5).
ghost use Rattle.std.specs.Prelude.{◌≡◌, ◌≢◌, IfOk, IsOk, [], false, true};
ghost use Rattle.std.specs.Str.{chars};
ghost use Rattle.uv_model.specs.declared.profile.Profile.{Profile};
ghost use Rattle.uv_model.specs.declared.profile.Profile.TheVariants.{Parser};
ghost use Rattle.uv_model.specs.Hosts.OpaqueHost.{starts_with_bracket};
ghost use Rattle.uv_model.specs.Violations.Violation.{HostTextViolation, ShouldBeDomain};
ghost use Rattle.uv_model.specs.WrittenProfiles.{IsWritten};
ghost use Rattle.uv_host.specs.Domains.{IsPlainAnswer};
ghost use Rattle.uv_grammar.specs.HostValues.{AtStart, NameViolation};
ghost use Rattle.uv_grammar.specs.Checked.{IsChecked};
ghost use Rattle.uv_grammar.specs.NoMemory.{IsPlainDomain, MakesNoForm};
ghost use Rattle.uv_grammar.specs.PartsHost.{IsPartsHostText, IsUnstoppedHostText};

use crate::checked::Checked;
use crate::marks::beginnings::has_bracket;
use crate::parser_stops::is_stopped;
use crate::parts_host::{AsciiText, PartsHost};
use std::alloc::{AllocError, Global};
use uv_host::{
    DomainAnswer, ParserHost, PlainAnswer, bracketed_ipv6, domain, ipv4, parser_host, plain_answer,
};
use uv_model::{Class, Host, Profile, Refusal, Rule, Text};

/// The host string of a special or a file URL, which isn't empty, with its value. Nothing of the text follows the host
/// where `last` says so. A refusal is at the host's start. The error is out of memory.
pub(crate) fn check_host_text<'t>(
    alloc: Global,
    text: &'t str,
    class: Class,
    last: bool,
    profile: Profile,
) -> Result<Checked<PartsHost<'t>>, AllocError>
    requires { chars text.now ≢ [] }
    ensures answer { IfOk result (IsChecked (IsUnstoppedHostText profile class last (chars text.now))
        (AtStart (HostTextViolation profile class last (chars text.now)))) }
    ensures memory { MakesNoForm profile (chars text.now) → IsOk result }
{
    if has_bracket(text) {
        return Ok(check_bracketed_host(text, class, last, profile));
    }
    if is_stopped(text, class, last, profile) {
        return Ok(Checked::Refused(at_start(Rule::HostDomain)));
    }
    check_name(alloc, text, profile)
}

// A host string that begins with `[`.
fn check_bracketed_host(
    text: &str,
    class: Class,
    last: bool,
    profile: Profile,
) -> Checked<PartsHost<'_>>
    requires { starts_with_bracket (chars text.now) ≡ true }
    ensures { IsChecked (IsUnstoppedHostText profile class last (chars text.now))
        (AtStart (HostTextViolation profile class last (chars text.now))) result }
{
    match bracketed_ipv6(text) {
        Some(pieces) => Checked::Valid(PartsHost::Made(Host::V6(pieces))),
        None => Checked::Refused(at_start(Rule::HostIpv6)),
    }
}

// A host string that isn't empty and doesn't begin with `[`: an IPv4 text or a name.
#[inline(always)]
fn check_name<'t>(
    alloc: Global,
    text: &'t str,
    profile: Profile,
) -> Result<Checked<PartsHost<'t>>, AllocError>
    requires some { chars text.now ≢ [] }
    requires plain { starts_with_bracket (chars text.now) ≡ false }
    ensures answer { IfOk result (IsChecked (IsPartsHostText profile (chars text.now))
        (AtStart (NameViolation profile (chars text.now)))) }
    ensures memory { MakesNoForm profile (chars text.now) → IsOk result }
{
    if let Some(value) = ipv4(text) {
        return Ok(Checked::Valid(PartsHost::Made(Host::V4(value))));
    }
    match profile {
        Profile::Standard | Profile::Wide => check_written_name(alloc, text, profile),
        Profile::Parser => check_parser_name(alloc, text),
    }
}

// Under the profiles that say how a domain is written: a name that isn't an IPv4 text.
#[inline(always)]
fn check_written_name<'t>(
    alloc: Global,
    text: &'t str,
    profile: Profile,
) -> Result<Checked<PartsHost<'t>>, AllocError>
    requires written { IsWritten profile }
    requires text { ShouldBeDomain profile (chars text.now) }
    ensures answer { IfOk result (IsChecked (IsPartsHostText profile (chars text.now))
        (AtStart (NameViolation profile (chars text.now)))) }
    ensures memory { MakesNoForm profile (chars text.now) → IsOk result }
{
    if let Some(answer) = plain_answer(text, profile) {
        return Ok(check_plain_name(text, answer, profile));
    }
    match domain(alloc, text, profile)? {
        DomainAnswer::Ascii(form) => Ok(Checked::Valid(PartsHost::Made(Host::Domain(Text::of(
            form,
        ))))),
        DomainAnswer::Number => Ok(Checked::Refused(at_start(Rule::HostNumber))),
        DomainAnswer::Not => Ok(Checked::Refused(at_start(Rule::HostDomain))),
    }
}

// A plain name that isn't an IPv4 text.
#[inline(always)]
fn check_plain_name(text: &str, answer: PlainAnswer, profile: Profile) -> Checked<PartsHost<'_>>
    requires text { ShouldBeDomain profile (chars text.now) }
    requires answer { IsPlainAnswer profile (chars text.now) text.now answer }
    ensures { IsChecked (IsPartsHostText profile (chars text.now)) (AtStart (NameViolation profile (chars text.now)))
        result }
{
    match answer {
        PlainAnswer::Domain => Checked::Valid(PartsHost::Plain(AsciiText::of(text))),
        PlainAnswer::Number => Checked::Refused(at_start(Rule::HostNumber)),
        PlainAnswer::Not => Checked::Refused(at_start(Rule::HostDomain)),
    }
}

// Under the parser's profile: what the host parser makes of the text, if that isn't four numbers.
fn check_parser_name<'t>(alloc: Global, text: &'t str) -> Result<Checked<PartsHost<'t>>, AllocError>
    requires some { chars text.now ≢ [] }
    requires plain { starts_with_bracket (chars text.now) ≡ false }
    ensures answer { IfOk result (IsChecked (IsPartsHostText Parser (chars text.now))
        (AtStart (NameViolation Parser (chars text.now)))) }
    ensures memory { IsPlainDomain (chars text.now) → IsOk result }
{
    match plain_answer(text, Profile::Parser) {
        Some(PlainAnswer::Domain) => Ok(Checked::Valid(PartsHost::Plain(AsciiText::of(text)))),
        Some(PlainAnswer::Number) => check_decoded_name(alloc, text),
        Some(PlainAnswer::Not) => check_decoded_name(alloc, text),
        None => check_decoded_name(alloc, text),
    }
}

// Under the parser's profile: what the host parser makes of a text that isn't taken as it is.
fn check_decoded_name<'t>(
    alloc: Global,
    text: &'t str,
) -> Result<Checked<PartsHost<'t>>, AllocError>
    requires some { chars text.now ≢ [] }
    requires plain { starts_with_bracket (chars text.now) ≡ false }
    ensures { IfOk result (IsChecked (IsPartsHostText Parser (chars text.now))
        (AtStart (NameViolation Parser (chars text.now)))) }
{
    match parser_host(alloc, text)? {
        ParserHost::Domain(form) => Ok(Checked::Valid(PartsHost::Made(Host::Domain(Text::of(
            form,
        ))))),
        ParserHost::Address(value) => Ok(Checked::Valid(PartsHost::Made(Host::V4(value)))),
        ParserHost::Number => Ok(Checked::Refused(at_start(Rule::HostNumber))),
        ParserHost::Not => Ok(Checked::Refused(at_start(Rule::HostDomain))),
    }
}

// The refusal of a whole host by a rule.
fn at_start(rule: Rule) -> Refusal
    ensures { result ≡ (record { place = 0; rule = rule }) }
{
    Refusal { place: 0, rule }
}
