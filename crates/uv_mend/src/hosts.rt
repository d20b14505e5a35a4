//! The host of a text, written as the crate `url` writes it.
ghost use Rattle.std.specs.Prelude.{◌≡◌, IfOk, IfSome, chars, false, option_copied, option_map};
ghost use Rattle.uv_model.specs.Cut.{is_within};
ghost use Rattle.uv_mend.specs.Hosts as spec;
ghost use Rattle.uv_mend.specs.Repairs.{decoded};
ghost use Rattle.uv_mend.specs.Rest.{KeepsRestAfterHost};

use crate::code_points::push_text;
use crate::prefixes::{Stop, after_two, class_against, split_scheme};
use crate::second_parser::reading;
use std::alloc::{AllocError, Global};
use url::Url;
use uv_model::{Class, Record, first_code_point};

/// The text with the host that the second parser reads in it; none if it reads no URL, no host, or a user name or a
/// password. An error means that memory ran out.
pub(crate) fn rehosted(
    alloc: Global,
    text: &str,
    base: Option<&Record>,
) -> Result<Option<String>, AllocError>
    ensures edit { IfOk result (λ out. option_map decoded out
        ≡ spec.rehosted (option_copied base.entry) (chars text.now)) }
    ensures rest { IfOk result (λ out. IfSome out (λ next. KeepsRestAfterHost (chars text.now) (decoded next))) }
{
    let Some(url) = reading(alloc, base, text)? else {
        return Ok(None);
    };
    let Some(host) = plain_host(&url) else {
        return Ok(None);
    };
    let class = class_against(text, base);
    Ok(Some(with_host(alloc, class, text, host)?))
}

// The host of a URL that has one, and neither a user name nor a password.
#[tactic(auto, unfolding(crate::specs::Hosts::plain_host))]
fn plain_host(url: &Url) -> Option<&str>
    ensures { option_map chars (option_copied result) ≡ spec.plain_host url.now }
{
    if !url.username().is_empty() {
        return None;
    }
    match url.password() {
        Some(_) => None,
        None => url.host_str(),
    }
}

// The text with a host in place of its own.
#[tactic(auto, unfolding(crate::specs::Hosts::with_host))]
fn with_host(alloc: Global, class: Class, text: &str, host: &str) -> Result<String, AllocError>
    ensures { IfOk result (λ out. decoded out ≡ spec.with_host class (chars text.now) (chars host.now)) }
{
    let (scheme, after) = split_scheme(text);
    let mut out = String::new(alloc);
    push_text(&mut out, scheme)?;
    push_text(&mut out, "//")?;
    push_text(&mut out, host)?;
    push_text(&mut out, after_host(class, after_two(after)))?;
    Ok(out)
}

// What follows the host with which a text begins.
fn after_host(class: Class, text: &str) -> &str
    ensures { chars result.now ≡ spec.after_host class false (chars text.now) }
{
    let mut within = false;
    let mut rest = text;
    while let Some((c, after)) = first_code_point(rest) {
        if ends_host(class, within, c) {
            return rest;
        }
        within = is_within(within, c);
        rest = after;
    }
    rest
}

// Whether a code point ends a host. A `:` within brackets doesn't, since it is part of an IPv6 address.
#[tactic(auto, unfolding(crate::specs::Hosts::ends_host))]
fn ends_host(class: Class, within: bool, c: char) -> bool
    ensures { result ≡ spec.ends_host class within c }
{
    match class {
        Class::File => Stop::Authority.is_at(c),
        Class::SpecialNotFile | Class::Other => Stop::Authority.is_at(c) || (c == ':' && !within),
    }
}

// Whether what follows a code point is within brackets.
fn is_within(within: bool, c: char) -> bool
    ensures { result ≡ is_within within c }
{
    match c {
        '[' => true,
        ']' => false,
        _ => within,
    }
}
