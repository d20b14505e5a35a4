//! The cut of a text into the texts of its parts, none of them checked.
ghost use Rattle.std.specs.Prelude.{◌≡◌, MatchOption, false, true};
ghost use Rattle.std.specs.Str.{chars};
ghost use Rattle.uv_model.specs.Cut.{IsCut, host_before, is_within, port_after, starts_with_two_slashes};
ghost use Rattle.uv_model.specs.Hosts.OpaqueHost.{starts_with_bracket};
ghost use Rattle.uv_model.specs.Setting.{setting_of};
ghost use Rattle.uv_grammar.specs.Bases.{as_base};
ghost use Rattle.uv_grammar.specs.Slices.{chars_of, chars_of_option};
ghost use Rattle.uv_grammar.specs.TextSplits.{IsPortMark, SplitsAuthority, SplitsHost, SplitsMiddle, SplitsScheme};

use crate::bases::Base;
use crate::marks::beginnings::{bracket_first, scheme_end};
use crate::marks::search::first_mark;
use crate::marks::{after_slash, split_at_slash, split_marks};
use crate::setting::Setting;
use std::marker::Model;
use uv_model::{Class, Profile};

/// The texts of the parts of a text.
#[derive(Drop)]
pub(crate) struct Cut<'t> {
    pub(crate) scheme: Option<&'t str>,
    pub(crate) host_text: Option<&'t str>,
    pub(crate) port_text: Option<&'t str>,
    pub(crate) path_text: &'t str,
    pub(crate) query: Option<&'t str>,
    pub(crate) fragment: Option<&'t str>,
}

impl<'t> Model for Cut<'t> {
    ghost use Rattle.uv_model.specs.Cut.{Cut};
    ghost use Rattle.uv_grammar.specs.Slices.{chars_of, chars_of_option};

    ghost Value = { Cut };

    ghost view = { λ c. record {
      scheme = chars_of_option c.scheme;
      host_text = chars_of_option c.host_text;
      port_text = chars_of_option c.port_text;
      path_text = chars_of c.path_text;
      query = chars_of_option c.query;
      fragment = chars_of_option c.fragment;
    } };
}

/// The cut of a text against a base, and what the text is read against. It is inlined, as the texts would else be
/// stored and loaded once more.
#[inline(always)]
pub(crate) fn cut_text<'t, 'b>(
    text: &'t str,
    base: Option<Base<'b>>,
    profile: Profile,
) -> (Cut<'t>, Setting<'b>)
    ensures cut { IsCut (as_base base.entry) (chars text.now) result.0 }
    ensures setting { result.1 ≡ setting_of profile (as_base base.entry) result.0.scheme }
{
    let (start, query, fragment) = split_marks(text);
    let (scheme, middle) = split_scheme(start);
    let setting = Setting::of(base, scheme, profile);
    let (host_text, port_text, path_text) = split_middle(middle, setting.class);
    let cut = Cut {
        scheme,
        host_text,
        port_text,
        path_text,
        query,
        fragment,
    };
    (cut, setting)
}

// The texts of the host and the port, where there is an authority, and of the path.
#[inline(always)]
fn split_middle<'t>(text: &'t str, class: Class) -> (Option<&'t str>, Option<&'t str>, &'t str)
    ensures { SplitsMiddle class (chars text.now) (chars_of_option result.0) (chars_of_option result.1)
        (chars_of result.2) }
{
    match split_authority(text) {
        Some((authority, path_text)) => {
            let (host_text, port_text) = split_host(authority, class);
            (Some(host_text), port_text, path_text)
        }
        None => (None, None, text),
    }
}

/// The scheme, where the text begins with one and `:`, and the rest.
#[inline(always)]
pub(crate) fn split_scheme<'t>(text: &'t str) -> (Option<&'t str>, &'t str)
    ensures { SplitsScheme (chars text.now) (chars_of_option result.0) (chars_of result.1) }
{
    match scheme_end(text.as_bytes()) {
        Some(end) => (Some(&text[..end]), &text[end + 1..]),
        None => (None, text),
    }
}

// The authority and the path, where the text begins with `//`.
#[inline(always)]
fn split_authority<'t>(text: &'t str) -> Option<(&'t str, &'t str)>
    ensures { MatchOption result (starts_with_two_slashes (chars text.now) ≡ false)
        (λ r. SplitsAuthority (chars text.now) (chars_of r.0) (chars_of r.1)) }
{
    match after_slash(text) {
        Some(rest) => match after_slash(rest) {
            Some(rest) => Some(split_at_slash(rest)),
            None => None,
        },
        None => None,
    }
}

// The host of an authority and the text of its port, by the class.
#[inline(always)]
fn split_host<'t>(authority: &'t str, class: Class) -> (&'t str, Option<&'t str>)
    ensures { SplitsHost class (chars authority.now) (chars_of result.0) (chars_of_option result.1) }
{
    match class {
        Class::File => (authority, None),
        Class::SpecialNotFile | Class::Other => split_port(authority),
    }
}

// The host of an authority and the text of its port, if it isn't the authority of a file URL.
#[inline(always)]
fn split_port<'t>(authority: &'t str) -> (&'t str, Option<&'t str>)
    ensures host { chars_of result.0 ≡ host_before false (chars authority.now) }
    ensures port { chars_of_option result.1 ≡ port_after false (chars authority.now) }
{
    match port_mark(authority.as_bytes()) {
        Some(end) => (&authority[..end], Some(&authority[end + 1..])),
        None => (authority, None),
    }
}

// The index of the `:` of a port.
fn port_mark(bytes: &[u8]) -> Option<usize>
    ensures { IsPortMark bytes.now result }
{
    if bracket_first(bytes) {
        return port_mark_after_bracket(bytes);
    }
    match first_mark(bytes, b':') {
        Some(end) => match first_mark(&bytes[..end], b'[') {
            Some(_) => port_mark_by_brackets(bytes),
            None => Some(end),
        },
        None => None,
    }
}

// The index of the `:` of a port, where the authority begins with `[`: no `:` before the first `]` begins a port, so
// the many in an IPv6 address are passed by one search.
fn port_mark_after_bracket(bytes: &[u8]) -> Option<usize>
    requires { starts_with_bracket bytes.now ≡ true }
    ensures { IsPortMark bytes.now result }
{
    match first_mark(bytes, b']') {
        Some(end) => match port_mark_by_brackets(&bytes[end + 1..]) {
            Some(place) => Some(end + 1 + place),
            None => None,
        },
        None => None,
    }
}

// The index of the `:` of a port, where brackets may be before it: the first `:` that isn't within brackets.
fn port_mark_by_brackets(bytes: &[u8]) -> Option<usize>
    ensures { IsPortMark bytes.now result }
{
    let mut within = false;
    for (i, b) in bytes.iter().enumerate() {
        if *b == b':' && !within {
            return Some(i);
        }
        within = is_within(within, *b);
    }
    None
}

// Whether the place after a byte is within brackets, where `within` says it of the place before it.
fn is_within(within: bool, b: u8) -> bool
    ensures { result ≡ is_within within b }
{
    if b == b'[' {
        true
    } else if b == b']' {
        false
    } else {
        within
    }
}
