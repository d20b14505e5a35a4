//! The links that people write, known at one pass: a special scheme, a plain domain, a port or none, and a path, a
//! query and a fragment of URL units. All other texts are checked by their parts.
ghost use Rattle.std.specs.Prelude.{◌<◌, Option, IfSome};
ghost use Rattle.std.specs.Str.{chars};
ghost use Rattle.uv_model.specs.declared.profile.Profile.{Profile};
ghost use Rattle.uv_model.specs.Records.Url.{Url};
ghost use Rattle.uv_grammar.specs.PlainLinks.{IsPartCut, IsPathCut, IsPlainRest, IsPlainStart};
ghost use Rattle.uv_grammar.specs.Slices.{chars_of, chars_of_option};
ghost use Rattle.uv_grammar.specs.Verdict.{IsAccepted};

use crate::built::build;
use crate::cut::Cut;
use crate::links::prefixes::{begins_with, split_name, split_port, split_prefix, split_special};
use crate::marks::beginnings::{has_slash, has_two_slashes};
use crate::parts::Parts;
use crate::parts_host::{AsciiText, PartsHost};
use uv_text::{Tail, UnitClass, split_tail};

// The texts of the scheme, the domain and the port of a plain link, its port if that isn't the scheme's default, and
// what follows them.
#[derive(Drop)]
pub(crate) struct PlainStart<'t> {
    scheme: &'t str,
    name: &'t str,
    port_text: Option<&'t str>,
    port: Option<u16>,
    rest: Tail<'t>,
}

/// The texts of what follows the authority of a plain link.
#[derive(Clone, Copy)]
pub(crate) struct PlainRest<'t> {
    path_text: &'t str,
    query: Option<&'t str>,
    fragment: Option<&'t str>,
}

/// The parts of a plain link. Under each profile it is valid with these, against any base.
#[inline(always)]
pub(crate) fn plain_parts<'t>(
    text: &'t str,
    start: &PlainStart<'t>,
    rest: &PlainRest<'t>,
) -> Parts<'t>
    requires begins { IsPlainStart (chars text.now) start.now }
    requires goes_on { IsPlainRest (chars start.now.rest) rest.now }
    ensures { (profile : Profile) (base : Option Url) → IsAccepted profile base (chars text.now) result }
{
    let texts = Cut {
        scheme: Some(start.scheme),
        host_text: Some(start.name),
        port_text: start.port_text,
        path_text: rest.path_text,
        query: rest.query,
        fragment: rest.fragment,
    };
    let host = PartsHost::Plain(AsciiText::of(start.name));
    build(text, texts, Some(host), start.port)
}

/// The texts of a plain start: a special scheme, `://`, a domain that is its own ASCII form, and a port or none. `None`
/// leaves it open whether there is one.
#[inline(always)]
pub(crate) fn plain_start<'t>(text: &'t str) -> Option<PlainStart<'t>>
    ensures { IfSome result (IsPlainStart (chars text.now)) }
{
    let Some((scheme, after)) = split_special(text) else {
        return None;
    };
    let Some((name, rest)) = split_name(&after) else {
        return None;
    };
    let Some((port_text, port, rest)) = split_port(rest, scheme) else {
        return None;
    };
    Some(PlainStart {
        scheme,
        name,
        port_text,
        port,
        rest,
    })
}

/// The texts of the rest of a plain link: a path, a query and a fragment of URL units. If there are none, that says
/// nothing.
#[inline(always)]
pub(crate) fn plain_rest<'t>(start: &PlainStart<'t>) -> Option<PlainRest<'t>>
    ensures { IfSome result (IsPlainRest (chars start.now.rest)) }
{
    let Some((path_text, rest)) = split_path(&start.rest) else {
        return None;
    };
    let (query, rest) = split_part(rest, b'?');
    let (fragment, rest) = split_part(rest, b'#');
    if !rest.as_str().is_empty() {
        return None;
    }
    Some(PlainRest {
        path_text,
        query,
        fragment,
    })
}

// A path of units, empty when the text doesn't begin with `/`, and what follows it.
#[inline(always)]
fn split_path<'t>(text: &Tail<'t>) -> Option<(&'t str, Tail<'t>)>
    ensures { IfSome result (λ r. IsPathCut (chars text.now) (chars_of r.0) (chars r.1)) }
{
    if !has_slash(text.as_str()) {
        return Some(split_prefix(text, 0));
    }
    if has_two_slashes(text.as_str()) {
        return None;
    }
    Some(split_tail(text, UnitClass::Path))
}

// The units after a mark, where the text begins with it, and what follows.
#[inline(always)]
fn split_part<'t>(text: Tail<'t>, mark: u8) -> (Option<&'t str>, Tail<'t>)
    requires { mark < 128 }
    ensures { IsPartCut mark (chars text.entry) (chars_of_option result.0) (chars result.1) }
{
    if !begins_with(text.as_str().as_bytes(), mark) {
        return (None, text);
    }
    let (_, after) = split_prefix(&text, 1);
    let (part, rest) = split_tail(&after, UnitClass::Url);
    (Some(part), rest)
}
