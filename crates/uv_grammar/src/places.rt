//! The places of the parts of a cut text, in code points from 0 at the text's start.
ghost use Rattle.std.specs.Prelude.{◌≡◌, ◌+◌, ◌<◌, ◌^◌, IsSome, Some, length};
ghost use Rattle.std.specs.Str.{chars};
ghost use Rattle.uv_model.specs.Violations.Violation.{refusal_after, slashes_place};
ghost use Rattle.uv_model.specs.Cut.{fragment_place, host_place, path_place, port_place, query_place, scheme_end};
ghost use Rattle.uv_grammar.specs.PartViolations.{IsCountable};

use crate::cut::Cut;
use crate::marks::beginnings::has_slash;
use uv_model::Refusal;

// How many code points the text has: in ASCII as many as bytes.
fn count(text: &str) -> usize
    ensures { result ≡ length (chars text.now) }
{
    if text.is_ascii() {
        text.len()
    } else {
        text.chars().count()
    }
}

/// The place after a scheme and `:`.
#[inline(always)]
pub(crate) fn scheme_end(cut: &Cut) -> usize
    requires { IsCountable cut.now }
    ensures { result ≡ scheme_end cut.now }
{
    match cut.scheme {
        Some(scheme) => count(scheme) + 1,
        None => 0,
    }
}

/// The first of the two code points after a scheme and `:` that isn't `/`, or the text's end.
#[inline(always)]
pub(crate) fn slashes_place(cut: &Cut) -> usize
    requires { IsCountable cut.now }
    ensures { result ≡ slashes_place cut.now }
{
    if has_slash(cut.path_text) {
        scheme_end(cut) + 1
    } else {
        scheme_end(cut)
    }
}

/// The place of the host.
#[inline(always)]
pub(crate) fn host_place(cut: &Cut) -> usize
    requires count { IsCountable cut.now }
    requires host { IsSome cut.now.host_text }
    ensures { result ≡ host_place cut.now }
{
    scheme_end(cut) + 2
}

/// The place of the port after a host.
#[inline(always)]
pub(crate) fn port_place(cut: &Cut, host_text: &str) -> usize
    requires count { IsCountable cut.now }
    requires host { cut.now.host_text ≡ Some (chars host_text.now) }
    requires port { IsSome cut.now.port_text }
    ensures { result ≡ port_place (chars host_text.now) cut.now }
{
    host_place(cut) + (count(host_text) + 1)
}

/// The place of the path.
#[inline(always)]
pub(crate) fn path_place(cut: &Cut) -> usize
    requires { IsCountable cut.now }
    ensures { result ≡ path_place cut.now }
{
    let before = scheme_end(cut);
    match (cut.host_text, cut.port_text) {
        (Some(host_text), Some(port_text)) => before + 2 + count(host_text) + 1 + count(port_text),
        (Some(host_text), None) => before + 2 + count(host_text),
        (None, _) => before,
    }
}

/// The place of the query.
#[inline(always)]
pub(crate) fn query_place(cut: &Cut) -> usize
    requires count { IsCountable cut.now }
    requires query { IsSome cut.now.query }
    ensures { result ≡ query_place cut.now }
{
    path_place(cut) + count(cut.path_text) + 1
}

/// The place of the fragment.
#[inline(always)]
pub(crate) fn fragment_place(cut: &Cut) -> usize
    requires count { IsCountable cut.now }
    requires fragment { IsSome cut.now.fragment }
    ensures { result ≡ fragment_place cut.now }
{
    match cut.query {
        Some(query) => query_place(cut) + count(query) + 1,
        None => path_place(cut) + count(cut.path_text) + 1,
    }
}

/// The refusal of a part, counted from the text's start.
#[inline(always)]
pub(crate) fn refusal_after(start: usize, refusal: Refusal) -> Refusal
    requires { start + refusal.place < 2 ^ 64 }
    ensures { result ≡ refusal_after start refusal }
{
    Refusal {
        place: start + refusal.place,
        rule: refusal.rule,
    }
}
