//! The prefixes of a text: its scheme with `:`, and `//` with the authority.
ghost use Rattle.std.specs.Prelude.{◌≡◌, chars, option_copied};
ghost use Rattle.uv_model.specs.Cut.{starts_with_two_slashes};
ghost use Rattle.uv_model.specs.Scheme as scheme;
ghost use Rattle.uv_model.specs.Scheme.{is_scheme_code_point};
ghost use Rattle.uv_mend.specs.CodePoints.{after_one};
ghost use Rattle.uv_mend.specs.Prefixes as spec;
ghost use Rattle.uv_mend.specs.Prefixes.{after_authority, after_scheme, authority_prefix, before, class_against};
ghost use Rattle.uv_mend.specs.Prefixes.{onward, scheme_prefix, stops};

use crate::code_points::before_rest;
use uv_model::{Class, Record, class_of, first_code_point};

/// Where a prefix of a text ends.
#[derive(Clone, Copy, Debug, PartialEq, Eq)]
pub(crate) enum Stop {
    /// At the `:` after a scheme.
    Scheme,
    /// At the `?` of a query or the `#` of a fragment.
    Start,
    /// There, or at the `/` of a path.
    Authority,
}

impl Stop {
    /// Whether a code point ends the prefix.
    pub(crate) fn is_at(self, c: char) -> bool
        ensures { result ≡ stops self c }
    {
        match self {
            Stop::Scheme => c == ':',
            Stop::Start => c == '?' || c == '#',
            Stop::Authority => c == '/' || c == '?' || c == '#',
        }
    }
}

/// What is before the first code point that ends the prefix, and the rest.
pub(crate) fn split_before(text: &str, stop: Stop) -> (&str, &str)
    ensures before { chars result.0.now ≡ before stop (chars text.now) }
    ensures rest { chars result.1.now ≡ onward stop (chars text.now) }
{
    let rest = onward(text, stop);
    (before_rest(text, rest), rest)
}

// The text from the first code point on that ends the prefix.
fn onward(text: &str, stop: Stop) -> &str
    ensures { chars result.now ≡ onward stop (chars text.now) }
{
    let mut rest = text;
    while let Some((c, after)) = first_code_point(rest) {
        if stop.is_at(c) {
            return rest;
        }
        rest = after;
    }
    rest
}

/// The scheme and its `:`, if the text begins with them, and the rest.
pub(crate) fn split_scheme(text: &str) -> (&str, &str)
    ensures prefix { chars result.0.now ≡ scheme_prefix (chars text.now) }
    ensures rest { chars result.1.now ≡ after_scheme (chars text.now) }
{
    let rest = after_scheme(text);
    (before_rest(text, rest), rest)
}

// What is after them.
#[tactic(auto, unfolding(crate::specs::Prefixes::after_scheme))]
fn after_scheme(text: &str) -> &str
    ensures { chars result.now ≡ after_scheme (chars text.now) }
{
    if starts_with_scheme(text) {
        after_first(onward(text, Stop::Scheme))
    } else {
        text
    }
}

/// `//` and the authority, if the text begins with them, and the rest.
pub(crate) fn split_authority(text: &str) -> (&str, &str)
    ensures prefix { chars result.0.now ≡ authority_prefix (chars text.now) }
    ensures rest { chars result.1.now ≡ after_authority (chars text.now) }
{
    let rest = after_authority(text);
    (before_rest(text, rest), rest)
}

// What is after them.
#[tactic(auto, unfolding(crate::specs::Prefixes::after_authority))]
fn after_authority(text: &str) -> &str
    ensures { chars result.now ≡ after_authority (chars text.now) }
{
    if starts_with_two_slashes(text) {
        onward(after_two(text), Stop::Authority)
    } else {
        text
    }
}

/// Whether a text begins with `//`.
pub(crate) fn starts_with_two_slashes(text: &str) -> bool
    ensures { result ≡ starts_with_two_slashes (chars text.now) }
{
    match first_code_point(text) {
        Some((first, rest)) => match first_code_point(rest) {
            Some((second, _)) => first == '/' && second == '/',
            None => false,
        },
        None => false,
    }
}

/// What is after the first two code points.
pub(crate) fn after_two(text: &str) -> &str
    ensures { chars result.now ≡ after_one (after_one (chars text.now)) }
{
    after_first(after_first(text))
}

// What is after the first code point.
fn after_first(text: &str) -> &str
    ensures { chars result.now ≡ after_one (chars text.now) }
{
    match first_code_point(text) {
        Some((_, rest)) => rest,
        None => text,
    }
}

/// Whether a text begins with a URL-scheme string and `:`.
pub(crate) fn starts_with_scheme(text: &str) -> bool
    ensures { result ≡ scheme.starts_with_scheme (chars text.now) }
{
    match first_code_point(text) {
        Some((first, rest)) => first.is_ascii_alphabetic() && goes_on_to_colon(rest),
        None => false,
    }
}

// Whether code points of a scheme follow, and then `:`.
fn goes_on_to_colon(text: &str) -> bool
    ensures { result ≡ scheme.goes_on_to_colon (chars text.now) }
{
    let mut rest = text;
    while let Some((c, after)) = first_code_point(rest) {
        if c == ':' {
            return true;
        }
        if !is_scheme_code_point(c) {
            return false;
        }
        rest = after;
    }
    false
}

// Whether a code point may be in a scheme after its first.
fn is_scheme_code_point(c: char) -> bool
    ensures { result ≡ is_scheme_code_point c }
{
    c.is_ascii_alphanumeric() || c == '+' || c == '-' || c == '.'
}

/// The class of the text's scheme, or without one of the base's, or without a base `Other`.
pub(crate) fn class_against(text: &str, base: Option<&Record>) -> Class
    ensures { result ≡ class_against (option_copied base.entry) (chars text.now) }
{
    if starts_with_scheme(text) {
        let (scheme, _) = split_before(text, Stop::Scheme);
        class_of(scheme)
    } else {
        class_of_base(base)
    }
}

// The class of the base's scheme, or `Other` if there is no base.
fn class_of_base(base: Option<&Record>) -> Class
    ensures { result ≡ spec.class_of_base (option_copied base.entry) }
{
    match base {
        Some(record) => class_of(record.scheme()),
        None => class_of(""),
    }
}
