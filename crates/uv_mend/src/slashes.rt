//! The slashes of a text, as the URL parser reads them.
ghost use Rattle.std.specs.Cow.{cow_str_bytes};
ghost use Rattle.std.specs.Prelude.{◌≡◌, ◌++◌, IfOk, OnOk, chars, encode_utf8_all, option_copied, string_bytes, true};
ghost use Rattle.uv_model.specs.Ascii.{backslash};
ghost use Rattle.uv_model.specs.Path.{is_without};
ghost use Rattle.uv_mend.specs.Slashes as spec;
ghost use Rattle.uv_mend.specs.Slashes.{IsSlashed, as_slash, new_slashes, renews_slashes, slashed_after, with_slashes};

use crate::code_points::{push_one, push_text};
use crate::prefixes::{
    Stop, after_two, class_against, split_scheme, starts_with_scheme, starts_with_two_slashes,
};
use memchr::memchr;
use std::alloc::{AllocError, Global};
use std::borrow::CowStr;
use uv_model::{Class, Record, first_code_point};

/// The text with its slashes as they are read, which changes only a text of class SpecialNotFile or File. An error
/// means that memory ran out.
pub(crate) fn slashed<'t>(
    alloc: Global,
    text: &'t str,
    base: Option<&Record>,
) -> Result<CowStr<'t>, AllocError>
    ensures { IfOk result (λ out. chars (cow_str_bytes out)
        ≡ spec.slashed (option_copied base.entry) (chars text.now)) }
{
    let (scheme, after) = split_scheme(text);
    let has_scheme = starts_with_scheme(text);
    if is_slashed(has_scheme, after) {
        return Ok(CowStr::Borrowed(text));
    }
    let class = class_against(text, base);
    let mut out = String::with_capacity(alloc, text.len().saturating_add(3))?;
    push_text(&mut out, scheme)?;
    push_slashed(&mut out, class, has_scheme, after)?;
    Ok(CowStr::Owned(out))
}

// Whether the slashes of what follows a scheme, or of a text without one, are as they are read, whatever its class. For
// most texts they are.
fn is_slashed(has_scheme: bool, text: &str) -> bool
    ensures { result ≡ true → IsSlashed has_scheme (chars text.now) }
{
    has_no_backslash(text) && begins_slashed(has_scheme, text)
}

// Whether a text has no `\`.
fn has_no_backslash(text: &str) -> bool
    ensures { result ≡ true → is_without backslash (chars text.now) ≡ true }
{
    memchr(b'\\', text.as_bytes()).is_none()
}

// Whether the slashes at its start are.
fn begins_slashed(has_scheme: bool, text: &str) -> bool
    ensures { result ≡ spec.begins_slashed has_scheme (chars text.now) }
{
    if starts_with_two_marks(text) {
        starts_with_two_slashes(text) && !starts_with_mark(after_two(text))
    } else {
        !has_scheme
    }
}

// Whether a text begins with a slash or a backslash.
fn starts_with_mark(text: &str) -> bool
    ensures { result ≡ spec.starts_with_mark (chars text.now) }
{
    match first_code_point(text) {
        Some((first, _)) => is_slash_mark(first),
        None => false,
    }
}

// Appends what follows a scheme, or a text without a scheme.
#[tactic(auto, unfolding(crate::specs::Slashes::slashed_after))]
fn push_slashed(
    out: &mut String,
    class: Class,
    has_scheme: bool,
    text: &str,
) -> Result<(), AllocError>
    ensures { OnOk result (string_bytes out.new
        ≡ string_bytes out.old ++ encode_utf8_all (slashed_after class has_scheme (chars text.now))) }
{
    if renews_slashes(class, has_scheme, text) {
        push_text(out, new_slashes(class))?;
        push_with_slashes(out, class, after_marks(text))
    } else {
        push_with_slashes(out, class, text)
    }
}

// Whether the slashes at the start of a text are replaced.
#[tactic(auto, unfolding(crate::specs::Slashes::renews_slashes))]
fn renews_slashes(class: Class, has_scheme: bool, text: &str) -> bool
    ensures { result ≡ renews_slashes class has_scheme (chars text.now) }
{
    match class {
        Class::SpecialNotFile => has_scheme || starts_with_two_marks(text),
        Class::File => has_scheme && !starts_with_two_marks(text),
        Class::Other => false,
    }
}

// The slashes that replace them.
fn new_slashes(class: Class) -> &'static str
    ensures { chars result.now ≡ new_slashes class }
{
    match class {
        Class::SpecialNotFile => "//",
        Class::File => "///",
        Class::Other => "",
    }
}

// Appends a text in which each code point before the query and the fragment is a slash if it is read as one.
fn push_with_slashes(out: &mut String, class: Class, text: &str) -> Result<(), AllocError>
    ensures { OnOk result (string_bytes out.new
        ≡ string_bytes out.old ++ encode_utf8_all (with_slashes class (chars text.now))) }
{
    let mut rest = text;
    while let Some((c, after)) = first_code_point(rest) {
        if Stop::Start.is_at(c) {
            return push_text(out, rest);
        }
        push_one(out, as_slash(class, c))?;
        rest = after;
    }
    Ok(())
}

// A code point, or a slash if it is read as one.
#[tactic(auto, unfolding(crate::specs::Slashes::as_slash))]
fn as_slash(class: Class, c: char) -> char
    ensures { result ≡ as_slash class c }
{
    match class {
        Class::SpecialNotFile | Class::File => if c == '\\' { '/' } else { c },
        Class::Other => c,
    }
}

// The text after the slashes and backslashes at its start.
fn after_marks(text: &str) -> &str
    ensures { chars result.now ≡ spec.after_marks (chars text.now) }
{
    let mut rest = text;
    while let Some((c, after)) = first_code_point(rest) {
        if !is_slash_mark(c) {
            return rest;
        }
        rest = after;
    }
    rest
}

// Whether a text begins with two slashes or backslashes.
fn starts_with_two_marks(text: &str) -> bool
    ensures { result ≡ spec.starts_with_two_marks (chars text.now) }
{
    match first_code_point(text) {
        Some((first, rest)) => match first_code_point(rest) {
            Some((second, _)) => is_slash_mark(first) && is_slash_mark(second),
            None => false,
        },
        None => false,
    }
}

// Whether the parser reads a code point as a slash in a special URL.
fn is_slash_mark(c: char) -> bool
    ensures { result ≡ spec.is_slash_mark c }
{
    c == '/' || c == '\\'
}
