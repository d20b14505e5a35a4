//! What the URL parser removes from its input before anything else.
ghost use Rattle.std.specs.Cow.{cow_str_bytes};
ghost use Rattle.std.specs.Prelude.{◌≡◌, ◌++◌, IfOk, OnOk, chars, encode_utf8_all, string_bytes, true};
ghost use Rattle.uv_mend.specs.Stripped as spec;

use crate::code_points::{last_code_point, push_one};
use memchr::memchr3;
use std::alloc::{AllocError, Global};
use std::borrow::CowStr;
use uv_model::first_code_point;

/// The text without C0 controls and spaces at both ends, and without tabs, LF and CR. An error means that memory ran
/// out.
pub(crate) fn stripped<'t>(alloc: Global, text: &'t str) -> Result<CowStr<'t>, AllocError>
    ensures { IfOk result (λ out. chars (cow_str_bytes out) ≡ spec.stripped (chars text.now)) }
{
    on_one_line(alloc, before_controls(after_controls(text)))
}

// The text without C0 controls and spaces at its start.
fn after_controls(text: &str) -> &str
    ensures { chars result.now ≡ spec.after_controls (chars text.now) }
{
    let mut rest = text;
    while let Some((c, after)) = first_code_point(rest) {
        if !is_control_or_space(c) {
            return rest;
        }
        rest = after;
    }
    rest
}

// The text without C0 controls and spaces at its end.
fn before_controls(text: &str) -> &str
    ensures { chars result.now ≡ spec.before_controls (chars text.now) }
{
    let mut rest = text;
    while let Some((before, c)) = last_code_point(rest) {
        if is_control_or_space(c) {
            rest = before;
        } else {
            return rest;
        }
    }
    rest
}

// The text without tabs, LF and CR, which few texts have.
fn on_one_line<'t>(alloc: Global, text: &'t str) -> Result<CowStr<'t>, AllocError>
    ensures { IfOk result (λ out. chars (cow_str_bytes out) ≡ spec.on_one_line (chars text.now)) }
{
    if is_on_one_line(text) {
        return Ok(CowStr::Borrowed(text));
    }
    let mut out = String::with_capacity(alloc, text.len())?;
    push_on_one_line(&mut out, text)?;
    Ok(CowStr::Owned(out))
}

// Whether a text has no tab, LF or CR.
fn is_on_one_line(text: &str) -> bool
    ensures { result ≡ true → spec.on_one_line (chars text.now) ≡ chars text.now }
{
    memchr3(b'\t', b'\n', b'\r', text.as_bytes()).is_none()
}

// Appends a text without tabs, LF and CR.
fn push_on_one_line(out: &mut String, text: &str) -> Result<(), AllocError>
    ensures { OnOk result (string_bytes out.new
        ≡ string_bytes out.old ++ encode_utf8_all (spec.on_one_line (chars text.now))) }
{
    let mut rest = text;
    while let Some((c, after)) = first_code_point(rest) {
        if !is_tab_or_newline(c) {
            push_one(out, c)?;
        }
        rest = after;
    }
    Ok(())
}

// Whether the parser removes a code point from both ends of a text.
fn is_control_or_space(c: char) -> bool
    ensures { result ≡ spec.is_control_or_space c }
{
    c <= ' '
}

// Whether the parser removes a code point anywhere in a text.
fn is_tab_or_newline(c: char) -> bool
    ensures { result ≡ spec.is_tab_or_newline c }
{
    c == '\t' || c == '\n' || c == '\r'
}
