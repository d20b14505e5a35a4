//! A text in whose path, query and fragment everything that isn't a unit is written as the escapes of its UTF-8.
ghost use Rattle.std.specs.Prelude.{◌≡◌, ◌++◌, IfOk, OnOk, chars, encode_utf8_all, false, flat_map, string_bytes};
ghost use Rattle.percent_encoding.specs.Percent as percent;
ghost use Rattle.uv_model.specs.Units as units;
ghost use Rattle.uv_mend.specs.Escapes.{PassesRun, as_unit, as_units, escape, escaped};

use crate::code_points::{push_one, push_text};
use crate::prefixes::{split_authority, split_scheme};
use percent_encoding::percent_encode_byte;
use std::alloc::{AllocError, Global};
use uv_model::{first_code_point, is_url_code_point, starts_with_two_hex};
use uv_text::{UnitClass, split_units};

/// The text with each code point of the path, the query and the fragment that isn't a unit written as escapes. The
/// scheme and the authority stay. An error means that memory ran out.
#[tactic(auto, unfolding(crate::specs::Escapes::escaped))]
pub(crate) fn escaped(alloc: Global, text: &str) -> Result<String, AllocError>
    ensures { IfOk result (λ out. chars (string_bytes out) ≡ escaped (chars text.now)) }
{
    let (scheme, after) = split_scheme(text);
    let (authority, after) = split_authority(after);
    // Room for some escapes.
    let mut out = String::with_capacity(alloc, text.len().saturating_add(30))?;
    push_text(&mut out, scheme)?;
    push_text(&mut out, authority)?;
    push_units(&mut out, after)?;
    Ok(out)
}

// Appends a path, a query and a fragment, with each code point that isn't a unit as its escapes.
fn push_units(out: &mut String, text: &str) -> Result<(), AllocError>
    ensures { OnOk result (string_bytes out.new
        ≡ string_bytes out.old ++ encode_utf8_all (as_units false (chars text.now))) }
{
    let mut in_fragment = false;
    let mut rest = push_run(out, text)?;
    while let Some((c, after)) = first_code_point(rest) {
        push_unit(out, in_fragment, c, after)?;
        in_fragment = in_fragment || c == '#';
        rest = push_run(out, after)?;
    }
    Ok(())
}

// Appends the units with which a text begins, and gives the rest.
fn push_run<'t>(out: &mut String, text: &'t str) -> Result<&'t str, AllocError>
    ensures { IfOk result (λ rest.
        PassesRun (string_bytes out.old) (string_bytes out.new) (chars text.now) (chars rest.now)) }
{
    let (run, rest) = split_units(text, UnitClass::Url);
    push_text(out, run)?;
    Ok(rest)
}

// Appends one code point. It stays if it is a unit with what follows it, or the `#` before the fragment.
#[tactic(auto, unfolding(crate::specs::Escapes::as_unit))]
fn push_unit(out: &mut String, in_fragment: bool, c: char, after: &str) -> Result<(), AllocError>
    ensures { OnOk result (string_bytes out.new
        ≡ string_bytes out.old ++ encode_utf8_all (as_unit in_fragment c (chars after.now))) }
{
    if !in_fragment && c == '#' {
        return push_one(out, c);
    }
    if is_unit_at(c, after) {
        return push_one(out, c);
    }
    push_escape(out, c)
}

// Whether a code point is a URL code point, or the `%` of an escape.
#[tactic(auto, unfolding(uv_model::specs::Units::is_unit_at))]
fn is_unit_at(c: char, after: &str) -> bool
    ensures { result ≡ units.is_unit_at c (chars after.now) }
{
    if c == '%' {
        starts_with_two_hex(after)
    } else {
        is_url_code_point(c)
    }
}

// Appends the escapes of a code point's UTF-8.
fn push_escape(out: &mut String, c: char) -> Result<(), AllocError>
    ensures { OnOk result (string_bytes out.new ≡ string_bytes out.old ++ encode_utf8_all (escape c)) }
{
    let mut buffer = [0u8; 4];
    push_bytes(out, c.encode_utf8(&mut buffer).as_bytes())
}

// Appends the escape of each byte.
fn push_bytes(out: &mut String, bytes: &[u8]) -> Result<(), AllocError>
    ensures { OnOk result (string_bytes out.new
        ≡ string_bytes out.old ++ flat_map percent.percent_encode_byte bytes.now) }
{
    for &byte in bytes {
        out.push_str(percent_encode_byte(byte))?;
    }
    Ok(())
}
