//! What is shown of a line: all of it, or a window around a place of a long one.
ghost use Rattle.std.specs.Prelude.{◌≡◌, ◌++◌, IfOk, OnOk, drop, encode_utf8, flat_map, slice_get, string_bytes, take};
ghost use Rattle.std.specs.Cow.{cow_str_bytes};
ghost use Rattle.std.specs.Str.{chars};
ghost use Rattle.uv_shown.specs.Places.Window as spec;

use crate::places::seen_text::SeenText;
use std::alloc::{AllocError, Global};
use std::borrow::CowStr;
use uv_model::{after_code_points, first_code_point};

/// What is shown of a line in which a place is reported: the line, if it has at most 200 code points, otherwise a
/// window of it, with `…` on each side that is cut.
#[tactic(auto, unfolding(crate::specs::Places::Window::window))]
pub(crate) fn window(alloc: Global, line: &SeenText<'_>, place: usize) -> Result<String, AllocError>
    ensures { IfOk result (λ shown. string_bytes shown ≡ spec.window line.now place) }
{
    if line.is_longer_than_window() {
        cut_out(alloc, line, place.saturating_sub(99))
    } else {
        String::from_str(alloc, line.as_str())
    }
}

/// What a report carries of a line in which a place is reported: the line, or if it has more than 2,000 code points
/// what is shown of it.
#[tactic(auto, unfolding(crate::specs::Places::Window::carried))]
pub fn carried<'l>(
    alloc: Global,
    line: &SeenText<'l>,
    place: usize,
) -> Result<CowStr<'l>, AllocError>
    ensures { IfOk result (λ text. cow_str_bytes text ≡ spec.carried line.now place) }
{
    if line.is_cut() {
        Ok(CowStr::Owned(window(alloc, line, place)?))
    } else {
        Ok(CowStr::Borrowed(line.as_str()))
    }
}

/// Whether a line has more than this many code points.
pub(crate) fn is_longer(line: &str, most: usize) -> bool
    ensures { result ≡ spec.is_longer most line.now }
{
    // No text has more code points than bytes.
    line.len() > most && point_in(line, most).is_some()
}

// The code point at a place of a line.
fn point_in(line: &str, place: usize) -> Option<char>
    ensures { result ≡ slice_get (chars line.now) place }
{
    match first_code_point(rest_in(line, place)) {
        Some((c, _)) => Some(c),
        None => None,
    }
}

/// What comes from a place of a line on: nothing if it has no such place.
pub(crate) fn rest_in(line: &str, place: usize) -> &str
    ensures { chars result.now ≡ drop place (chars line.now) }
{
    // ASCII isn't walked by code points.
    match line.split_at_checked(place) {
        Some((front, rest)) if front.is_ascii() => rest,
        _ => after_code_points(line, place),
    }
}

/// The window from a start on, with `…` on each side where there is more of the line.
#[tactic(auto, unfolding(crate::specs::Places::Window::cut_out, crate::specs::Places::Window::window_points))]
pub fn cut_out(alloc: Global, line: &SeenText<'_>, start: usize) -> Result<String, AllocError>
    ensures { IfOk result (λ shown. string_bytes shown ≡ spec.cut_out line.now start) }
{
    let rest = line.rest_at(start);
    let mut shown = String::new(alloc);
    shown.push_str(cut_mark(start > 0))?;
    push_points(&mut shown, rest)?;
    shown.push_str(cut_mark(is_longer(rest, 198)))?;
    Ok(shown)
}

// `…`, if a line is cut there.
fn cut_mark(is_cut: bool) -> &'static str
    ensures { result.now ≡ spec.cut_mark is_cut }
{
    if is_cut { "…" } else { "" }
}

// Pushes the first 198 code points of a text.
fn push_points(text: &mut String, from: &str) -> Result<(), AllocError>
    ensures { OnOk result (string_bytes text.new
        ≡ string_bytes text.old ++ flat_map encode_utf8 (take 198 (chars from.now))) }
{
    for c in from.chars().take(198) {
        text.push(c)?;
    }
    Ok(())
}
