//! The path of segments that a text denotes: a walk over its segments, after the URL Standard, section 4.4.
ghost use Rattle.std.specs.Prelude.{◌≡◌, ◌∷◌, ◌++◌, [], IfOk, OnOk, false, chars, true};
ghost use Rattle.std.specs.List.{list_all};
ghost use Rattle.uv_model.specs.Ascii.{slash};
ghost use Rattle.uv_model.specs.Encoding.{encoded};
ghost use Rattle.uv_model.specs.Path as spec;
ghost use Rattle.uv_resolve.specs.Walk.{is_dots};

use crate::encoded_parts::encoded_part;
use crate::kept::is_never_encoded;
use std::alloc::{AllocError, Global};
use uv_grammar::Segments;
use uv_model::{Class, PathText, is_double_dot, is_normalized_drive_letter, is_single_dot};

/// The segments after a walk from a start list over the segments of a text.
pub(crate) fn walk(
    alloc: Global,
    class: Class,
    start: PathText,
    segments: Segments<'_, '_>,
) -> Result<PathText, AllocError>
    requires { list_all (spec.is_without slash) segments ≡ true }
    ensures { IfOk result (λ path. path ≡ spec.walk class start segments.entry) }
{
    let mut path = start;
    let mut ends_in_dots = false;
    for segment in segments {
        ends_in_dots = step(alloc, class, &mut path, segment)?;
    }
    if ends_in_dots {
        path.push("")?;
    }
    Ok(path)
}

// One segment of a walk, where it is left open whether it is the last. The answer says whether it is a dot segment.
fn step(alloc: Global, class: Class, path: &mut PathText, segment: &str) -> Result<bool, AllocError>
    requires { spec.is_without slash (chars segment.now) ≡ true }
    ensures walked { IfOk result (λ dots.
        path.new ≡ spec.walk_one class false path.old (chars segment.now)) }
    ensures dots { IfOk result (λ dots. dots ≡ is_dots (chars segment.now)) }
{
    if is_double_dot(segment) {
        shorten(class, path);
        return Ok(true);
    }
    if is_single_dot(segment) {
        return Ok(true);
    }
    push_encoded_segment(alloc, path, segment)?;
    Ok(false)
}

// A segment, encoded.
fn push_encoded_segment(alloc: Global, path: &mut PathText, segment: &str) -> Result<(), AllocError>
    requires { spec.is_without slash (chars segment.now) ≡ true }
    ensures { OnOk result (path.new ≡ path.old ++ (encoded false (chars segment.now) ∷ [])) }
{
    if is_never_encoded(segment) {
        return path.push(segment);
    }
    path.push(encoded_part(alloc, segment, false)?.as_str())
}

/// Shortens a path: its last segment goes, unless it is the lone drive letter of a file URL.
pub(crate) fn shorten(class: Class, path: &mut PathText)
    ensures { path.new ≡ spec.shorten class path.old }
{
    match class {
        Class::File if is_lone_drive(path.as_str()) => {}
        Class::File | Class::SpecialNotFile | Class::Other => path.pop(),
    }
}

fn is_lone_drive(path: &str) -> bool
    ensures { result ≡ spec.is_lone_drive (spec.segments_after path.now) }
{
    let bytes = path.as_bytes();
    if bytes.is_empty() {
        return false;
    }
    is_normalized_drive_letter(&bytes[1..])
}
