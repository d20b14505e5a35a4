//! Whether a path may be in a record, by the class of the scheme and the host (URL Standard, section 4.1).
ghost use Rattle.std.specs.Prelude.{◌≡◌, ◌↔◌, IsTrue, chars, option_copied, true};
ghost use Rattle.uv_model.specs.Path.{IsSegment, ends_with_space, starts_with_slash};
ghost use Rattle.uv_model.specs.Records.WellFormed.{AreUrlSegments, IsUrlOpaquePath, IsUrlPath, IsUrlSegment};
ghost use Rattle.uv_model.specs.Records.WellFormed.{AreSegmentsOf, IsEncodedSpacedPath, IsUnspacedPath, is_ascii_text};
ghost use Rattle.uv_model.specs.Records.WellFormed.{may_be_empty};

use crate::ascii_units::{is_ascii_text, is_ascii_units, is_spaced, is_without};
use uv_model::{Class, Host, PathSegments, Profile, Text, UrlPath, is_double_dot, is_single_dot};

/// Whether a URL of this class with this host may have the path, under the profile.
pub fn is_url_path(class: Class, host: Option<&Host>, path: &UrlPath, profile: Profile) -> bool
    ensures { IsTrue result ↔ IsUrlPath profile class (option_copied host.entry) path.now }
{
    match path {
        UrlPath::Opaque(text) => {
            if !may_be_opaque(class, host) {
                return false;
            }
            is_url_opaque_path(text, profile)
        }
        UrlPath::Segments(path) => are_segments_of(class, host, path.iter()),
    }
}

// A URL without segments has to be of class Other and to have a host.
fn may_be_empty(class: Class, host: Option<&Host>) -> bool
    ensures { result ≡ may_be_empty class (option_copied host.entry) }
{
    match class {
        Class::SpecialNotFile => false,
        Class::File => false,
        Class::Other => host.is_some(),
    }
}

// A URL with an opaque path has to be of class Other and to have no host.
fn may_be_opaque(class: Class, host: Option<&Host>) -> bool
    ensures { IsTrue result ↔ ((class ≡ Class.Other) × (option_copied host.entry ≡ None)) }
{
    match class {
        Class::SpecialNotFile => false,
        Class::File => false,
        Class::Other => host.is_none(),
    }
}

// Whether a text may be an opaque path. Only the parser's profile permits spaces in it.
fn is_url_opaque_path(text: &Text, profile: Profile) -> bool
    ensures { IsTrue result ↔ IsUrlOpaquePath profile text.now }
{
    let bytes = text.as_str().as_bytes();
    match profile {
        Profile::Standard | Profile::Wide => is_unspaced_path(bytes),
        Profile::Parser => is_encoded_spaced_path(bytes),
    }
}

// ASCII with spaces, none of them at its end.
fn is_encoded_spaced_path(bytes: &[u8]) -> bool
    ensures { IsTrue result ↔ IsEncodedSpacedPath bytes.now }
{
    if !is_ascii_text(bytes) || !is_spaced(bytes) {
        return false;
    }
    if !is_without(b'?', bytes) || starts_with_slash(bytes) {
        return false;
    }
    !ends_with_space(bytes)
}

fn ends_with_space(text: &[u8]) -> bool
    ensures { result ≡ ends_with_space text.now }
{
    match text {
        [.., last] => *last == b' ',
        [] => false,
    }
}

// ASCII URL units without `?`, which don't begin with `/`, as a path of segments does.
fn is_unspaced_path(bytes: &[u8]) -> bool
    ensures { IsTrue result ↔ IsUnspacedPath bytes.now }
{
    if !is_ascii_units(bytes) {
        return false;
    }
    if !is_without(b'?', bytes) {
        return false;
    }
    !starts_with_slash(bytes)
}

fn starts_with_slash(text: &[u8]) -> bool
    ensures { result ≡ starts_with_slash text.now }
{
    match text {
        [first, ..] => *first == b'/',
        [] => false,
    }
}

// Whether these may be the segments of a path. There may be none only after a host of class Other.
fn are_segments_of(class: Class, host: Option<&Host>, segments: PathSegments<'_>) -> bool
    ensures { IsTrue result ↔ AreSegmentsOf class (option_copied host.entry) segments.entry }
{
    let mut left = segments;
    match left.next_text() {
        Some(first) => is_url_segment(first) && are_url_segments(left),
        None => may_be_empty(class, host),
    }
}

// Whether each text may be a segment.
fn are_url_segments(segments: PathSegments<'_>) -> bool
    ensures { IsTrue result ↔ AreUrlSegments segments.entry }
{
    let mut left = segments;
    while let Some(segment) = left.next_text() {
        if !is_url_segment(segment) {
            return false;
        }
    }
    true
}

// Whether a text may be a segment: dot segments are resolved, so no record has one.
fn is_url_segment(segment: &str) -> bool
    requires { chars segment.now ≡ segment.now }
    ensures { IsTrue result ↔ IsUrlSegment segment.now }
{
    if !is_ascii_segment(segment.as_bytes()) {
        return false;
    }
    if is_single_dot(segment) {
        return false;
    }
    !is_double_dot(segment)
}

// ASCII URL units without `/` and `?`, which end a segment.
fn is_ascii_segment(text: &[u8]) -> bool
    ensures { IsTrue result ↔ (IsSegment text.now × (is_ascii_text text.now ≡ true)) }
{
    if !is_ascii_units(text) {
        return false;
    }
    if !is_without(b'/', text) {
        return false;
    }
    is_without(b'?', text)
}
