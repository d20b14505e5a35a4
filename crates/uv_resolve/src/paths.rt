//! The path of the record that the parts of a valid text denote, after the URL Standard, section 4.4.
ghost use Rattle.std.specs.Prelude.{◌≡◌, ◌∷◌, [], IfOk, IfSome, MatchOption, false, true, chars};
ghost use Rattle.std.specs.Prelude.{option_copied, string_bytes};
ghost use Rattle.uv_model.specs.Records.Denote as spec;
ghost use Rattle.uv_model.specs.Encoding.{encoded};
ghost use Rattle.uv_model.specs.Path as path_spec;
ghost use Rattle.uv_model.specs.Records.Serialize.{serial_segments};
ghost use Rattle.uv_resolve.specs.Kept.{begins_with_one_slash};
ghost use Rattle.uv_resolve.specs.Walk.{StartsSegments};
ghost use Rattle.uv_resolve.specs.Written.{IsRooted, IsSlashed, IsWholePath};

use crate::encoded_parts::encoded_part;
use crate::kept::{is_never_encoded, is_without_dots};
use crate::walker::{shorten, walk};
use std::alloc::{AllocError, Global};
use uv_grammar::{Form, Parts};
use uv_model::{
    Class, PathText, Record, Text, UrlPath, is_drive_letter, is_normalized_drive_letter,
};
use uv_text::encode;

/// The path that the parts denote against the base, in a URL of this class.
pub(crate) fn path_of(
    alloc: Global,
    class: Class,
    parts: &Parts<'_>,
    base: Option<&Record>,
) -> Result<UrlPath, AllocError>
    ensures { IfOk result (λ path.
        path ≡ spec.denoted_path (option_copied base.entry) class parts.now.form parts.now) }
{
    match whole_path(class, parts) {
        Some(text) => Ok(UrlPath::Segments(whole(alloc, text)?)),
        None => made_path(alloc, class, parts, base),
    }
}

/// The text that is encoded as the path, where the path begins again at a `/`, after which no second one stands, and no
/// segment begins as a dot segment does. So are the paths of most links. None says nothing.
#[inline(always)]
pub(crate) fn whole_path<'t>(class: Class, parts: &Parts<'t>) -> Option<&'t str>
    ensures { IfSome result (λ text. IsWholePath class parts.now (chars text.now)) }
{
    // Only for the proof: the clause of this call says how the segments follow from the path's text.
    let _segments = parts.segments();
    let text = parts.path_text();
    match parts.form() {
        Form::SchemeAuthority => rooted(class, text),
        Form::Authority => rooted(class, text),
        Form::SchemePath => slashed(text),
        Form::PathAbsolute => match class {
            Class::SpecialNotFile => slashed(text),
            Class::Other => slashed(text),
            Class::File => None,
        },
        Form::SchemeOpaque | Form::PathRelative | Form::NoPath => None,
    }
}

// The text that is encoded as the path after an authority. Its own text may be empty. None says nothing.
#[inline(always)]
fn rooted<'t>(class: Class, text: &'t str) -> Option<&'t str>
    ensures { IfSome result (λ found. IsRooted class (chars text.now) found.now) }
{
    if text.is_empty() {
        Some(root_text(class))
    } else {
        slashed(text)
    }
}

// The text of the path of a URL whose text has none after its authority.
fn root_text(class: Class) -> &'static str
    ensures { result.now ≡ serial_segments (spec.authority_path class []) }
{
    match class {
        Class::SpecialNotFile | Class::File => "/",
        Class::Other => "",
    }
}

// A text, where it begins with one `/` and no segment begins as a dot segment does.
#[inline(always)]
fn slashed<'t>(text: &'t str) -> Option<&'t str>
    ensures { IfSome result (λ found. (found.now ≡ text.now) × IsSlashed (chars text.now)) }
{
    let bytes = text.as_bytes();
    if begins_with_one_slash(bytes) && is_without_dots(bytes) {
        Some(text)
    } else {
        None
    }
}

fn begins_with_one_slash(text: &[u8]) -> bool
    ensures { result ≡ begins_with_one_slash text.now }
{
    match text {
        [first, rest @ ..] => *first == b'/' && !begins_with_slash(rest),
        [] => false,
    }
}

fn begins_with_slash(text: &[u8]) -> bool
    ensures { result ≡ path_spec.starts_with_slash text.now }
{
    match text {
        [first, ..] => *first == b'/',
        [] => false,
    }
}

// The path of such a text.
fn whole(alloc: Global, text: &str) -> Result<PathText, AllocError>
    ensures { IfOk result (λ path. path ≡ path_spec.segments_of (encoded false (chars text.now))) }
{
    if is_never_encoded(text) {
        return PathText::of(alloc, text);
    }
    PathText::of_string(alloc, encode(alloc, text, false)?)
}

/// The path, made segment by segment where it has such.
#[inline(never)]
pub(crate) fn made_path(
    alloc: Global,
    class: Class,
    parts: &Parts<'_>,
    base: Option<&Record>,
) -> Result<UrlPath, AllocError>
    ensures { IfOk result (λ path.
        path ≡ spec.denoted_path (option_copied base.entry) class parts.now.form parts.now) }
{
    match parts.form() {
        Form::SchemeAuthority | Form::Authority => authority_path(alloc, class, parts),
        Form::SchemePath => walked(alloc, class, path_for(alloc, parts)?, parts),
        Form::SchemeOpaque => opaque_path(alloc, parts.path_text(), has_tail(parts)),
        Form::PathAbsolute => walked(alloc, class, kept_drive(alloc, class, parts, base)?, parts),
        Form::PathRelative => walked(alloc, class, shortened(alloc, class, parts, base)?, parts),
        Form::NoPath => base_path(alloc, base),
    }
}

// The path after an authority.
fn authority_path(alloc: Global, class: Class, parts: &Parts<'_>) -> Result<UrlPath, AllocError>
    ensures { IfOk result (λ path.
        path ≡ UrlPath.Segments (spec.authority_path class parts.now.segments)) }
{
    match parts.segments().next() {
        Some(_) => walked(alloc, class, path_for(alloc, parts)?, parts),
        None => root(alloc, class),
    }
}

// The path of a URL whose text has none after its authority.
fn root(alloc: Global, class: Class) -> Result<UrlPath, AllocError>
    ensures { IfOk result (λ path. path ≡ UrlPath.Segments (spec.authority_path class [])) }
{
    let mut path = PathText::new(alloc);
    match class {
        Class::SpecialNotFile | Class::File => path.push("")?,
        Class::Other => {}
    }
    Ok(UrlPath::Segments(path))
}

// A path without segments, with room for the text's.
fn path_for(alloc: Global, parts: &Parts<'_>) -> Result<PathText, AllocError>
    ensures { IfOk result (λ path. path ≡ []) }
{
    PathText::with_capacity(alloc, parts.path_text().len().saturating_add(1))
}

// What a walk over the segments makes of the path `start`.
fn walked(
    alloc: Global,
    class: Class,
    start: PathText,
    parts: &Parts<'_>,
) -> Result<UrlPath, AllocError>
    ensures { IfOk result (λ path.
        path ≡ UrlPath.Segments (path_spec.walk class start parts.now.segments)) }
{
    let segments = parts.segments();
    let path = walk(alloc, class, start, segments)?;
    Ok(UrlPath::Segments(path))
}

// Whether a query or a fragment follows the path.
fn has_tail(parts: &Parts<'_>) -> bool
    ensures { result ≡ spec.has_tail parts.now }
{
    parts.query().is_some() || parts.fragment().is_some()
}

// An opaque path. Under the parser's profile it may end with a space, which is `%20` if a query or a fragment follows.
fn opaque_path(alloc: Global, text: &str, followed: bool) -> Result<UrlPath, AllocError>
    ensures { IfOk result (λ path.
        path ≡ UrlPath.Opaque (encoded false (spec.end_escaped followed (chars text.now)))) }
{
    let path = encoded_path(alloc, text, followed)?;
    Ok(UrlPath::Opaque(Text::of(path)))
}

// The encoding of an opaque path.
fn encoded_path(alloc: Global, text: &str, followed: bool) -> Result<String, AllocError>
    ensures { IfOk result (λ path.
        string_bytes path ≡ encoded false (spec.end_escaped followed (chars text.now))) }
{
    if followed {
        followed_path(alloc, text)
    } else {
        encoded_part(alloc, text, false)
    }
}

// The encoding of an opaque path that a query or a fragment follows.
fn followed_path(alloc: Global, text: &str) -> Result<String, AllocError>
    ensures { IfOk result (λ path.
        string_bytes path ≡ encoded false (spec.end_escaped true (chars text.now))) }
{
    match text.strip_suffix(' ') {
        Some(kept) => {
            let mut path = encoded_part(alloc, kept, false)?;
            path.push_str("%20")?;
            Ok(path)
        }
        None => encoded_part(alloc, text, false),
    }
}

// The drive letter that a path-absolute reference to a file base keeps.
fn kept_drive(
    alloc: Global,
    class: Class,
    parts: &Parts<'_>,
    base: Option<&Record>,
) -> Result<PathText, AllocError>
    ensures { IfOk result (λ path. path
        ≡ spec.kept_drive class (spec.listed_segments (spec.base_path (option_copied base.entry))) parts.now.segments) }
{
    match (class, first_segment(base), parts.segments().next()) {
        (Class::File, Some(drive), Some(first)) => drive_or_none(alloc, drive, first),
        _ => path_for(alloc, parts),
    }
}

// The first segment of the base's path.
fn first_segment<'b>(base: Option<&'b Record>) -> Option<&'b str>
    ensures { StartsSegments (option_copied result) (spec.listed_segments (spec.base_path (option_copied base.entry))) }
{
    let mut segments = base_segments(base)?.iter();
    segments.next_text()
}

// The base's first segment, where it is a normalized drive letter and the text's first isn't a drive letter.
fn drive_or_none(alloc: Global, drive: &str, first: &str) -> Result<PathText, AllocError>
    ensures { IfOk result (λ path.
        path ≡ spec.kept_drive Class.File (drive.now ∷ []) (chars first.now ∷ [])) }
{
    let mut path = PathText::new(alloc);
    if is_normalized_drive_letter(drive.as_bytes()) && !is_drive(first) {
        path.push(drive)?;
    }
    Ok(path)
}

fn is_drive(segment: &str) -> bool
    ensures { result ≡ path_spec.is_drive_letter (chars segment.now) }
{
    is_drive_letter(segment.as_bytes())
}

// The segments of the base's path, where it has such.
fn base_segments<'b>(base: Option<&'b Record>) -> Option<&'b PathText>
    ensures listed { MatchOption result (spec.listed_segments (spec.base_path (option_copied base.entry)) ≡ [])
        (λ path. spec.listed_segments (spec.base_path (option_copied base.entry)) ≡ path.now) }
{
    match base?.path() {
        UrlPath::Segments(path) => Some(path),
        UrlPath::Opaque(_) => None,
    }
}

// The base's path without its last segment, with room for the segments of the text.
fn shortened(
    alloc: Global,
    class: Class,
    parts: &Parts<'_>,
    base: Option<&Record>,
) -> Result<PathText, AllocError>
    ensures { IfOk result (λ path. path
        ≡ path_spec.shorten class (spec.listed_segments (spec.base_path (option_copied base.entry)))) }
{
    let Some(kept) = base_segments(base) else {
        return path_for(alloc, parts);
    };
    let mut path = path_with(alloc, kept, parts.path_text().len().saturating_add(1))?;
    shorten(class, &mut path);
    Ok(path)
}

// A path of these segments, with room for some more.
fn path_with(alloc: Global, kept: &PathText, room: usize) -> Result<PathText, AllocError>
    ensures { IfOk result (λ path. path ≡ kept.now) }
{
    let text = kept.as_str();
    let mut path = PathText::with_capacity(alloc, text.len().saturating_add(room))?;
    path.push_path(text)?;
    Ok(path)
}

fn base_path(alloc: Global, base: Option<&Record>) -> Result<UrlPath, AllocError>
    ensures { IfOk result (λ path. path ≡ spec.base_path (option_copied base.entry)) }
{
    match base {
        Some(base) => base.path().copy(alloc),
        None => Ok(UrlPath::Segments(PathText::new(alloc))),
    }
}
