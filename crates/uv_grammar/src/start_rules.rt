//! The rules of the start of a text and of the start of a path.
ghost use Rattle.std.specs.Prelude.{◌≡◌, ◌≢◌, ◌↔◌, IsTrue, None, []};
ghost use Rattle.std.specs.Str.{chars};
ghost use Rattle.uv_model.specs.Violations.Violation.{HasDrive, HasEmptyFirst, HasHost, PathStartViolation};
ghost use Rattle.uv_model.specs.Violations.Violation.{StartViolation};
ghost use Rattle.uv_model.specs.Violations.Refusal.{IsLeast};
ghost use Rattle.uv_grammar.specs.Bases.{as_base};
ghost use Rattle.uv_grammar.specs.PartViolations.{IsCountable, OfPathStart};
ghost use Rattle.uv_grammar.specs.StartRules.{base_fault};

use crate::bases::Base;
use crate::cut::Cut;
use crate::marks::beginnings::{has_drive, has_number_sign, has_two_slashes};
use crate::places::{path_place, refusal_after, slashes_place};
use crate::setting::Setting;
use uv_model::{Class, Profile, Refusal, Rule};

/// The least refusal under which no host, port and start of a path is checked: a text without a scheme against no base
/// or an opaque one, and a special scheme without `//`.
#[inline(always)]
pub(crate) fn start_fault(text: &str, cut: &Cut, setting: &Setting) -> Option<Refusal>
    requires { IsCountable cut.now }
    ensures { IsLeast (StartViolation setting.now (chars text.now) cut.now) result }
{
    match cut.scheme {
        None => base_fault(text, setting.base),
        Some(_) if lacks_slashes(cut, setting) => Some(Refusal {
            place: slashes_place(cut),
            rule: Rule::TwoSlashes,
        }),
        Some(_) => None,
    }
}

// A special scheme has no authority.
#[inline(always)]
fn lacks_slashes(cut: &Cut, setting: &Setting) -> bool
    ensures { IsTrue result ↔ ((setting.now.class ≢ Class.Other) × (cut.now.host_text ≡ None)) }
{
    match (setting.class, cut.host_text) {
        (Class::Other, _) => false,
        (_, None) => true,
        (_, Some(_)) => false,
    }
}

// The refusal of a text without a scheme.
#[inline(always)]
fn base_fault(text: &str, base: Option<Base<'_>>) -> Option<Refusal>
    ensures { result ≡ base_fault (as_base base.entry) (chars text.now) }
{
    match base {
        None => Some(Refusal {
            place: 0,
            rule: Rule::NoScheme,
        }),
        Some(base) if base.has_opaque_path() && !has_number_sign(text) => Some(Refusal {
            place: 0,
            rule: Rule::OpaqueBase,
        }),
        Some(_) => None,
    }
}

/// The least refusal of the start of the path.
#[inline(always)]
pub(crate) fn path_start_fault(cut: &Cut, setting: &Setting) -> Option<Refusal>
    requires { IsCountable cut.now }
    ensures { IsLeast (OfPathStart setting.now cut.now) result }
{
    match first_segment_fault(cut, setting) {
        Some(refusal) => Some(refusal_after(path_place(cut), refusal)),
        None => None,
    }
}

// The least refusal of the start of the path, its place counted in code points from the path's start.
#[inline(always)]
fn first_segment_fault(cut: &Cut, setting: &Setting) -> Option<Refusal>
    ensures { IsLeast (PathStartViolation setting.now cut.now) result }
{
    if has_empty_first(cut.path_text, setting.profile) {
        return Some(Refusal {
            place: 1,
            rule: Rule::FirstSegmentEmpty,
        });
    }
    if keeps_drive_out(cut, setting) && has_forbidden_drive(cut.path_text, setting.profile) {
        Some(Refusal {
            place: 0,
            rule: Rule::DriveAfterHost,
        })
    } else {
        None
    }
}

// An empty segment that isn't the only one begins the path, where the profile forbids it.
fn has_empty_first(path_text: &str, profile: Profile) -> bool
    ensures { IsTrue result ↔ HasEmptyFirst profile (chars path_text.now) }
{
    match profile {
        Profile::Standard => has_two_slashes(path_text),
        Profile::Wide | Profile::Parser => false,
    }
}

// `/`, a drive letter and `/` begin the path, where the profile forbids it.
fn has_forbidden_drive(path_text: &str, profile: Profile) -> bool
    ensures { IsTrue result ↔ HasDrive profile (chars path_text.now) }
{
    match profile {
        Profile::Standard | Profile::Wide => has_drive(path_text),
        Profile::Parser => false,
    }
}

// A file URL has a host, so that no drive letter may begin its path: a host in the text, or without a scheme and an
// authority in the base.
#[inline(always)]
fn keeps_drive_out(cut: &Cut, setting: &Setting) -> bool
    ensures { IsTrue result ↔ ((setting.now.class ≡ Class.File)
        × HasHost setting.now.base cut.now.scheme cut.now.host_text) }
{
    match (setting.class, cut.host_text, cut.scheme, setting.base) {
        (Class::SpecialNotFile | Class::Other, _, _, _) => false,
        (Class::File, Some(host_text), _, _) => holds_any(host_text),
        (Class::File, None, None, Some(base)) => !base.has_empty_host(),
        (Class::File, None, _, _) => false,
    }
}

/// The text isn't empty.
pub(crate) fn holds_any(text: &str) -> bool
    ensures { IsTrue result ↔ (chars text.now ≢ []) }
{
    !text.is_empty()
}
