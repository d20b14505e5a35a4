//! Texts that are checked code point by code point.
ghost use Rattle.std.specs.Prelude.{◌≡◌, ◌+◌, ◌<◌, ◌^◌, OnOk, length};
ghost use Rattle.std.specs.Str.{chars};
ghost use Rattle.uv_model.specs.Violations.Violation.{After};
ghost use Rattle.uv_model.specs.Violations.Refusal.{IsLeast};
ghost use Rattle.uv_grammar.specs.Faults.{AddsViolations};
ghost use Rattle.uv_grammar.specs.Scan.{ScanViolation};
ghost use Rattle.uv_grammar.specs.SpacedPaths.{path_scan};

use crate::authority::port::digit_fault;
use crate::cut::Cut;
use crate::marks::beginnings::has_slash;
use crate::parser_paths::{first_spaced_fault, is_followed};
use crate::places::refusal_after;
use crate::setting::Setting;
use std::alloc::AllocError;
use uv_host::opaque_unit_fault;
use uv_model::{Class, Profile, Refusal, after_code_points};
use uv_text::first_fault;

/// What a text should consist of.
#[derive(Clone, Copy)]
pub(crate) enum Scan {
    /// URL units.
    Units,
    /// URL units and spaces, of which none is at the end unless a query or a fragment follows.
    SpacedUnits(bool),
    /// What an opaque host without brackets may hold.
    OpaqueHost,
    /// Digits.
    Digits,
}

/// What the path of a cut text should consist of. Under the parser's profile an opaque path may hold spaces: one after
/// a scheme of class Other without an authority, which doesn't begin with `/`.
#[inline(always)]
pub(crate) fn path_scan(cut: &Cut, setting: &Setting) -> Scan
    ensures { result ≡ path_scan setting.now cut.now }
{
    let has_opaque_path = match (setting.profile, setting.class) {
        (Profile::Standard | Profile::Wide, _) => false,
        (Profile::Parser, Class::SpecialNotFile | Class::File) => false,
        (Profile::Parser, Class::Other) => cut.scheme.is_some()
            && !(cut.host_text.is_some() || has_slash(cut.path_text)),
    };
    if has_opaque_path {
        Scan::SpacedUnits(is_followed(cut))
    } else {
        Scan::Units
    }
}

/// Each fault of a text is pushed, where so many code points are before the text. After an error some were.
pub(crate) fn push_scan(
    found: &mut Vec<Refusal>,
    scan: Scan,
    start: usize,
    text: &str,
) -> Result<(), AllocError>
    requires { start + length (chars text.now) < 2 ^ 64 }
    ensures { OnOk result
        (AddsViolations (After start (ScanViolation scan (chars text.now))) found.old.items found.new.items) }
{
    let mut left = text;
    let mut here = start;
    while let Some(refusal) = next_fault(scan, left) {
        found.push(refusal_after(here, refusal))?;
        here += refusal.place + 1;
        left = after_code_points(left, refusal.place + 1);
    }
    Ok(())
}

/// The first fault of a text. It is inlined, as most callers know what the text should consist of.
#[inline(always)]
pub(crate) fn next_fault(scan: Scan, text: &str) -> Option<Refusal>
    ensures { IsLeast (ScanViolation scan (chars text.now)) result }
{
    match scan {
        Scan::Units => first_fault(text),
        Scan::SpacedUnits(followed) => first_spaced_fault(text, followed),
        Scan::OpaqueHost => opaque_unit_fault(text),
        Scan::Digits => digit_fault(text),
    }
}
