//! Opaque paths of the parser's profile, which may hold spaces (URL Standard, section 4.4, opaque path state).
ghost use Rattle.std.specs.Prelude.{◌≡◌, true};
ghost use Rattle.std.specs.List.{prefix_len};
ghost use Rattle.std.specs.Str.{chars};
ghost use Rattle.uv_model.specs.declared.profile.Profile.TheVariants.{Parser};
ghost use Rattle.uv_model.specs.Cut.{is_followed};
ghost use Rattle.uv_model.specs.Violations.Refusal.{IsLeast};
ghost use Rattle.uv_model.specs.Violations.UnitViolation.{PathUnitViolation};
ghost use Rattle.uv_grammar.specs.SpacedPaths.{IsTakenRun, is_space};

use crate::cut::Cut;
use crate::start_rules::holds_any;
use uv_model::{Refusal, after_code_points, first_code_point};
use uv_text::first_fault;

/// A query or a fragment follows the path.
#[inline(always)]
pub(crate) fn is_followed(cut: &Cut) -> bool
    ensures { result ≡ is_followed cut.now }
{
    cut.query.is_some() || cut.fragment.is_some()
}

/// The least refusal of an opaque path of the parser's profile by what it holds, its place counted from the path's
/// start. A query or a fragment may follow the path.
pub(crate) fn first_spaced_fault(text: &str, followed: bool) -> Option<Refusal>
    ensures { IsLeast (PathUnitViolation Parser true followed (chars text.now)) result }
{
    let mut left = text;
    let mut here = 0;
    while let Some(refusal) = first_fault(left) {
        let found = after_code_points(left, refusal.place);
        let spaces = taken_spaces(found, followed);
        if spaces == 0 {
            return Some(Refusal {
                place: here + refusal.place,
                rule: refusal.rule,
            });
        }
        here += refusal.place + spaces;
        left = after_code_points(found, spaces);
    }
    None
}

// How many spaces at the text's start the parser takes: all of them, but none if they end the text and neither a query
// nor a fragment follows.
fn taken_spaces(text: &str, followed: bool) -> usize
    ensures { IsTakenRun followed (chars text.now) result }
{
    let spaces = count_spaces(text);
    if followed {
        return spaces;
    }
    if holds_any(after_code_points(text, spaces)) {
        spaces
    } else {
        0
    }
}

// How many spaces the text begins with.
fn count_spaces(text: &str) -> usize
    ensures { result ≡ prefix_len is_space (chars text.now) }
{
    let mut left = text;
    let mut count = 0;
    while let Some((c, after)) = first_code_point(left) {
        if c != ' ' {
            return count;
        }
        count += 1;
        left = after;
    }
    count
}
