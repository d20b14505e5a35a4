//! The first faults of what the path, the query and the fragment of a cut text hold.
ghost use Rattle.std.specs.Prelude.{◌<◌};
ghost use Rattle.uv_model.specs.Violations.Refusal.{IsLeast};
ghost use Rattle.uv_grammar.specs.PartViolations.{AfterAuthority, IsCountable, OfFragment, OfPath, OfQuery};

use crate::cut::Cut;
use crate::places::{fragment_place, path_place, query_place, refusal_after};
use crate::scan::{next_fault, path_scan};
use crate::setting::Setting;
use crate::start_rules::path_start_fault;
use uv_model::Refusal;
use uv_text::first_fault;

/// The least refusal of what is after the authority: the path with its start, the query and the fragment.
#[inline(always)]
pub(crate) fn fault_after_authority(cut: &Cut, setting: &Setting) -> Option<Refusal>
    requires { IsCountable cut.now }
    ensures { IsLeast (AfterAuthority setting.now cut.now) result }
{
    if let Some(refusal) = path_start_fault(cut, setting) {
        return Some(refusal);
    }
    if let Some(refusal) = path_fault(cut, setting) {
        return Some(refusal);
    }
    if let Some(refusal) = query_fault(cut) {
        return Some(refusal);
    }
    fragment_fault(cut)
}

// The least refusal of what the path holds.
#[inline(always)]
fn path_fault(cut: &Cut, setting: &Setting) -> Option<Refusal>
    requires { IsCountable cut.now }
    ensures { IsLeast (OfPath setting.now cut.now) result }
{
    match next_fault(path_scan(cut, setting), cut.path_text) {
        Some(refusal) => Some(refusal_after(path_place(cut), refusal)),
        None => None,
    }
}

// The least refusal of the query. Most texts have none, for which no call is worth its cost; so for the fragment.
#[inline(always)]
fn query_fault(cut: &Cut) -> Option<Refusal>
    requires { IsCountable cut.now }
    ensures { IsLeast (OfQuery cut.now) result }
{
    match cut.query {
        Some(query) => match first_fault(query) {
            Some(refusal) => Some(refusal_after(query_place(cut), refusal)),
            None => None,
        },
        None => None,
    }
}

// The least refusal of the fragment.
#[inline(always)]
fn fragment_fault(cut: &Cut) -> Option<Refusal>
    requires { IsCountable cut.now }
    ensures { IsLeast (OfFragment cut.now) result }
{
    match cut.fragment {
        Some(fragment) => match first_fault(fragment) {
            Some(refusal) => Some(refusal_after(fragment_place(cut), refusal)),
            None => None,
        },
        None => None,
    }
}
