//! Why a value of a vector file isn't a case.
ghost use Rattle.std.specs.Prelude.{◌≡◌, ◌<◌, IfOk, Some, is_some, length, option_and_then, option_map, slice_get};
ghost use Rattle.serde_json.specs.Find.{as_str};
ghost use Rattle.serde_json.specs.View.{items_view, view};
ghost use Rattle.uv_vectors.specs.Case.{list_of};
ghost use Rattle.uv_vectors.specs.CaseFault.{case_fault, expected_fault, value_fault};
ghost use Rattle.uv_vectors.specs.Views.{fault_view, value_view};

use crate::case::{base_in, profile_in, unknown_key};
use serde_json::Value;
use std::alloc::{AllocError, Global};

/// Why a value of a vector file isn't a case: the first of these that applies.
#[derive(Debug, Drop, PartialEq, Eq)]
pub enum CaseFault {
    /// It isn't an object.
    NoObject,
    /// It has this key, which no case has. It is the first such key, in the order of their bytes.
    UnknownKey(String),
    /// `input` is absent, or isn't a string.
    Input,
    /// `base` is neither a string nor null.
    Base,
    /// `profile` isn't the name of a profile.
    Profile,
    /// It has neither only `text` nor `place` and `rule`.
    Expectation,
    /// `text` isn't a string.
    Text,
    /// `place` isn't a number below 2^64, written only in digits.
    Place,
    /// `rule` isn't the name of a rule.
    Rule,
}

impl CaseFault {
    /// Why a value that isn't a case isn't one. An error means that memory ran out.
    pub(crate) fn of(alloc: Global, value: &Value) -> Result<CaseFault, AllocError>
        ensures { IfOk result (λ fault. fault_view fault ≡ case_fault (view value.now)) }
    {
        let Some(members) = value.as_object() else {
            return Ok(CaseFault::NoObject);
        };
        match unknown_key(members) {
            Some(key) => Ok(CaseFault::UnknownKey(String::from_str(alloc, key)?)),
            None => Ok(value_fault(value)),
        }
    }
}

/// Why the value at a place isn't a case, if it isn't one. An error means that memory ran out.
pub(crate) fn fault_at(alloc: Global, values: &[Value], at: usize) -> Result<CaseFault, AllocError>
    requires { at < length values.now }
    ensures { IfOk result (λ fault.
        option_map case_fault (slice_get (list_of (items_view values.now)) at) ≡ Some (fault_view fault)) }
{
    let fault = CaseFault::of(alloc, &values[at])?;
    Ok(fault)
}

// Why a value whose keys are all keys of a case isn't a case.
fn value_fault(value: &Value) -> CaseFault
    ensures { fault_view result ≡ value_fault (view value.now) }
{
    if !is_string(value.get("input")) {
        CaseFault::Input
    } else if base_in(value.get("base")).is_none() {
        CaseFault::Base
    } else if profile_in(value.get("profile")).is_none() {
        CaseFault::Profile
    } else {
        expected_fault(value.get("text"), value.get("place"), value.get("rule"))
    }
}

// Why these values don't say what is expected.
fn expected_fault(text: Option<&Value>, place: Option<&Value>, rule: Option<&Value>) -> CaseFault
    ensures { fault_view result
        ≡ expected_fault (value_view text.entry) (value_view place.entry) (value_view rule.entry) }
{
    match (text, place, rule) {
        (Some(_), None, None) => CaseFault::Text,
        (None, Some(place), Some(_)) => {
            if place.as_u64().is_none() {
                CaseFault::Place
            } else {
                CaseFault::Rule
            }
        }
        _ => CaseFault::Expectation,
    }
}

// Whether a value was found, and is a string.
fn is_string(found: Option<&Value>) -> bool
    ensures { result ≡ is_some (option_and_then as_str (value_view found.entry)) }
{
    match found {
        Some(value) => value.as_str().is_some(),
        None => false,
    }
}
