//! One case of a vector file.
ghost use Rattle.std.specs.Prelude.{◌≡◌, Decides, IfOk, Option, chars, find, not, option_copied};
ghost use Rattle.std.specs.Prelude.{option_map, string_bytes};
ghost use Rattle.std.specs.BTreeMap.{keys};
ghost use Rattle.std.specs.List.{list_all};
ghost use Rattle.serde_json.specs.View.{members_view, view};
ghost use Rattle.uv_grammar.specs.Verdict.{IsRefused};
ghost use Rattle.uv_resolve.specs.Resolve.{DenotesText};
ghost use Rattle.uv_vectors.specs.Case.{Vector, base_of, expected_of, has_known_keys, is_known};
ghost use Rattle.uv_vectors.specs.Case.{profile_of, refusal_of, unknown_key, vector_of};
ghost use Rattle.uv_vectors.specs.Passes.{Checks, IsAsExpected, Passes};
ghost use Rattle.uv_vectors.specs.Views.{expected_view, value_view};

use serde_json::{Map, Value};
use std::alloc::{AllocError, Global};
use std::marker::Model;
use uv_model::{Profile, Record, Refusal, Rule};
use uv_resolve::{ResolveFault, resolve, resolve_base};

/// What a case expects.
#[derive(Clone, Copy)]
pub(crate) enum Expected<'v> {
    /// A record with this text.
    Text(&'v str),
    /// This refusal.
    Refusal(Refusal),
}

/// A case of a vector file.
#[derive(Drop)]
pub(crate) struct VectorCase<'v> {
    input: &'v str,
    base: Option<&'v str>,
    profile: Profile,
    expected: Expected<'v>,
}

impl<'v> Model for VectorCase<'v> {
    ghost use Rattle.std.specs.Prelude.{option_copied};
    ghost use Rattle.uv_vectors.specs.Case.{Vector};
    ghost use Rattle.uv_vectors.specs.Views.{expected_view};

    ghost Value = { Vector };

    ghost view = { λ c. record {
      input = c.input.now;
      base = option_copied c.base;
      profile = c.profile;
      expected = expected_view c.expected;
    } };
}

impl<'v> VectorCase<'v> {
    /// The case that a value is, or `None` if it isn't one.
    pub(crate) fn of(value: &'v Value) -> Option<VectorCase<'v>>
        ensures { result ≡ vector_of (view value.now) }
    {
        let members = value.as_object()?;
        if !has_only_known_keys(members) {
            return None;
        }
        let input = value.get("input")?.as_str()?;
        let base = base_in(value.get("base"))?;
        let profile = profile_in(value.get("profile"))?;
        let expected = expected_in(value.get("text"), value.get("place"), value.get("rule"))?;
        Some(VectorCase {
            input,
            base,
            profile,
            expected,
        })
    }

    /// Whether the case passes under its profile. An error means that memory ran out.
    pub(crate) fn passes(&self, alloc: Global) -> Result<bool, AllocError>
        ensures { IfOk result (λ passed. Decides passed (Passes self.now)) }
    {
        match resolve_base(alloc, self.base, self.profile) {
            Ok(base) => self.is_as_expected(alloc, base.as_ref()),
            Err(ResolveFault::Refused(_)) => Ok(false),
            Err(ResolveFault::Memory(error)) => Err(error),
        }
    }

    // Whether the input, against a record as base, gives what is expected.
    fn is_as_expected(&self, alloc: Global, base: Option<&Record>) -> Result<bool, AllocError>
        ensures { IfOk result (λ is.
            Decides is (IsAsExpected self.now.profile (option_copied base.entry) self.now.input self.now.expected)) }
    {
        match self.expected {
            Expected::Text(text) => denotes(alloc, self.input, base, self.profile, text),
            Expected::Refusal(refusal) => {
                is_refused(alloc, self.input, base, self.profile, refusal)
            }
        }
    }
}

/// Whether a value is a case that passes. An error means that memory ran out.
pub(crate) fn passes(alloc: Global, value: &Value) -> Result<bool, AllocError>
    ensures { IfOk result (Checks (view value.now)) }
{
    match VectorCase::of(value) {
        Some(case) => case.passes(alloc),
        None => Ok(false),
    }
}

// Whether the record that an input denotes has this text.
fn denotes(
    alloc: Global,
    input: &str,
    base: Option<&Record>,
    profile: Profile,
    text: &str,
) -> Result<bool, AllocError>
    ensures { IfOk result (λ does.
        Decides does (DenotesText profile (option_copied base.entry) input.now text.now)) }
{
    match resolve(alloc, input, base, profile) {
        Ok(url) => Ok(url.text(alloc)?.as_str() == text),
        Err(ResolveFault::Refused(_)) => Ok(false),
        Err(ResolveFault::Memory(error)) => Err(error),
    }
}

// Whether an input has this refusal.
fn is_refused(
    alloc: Global,
    input: &str,
    base: Option<&Record>,
    profile: Profile,
    refusal: Refusal,
) -> Result<bool, AllocError>
    ensures { IfOk result (λ is.
        Decides is (IsRefused profile (option_copied base.entry) (chars input.now) refusal)) }
{
    match resolve(alloc, input, base, profile) {
        Ok(_) => Ok(false),
        Err(ResolveFault::Refused(found)) => Ok(is_same(found, refusal)),
        Err(ResolveFault::Memory(error)) => Err(error),
    }
}

// Whether two refusals have the same place and the same rule.
fn is_same(found: Refusal, refusal: Refusal) -> bool
    ensures { Decides result (found ≡ refusal) }
{
    found == refusal
}

// Whether a case may have this key.
fn is_known_key(key: &str) -> bool
    ensures { result ≡ is_known key.now }
{
    matches!(
        key,
        "input" | "base" | "text" | "place" | "rule" | "profile"
    )
}

/// The first key that isn't one of a case, if there is one.
pub(crate) fn unknown_key(members: &Map<String, Value>) -> Option<&str>
    ensures { option_copied result ≡ unknown_key (members_view members.now.entries) }
{
    match unknown_name(members) {
        Some(key) => Some(key.as_str()),
        None => None,
    }
}

fn unknown_name(members: &Map<String, Value>) -> Option<&String>
    ensures { option_map (λ key. key.now) result
        ≡ find (λ key. not (is_known (string_bytes key))) (keys members.now) }
{
    members.keys().find(|key| !is_known_key(key.as_str()))
}

// Whether each key is one that a case may have.
fn has_only_known_keys(members: &Map<String, Value>) -> bool
    ensures { result ≡ has_known_keys (members_view members.now.entries) }
{
    all_keys_known(members)
}

fn all_keys_known(members: &Map<String, Value>) -> bool
    ensures { result ≡ list_all (λ key. is_known (string_bytes key)) (keys members.now) }
{
    members.keys().all(|key| is_known_key(key.as_str()))
}

/// The base: `Some(None)` if the key is absent or null, and `None` if the value is neither null nor a string.
pub(crate) fn base_in<'v>(found: Option<&'v Value>) -> Option<Option<&'v str>>
    ensures { option_map option_copied result ≡ base_of (value_view found.entry) }
{
    match found {
        None => Some(None),
        Some(value) => match value {
            Value::Null => Some(None),
            Value::String(text) => Some(Some(text.as_str())),
            _ => None,
        },
    }
}

/// The profile: the standard one if the key is absent. `None` if the value isn't a profile's name.
pub(crate) fn profile_in<'v>(found: Option<&'v Value>) -> Option<Profile>
    ensures { result ≡ profile_of (value_view found.entry) }
{
    match found {
        None => Some(Profile::Standard),
        Some(value) => Profile::of_name(value.as_str()?),
    }
}

// What is expected: only a text, or a place and a rule. `None` for any other choice of keys.
fn expected_in<'v>(
    text: Option<&'v Value>,
    place: Option<&'v Value>,
    rule: Option<&'v Value>,
) -> Option<Expected<'v>>
    ensures { option_map expected_view result
        ≡ expected_of (value_view text.entry) (value_view place.entry) (value_view rule.entry) }
{
    match (text, place, rule) {
        (Some(text), None, None) => Some(Expected::Text(text.as_str()?)),
        (None, Some(place), Some(rule)) => Some(Expected::Refusal(refusal_in(place, rule)?)),
        _ => None,
    }
}

// The refusal with a place, written only in digits, and a rule's name.
fn refusal_in(place: &Value, rule: &Value) -> Option<Refusal>
    ensures { result ≡ refusal_of (view place.now) (view rule.now) }
{
    let place = place.as_u64()? as usize;
    let rule = Rule::of_name(rule.as_str()?)?;
    Some(Refusal { place, rule })
}
