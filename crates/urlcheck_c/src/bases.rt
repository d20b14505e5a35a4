//! A base that is checked once and held between calls.
ghost use Rattle.std.specs.Prelude.{◌≡◌, ◌==◌, option_copied};
ghost use Rattle.urlcheck_c.specs.Base.{IsAsked, IsKindBy, IsKindDenoted, IsKindRead, IsPreparedBase, base_fault};
ghost use Rattle.urlcheck_c.specs.Base.{held_base, is_refused_base, kind_in, scheme_number, scheme_with};
ghost use Rattle.urlcheck_c.specs.Base.{unread_base};
ghost use Rattle.urlcheck_c.specs.Request.{given};

use crate::finding::{CallOutcome, Finding};
use crate::request::{profile_of, text_of};
use std::alloc::{AllocError, Global};
use uv_grammar::{BaseKind, BaseScheme, Verdict, check_alone};
use uv_model::Profile;

/// A base, checked by itself: what a verdict on a text needs to know about it. Only `urlcheck_prepare` makes one.
#[repr(C)]
#[derive(Clone, Copy)]
pub struct Base {
    /// What was found of the base: valid, or why no text is checked against it.
    pub found: Finding,
    /// The number of the profile by which the base was checked: the only one by which texts are checked against it.
    pub profile: u32,
    /// The scheme by its class and its default port: 1 `ftp`, 2 `http` or `ws`, 3 `https` or `wss`, 4 `file`, 5
    /// another, and 0 if the base isn't valid.
    pub scheme: u32,
    /// 1 if the path is opaque, otherwise 0.
    pub opaque_path: u32,
    /// 1 if the host is the empty one, otherwise 0.
    pub empty_host: u32,
}

/// Checks the bytes of a base by themselves, under the profile with this number, for later calls that are given the
/// base.
#[unsafe(no_mangle)]
pub extern "C" fn urlcheck_prepare(alloc: Global, base: &[u8], profile: u32) -> Base
    ensures { IsPreparedBase profile base.now result }
{
    match kind_of(alloc, base, profile) {
        Ok(kind) => Base::held(profile, kind),
        Err(found) => Base::refused(profile, found),
    }
}

// The kind of a base.
fn kind_of(alloc: Global, base: &[u8], profile: u32) -> Result<BaseKind, Finding>
    ensures { IsKindRead profile base.now result }
{
    let Some(profile) = profile_of(profile) else {
        return Err(Finding::plain(CallOutcome::NoProfile));
    };
    kind_denoted(alloc, base, profile)
}

// The kind of what the bytes of a base denote by themselves: its parts say it, so no record is made.
fn kind_denoted(alloc: Global, base: &[u8], profile: Profile) -> Result<BaseKind, Finding>
    ensures { IsKindDenoted profile base.now result }
{
    let base = text_of(base, CallOutcome::BaseNoUtf8)?;
    match check_alone(alloc, base, profile) {
        Ok(Verdict::Yes(parts)) => Ok(BaseKind::of_parts(&parts)),
        Ok(Verdict::No(refusal)) => {
            Err(Finding::refused(CallOutcome::BaseRefused, base, refusal))
        }
        Err(AllocError) => Err(Finding::plain(CallOutcome::Memory)),
    }
}

impl Base {
    // A valid base.
    fn held(profile: u32, kind: BaseKind) -> Base
        ensures { result ≡ held_base profile kind }
    {
        Base {
            found: Finding::plain(CallOutcome::Valid),
            profile,
            scheme: scheme_number(kind.scheme),
            opaque_path: u32::from(kind.has_opaque_path),
            empty_host: u32::from(kind.has_empty_host),
        }
    }

    // A base that isn't valid, or isn't checked.
    fn refused(profile: u32, found: Finding) -> Base
        ensures { result ≡ unread_base profile found }
    {
        Base {
            found,
            profile,
            scheme: 0,
            opaque_path: 0,
            empty_host: 0,
        }
    }

    // The kind of a base that was prepared under the profile with this number, or why there is none.
    #[inline(always)]
    fn kind_by(&self, profile: u32) -> Result<BaseKind, Finding>
        ensures { IsKindBy profile self.now result }
    {
        match self.kind() {
            Some(kind) if self.profile == profile => Ok(kind),
            _ => Err(self.fault(profile)),
        }
    }

    // What was found of a base that this profile refuses. Any other base that can't be read was never prepared by it.
    fn fault(&self, profile: u32) -> Finding
        ensures { result ≡ base_fault profile self.now }
    {
        if self.profile == profile && is_refused_base(self.found) {
            return self.found;
        }
        Finding::plain(CallOutcome::NoBase)
    }

    // The kind that the numbers of a base say, or none if no scheme has its number, such as 0.
    #[inline(always)]
    fn kind(&self) -> Option<BaseKind>
        ensures { result ≡ kind_in self.now }
    {
        match scheme_with(self.scheme) {
            Some(scheme) => Some(BaseKind {
                scheme,
                has_opaque_path: self.opaque_path != 0,
                has_empty_host: self.empty_host != 0,
            }),
            None => None,
        }
    }
}

// Whether this is found of a base that its profile refuses.
fn is_refused_base(found: Finding) -> bool
    ensures { result ≡ is_refused_base found }
{
    let is_refused = found.verdict == CallOutcome::BaseRefused.number()
        || found.verdict == CallOutcome::BaseNoUtf8.number()
        || found.verdict == CallOutcome::Memory.number();
    is_refused && found.rule <= 14
}

// The number of a scheme.
fn scheme_number(scheme: BaseScheme) -> u32
    ensures { result ≡ scheme_number scheme }
{
    match scheme {
        BaseScheme::Ftp => 1,
        BaseScheme::Http => 2,
        BaseScheme::Https => 3,
        BaseScheme::File => 4,
        BaseScheme::Other => 5,
    }
}

// The scheme with this number.
fn scheme_with(number: u32) -> Option<BaseScheme>
    ensures { result ≡ scheme_with number }
{
    match number {
        1 => Some(BaseScheme::Ftp),
        2 => Some(BaseScheme::Http),
        3 => Some(BaseScheme::Https),
        4 => Some(BaseScheme::File),
        5 => Some(BaseScheme::Other),
        _ => None,
    }
}

/// What is to be checked: a text, alone or against each base of a kind.
#[derive(Drop)]
pub(crate) struct CheckRequest<'t> {
    /// The text.
    pub(crate) text: &'t str,
    /// The kind of the base, if one is given.
    pub(crate) kind: Option<BaseKind>,
    /// The profile by which it is checked.
    pub(crate) profile: Profile,
}

/// The base that a caller gave, or none if it gave none.
#[inline(always)]
pub(crate) fn given_base(base: &Base, has_base: bool) -> Option<&Base>
    ensures { option_copied result ≡ given has_base base.now }
{
    if has_base { Some(base) } else { None }
}

/// What is to be checked of the bytes of a text under the profile with this number, alone or against a base that was
/// prepared by it; or why nothing is. The profile is read first, then the text, and then the base.
#[inline(always)]
pub(crate) fn asked<'t>(
    text: &'t [u8],
    profile: u32,
    base: Option<&Base>,
) -> Result<CheckRequest<'t>, Finding>
    ensures { IsAsked profile (option_copied base.entry) text.now result }
{
    let Some(known) = profile_of(profile) else {
        return Err(Finding::plain(CallOutcome::NoProfile));
    };
    let text = text_of(text, CallOutcome::NoUtf8)?;
    match base {
        Some(base) => match base.kind_by(profile) {
            Ok(kind) => Ok(CheckRequest {
                text,
                kind: Some(kind),
                profile: known,
            }),
            Err(found) => Err(found),
        },
        None => Ok(CheckRequest {
            text,
            kind: None,
            profile: known,
        }),
    }
}
