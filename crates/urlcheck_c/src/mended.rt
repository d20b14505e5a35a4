//! What to write in place of a text that is refused.
ghost use Rattle.std.specs.Prelude.{◌≡◌};
ghost use Rattle.std.specs.Str.{chars};
ghost use Rattle.uv_grammar.specs.Verdict.{IsRefused};
ghost use Rattle.urlcheck_c.specs.Mended.{IsMendedAnswer, IsRequestMended, IsSaid, kind_number, unmended};
ghost use Rattle.urlcheck_c.specs.Request.{given};

use crate::buffers::write_prefix;
use crate::finding::{CallOutcome, Finding};
use crate::request::{Request, given_bytes, prepared};
use std::alloc::{AllocError, Global};
use uv_grammar::{Verdict, check};
use uv_mend::{MendKind, Mending, mend_refused};
use uv_model::Refusal;
use uv_sentences::{KnownText, is_offered};

/// What a text is, and what was made of it.
#[repr(C)]
#[derive(Clone, Copy)]
pub struct Mended {
    /// The verdict.
    pub found: Finding,
    /// How the mended text relates to the text: 1 the same URL, 2 only escaped, 3 changed, 0 if there is none.
    pub kind: u32,
    /// 1 if reports offer the mended text in place of the text, otherwise 0.
    pub offered: u32,
    /// The length in bytes of the mended text, 0 if there is none.
    pub length: usize,
}

/// Writes a valid URL string in place of refused bytes, as `uv_mend` makes it of them, to the start of `out`, if it
/// fits. Otherwise, and if there is none, `out` stays as it is. If `has_base` is true, they are read against the bytes
/// of a base, which is checked by itself under the same profile.
#[unsafe(no_mangle)]
pub extern "C" fn urlcheck_mend(
    alloc: Global,
    text: &[u8],
    profile: u32,
    base: &[u8],
    has_base: bool,
    out: &mut [u8],
) -> Mended
    ensures { IsMendedAnswer profile (given has_base base.now) text.now out.old out.new result }
{
    match prepared(alloc, text, profile, given_bytes(base, has_base)) {
        Ok(request) => request_mended(alloc, &request, out),
        Err(found) => Mended::none(found),
    }
}

// What is made of a text that is checked.
fn request_mended(alloc: Global, request: &Request<'_>, out: &mut [u8]) -> Mended
    ensures { IsRequestMended request.now.profile request.now.base request.now.text.now out.old out.new result }
{
    match check(alloc, request.text, request.base.as_ref(), request.profile) {
        Ok(Verdict::Yes(_)) => Mended::none(Finding::plain(CallOutcome::Valid)),
        Ok(Verdict::No(refusal)) => refused_mended(alloc, request, refusal, out),
        Err(AllocError) => Mended::none(Finding::plain(CallOutcome::Memory)),
    }
}

// What is made of a text that is refused.
fn refused_mended(alloc: Global, request: &Request<'_>, refusal: Refusal, out: &mut [u8]) -> Mended
    requires { IsRefused request.now.profile request.now.base (chars request.now.text.now) refusal }
    ensures { IsRequestMended request.now.profile request.now.base request.now.text.now out.old out.new result }
{
    let mended = mend_refused(
        alloc,
        request.text,
        request.base.as_ref(),
        request.profile,
        refusal,
    );
    match mended {
        Ok(mending) => said(request.text, &mending, out),
        Err(AllocError) => Mended::none(Finding::plain(CallOutcome::Memory)),
    }
}

// What is made of the text, as C sees it; a mended text is written if it fits.
fn said(text: &str, mending: &Mending, out: &mut [u8]) -> Mended
    ensures { IsSaid text.now mending.now out.old out.new result }
{
    match mending {
        Mending::Valid => Mended::none(Finding::plain(CallOutcome::Valid)),
        Mending::Mended { text: mended, kind } => Mended {
            found: Finding::plain(CallOutcome::Mended),
            kind: kind_number(*kind),
            offered: u32::from(is_offered(&KnownText::new(text), mended.as_str())),
            length: write_prefix(mended.as_bytes(), out),
        },
        Mending::Refused(refusal) => {
            Mended::none(Finding::refused(CallOutcome::Refused, text, *refusal))
        }
    }
}

impl Mended {
    // The answer without a mended text.
    fn none(found: Finding) -> Mended
        ensures { result ≡ unmended found }
    {
        Mended {
            found,
            kind: 0,
            offered: 0,
            length: 0,
        }
    }
}

// The number of a kind.
fn kind_number(kind: MendKind) -> u32
    ensures { result ≡ kind_number kind }
{
    match kind {
        MendKind::Same => 1,
        MendKind::Escaped => 2,
        MendKind::Changed => 3,
    }
}
