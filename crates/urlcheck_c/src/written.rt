//! Texts that are written into the caller's buffer, or why there is none.
ghost use Rattle.std.specs.Prelude.{◌≡◌, ℕ, IfOk, List, string_bytes};
ghost use Rattle.urlcheck_c.specs.Finding.{plain_finding};
ghost use Rattle.urlcheck_c.specs.Written.{IsGiven, IsTextGiven, unwritten};

use crate::buffers::write_prefix;
use crate::finding::{CallOutcome, Finding};
use std::alloc::AllocError;

/// What became of a text that was asked for, and how long it is.
#[repr(C)]
#[derive(Clone, Copy)]
pub struct Written {
    /// The outcome: 9 if there is a text, otherwise why there is none.
    pub found: Finding,
    /// The length of the text in bytes, 0 if there is none.
    pub length: usize,
}

impl Written {
    /// The answer without a text, since this was found.
    pub(crate) fn none(found: Finding) -> Written
        ensures { result ≡ unwritten found }
    {
        Written { found, length: 0 }
    }

    /// The answer without a text, for this reason.
    pub(crate) fn refused(outcome: CallOutcome) -> Written
        ensures { result ≡ unwritten (plain_finding outcome) }
    {
        Written::none(Finding::plain(outcome))
    }
}

/// Writes a text to the start of the buffer, if it fits.
pub(crate) fn given(text: &Result<String, AllocError>, out: &mut [u8]) -> Written
    ensures { (bytes : List ℕ) → IfOk text.now (λ t. string_bytes t ≡ bytes) → IsGiven bytes out.old out.new result }
{
    match text {
        Ok(text) => text_given(text.as_str(), out),
        Err(AllocError) => Written::refused(CallOutcome::Memory),
    }
}

/// Writes a text to the start of the buffer, if it fits, and gives its length in bytes.
pub(crate) fn text_given(text: &str, out: &mut [u8]) -> Written
    ensures { IsTextGiven text.now out.old out.new result }
{
    Written {
        found: Finding::plain(CallOutcome::Done),
        length: write_prefix(text.as_bytes(), out),
    }
}
