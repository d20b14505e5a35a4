//! The state of a run between two pieces.
ghost use Rattle.std.specs.Prelude.{◌≡◌, ◌+◌, ◌<◌, ◌≤◌, [], vec_len};

use crate::limits::LineLimits;
use crate::reporter::Reporter;
use std::alloc::Global;

/// The state of a run between two pieces: what is kept of the line that has begun, and what waits to be written about
/// the lines before it.
#[derive(Drop)]
pub(crate) struct Progress<R: Reporter> {
    pub(crate) reporter: R,
    pub(crate) limits: LineLimits,
    pub(crate) begun: Vec<u8>,
    pub(crate) text: Vec<u8>,
    ghost short: { limits.line_bytes ≤ 65536 },
    ghost bounded: { limits.lines ≤ 1000000000 },
    ghost few: { R.lines reporter ≤ limits.lines },
    ghost kept: { vec_len begun ≤ limits.line_bytes + 2 },
    ghost room: { 0 < vec_len begun → R.lines reporter < limits.lines },
}

impl<R: Reporter> Progress<R> {
    /// The state before the first piece.
    pub(crate) fn new(alloc: Global, reporter: R, limits: LineLimits) -> Progress<R>
        requires short { limits.line_bytes ≤ 65536 }
        requires bounded { limits.lines ≤ 1000000000 }
        requires start { R.lines reporter ≡ 0 }
        ensures setting { (result.reporter ≡ reporter) × (result.limits ≡ limits) }
        ensures begun { result.begun.items ≡ [] }
        ensures text { result.text.items ≡ [] }
    {
        Progress {
            reporter,
            limits,
            begun: Vec::new(alloc),
            text: Vec::new(alloc),
        }
    }

    /// The reporter given back.
    pub(crate) fn into_reporter(self) -> R
        ensures { result ≡ self.reporter }
    {
        self.reporter
    }
}
