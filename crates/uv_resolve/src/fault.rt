//! Why a text has no record.
ghost use Rattle.std.specs.Prelude.{◌≡◌};
ghost use Rattle.uv_resolve.specs.declared.fault.ResolveFault.TheVariants as resolve;

use std::alloc::AllocError;
use thiserror::Error;
use uv_model::Refusal;

/// Why a text has no record.
#[derive(Clone, Copy, Debug, PartialEq, Eq, Error)]
pub enum ResolveFault {
    /// The text isn't a valid URL string: the least place at which it violates a rule, and there the rule of the least
    /// number. No allocation was tried for the record.
    #[error("refused {} {}", .0.place, .0.rule.name())]
    Refused(Refusal),
    /// An allocation failed. The text and the base are as they were.
    #[error("memory")]
    Memory(AllocError),
}

impl From<AllocError> for ResolveFault {
    ghost from_gives = { λ error fault. fault ≡ resolve.Memory error };

    fn from(error: AllocError) -> ResolveFault {
        ResolveFault::Memory(error)
    }
}
