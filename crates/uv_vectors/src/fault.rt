//! Why the report on a vector file isn't whole.
ghost use Rattle.std.specs.Prelude.{◌≡◌};
ghost use Rattle.uv_vectors.specs.declared.fault.VectorFault.TheVariants as vector;

use std::alloc::AllocError;
use thiserror::Error;

/// Why the report on a vector file isn't whole.
#[derive(Clone, Copy, Debug, PartialEq, Eq, Error)]
pub enum VectorFault {
    /// An allocation failed. Nothing of the report was written.
    #[error("memory")]
    Memory,
    /// A write failed. The beginning of the report was written.
    #[error("write")]
    Write,
}

impl From<AllocError> for VectorFault {
    ghost from_gives = { λ _ fault. fault ≡ vector.Memory };

    fn from(_error: AllocError) -> VectorFault {
        VectorFault::Memory
    }
}
