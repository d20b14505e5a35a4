//! Why a command's output isn't whole, and the line on what stopped a run over lines.
ghost use Rattle.std.specs.Prelude.{◌≡◌};
ghost use Rattle.uv_cli.specs.declared.fault.CliFault.TheVariants as cli;
ghost use Rattle.uv_cli.specs.Ends.{fault_of_vectors};
ghost use Rattle.uv_cli.specs.Stopped.{stop_text, stopped_text};

use std::alloc::AllocError;
use thiserror::Error;
use uv_lines::StopFault;
use uv_vectors::VectorFault;

/// Why a command's output isn't whole.
#[derive(Clone, Copy, Debug, PartialEq, Eq, Error)]
pub enum CliFault {
    /// An allocation failed. Nothing of the output was written.
    #[error("memory")]
    Memory,
    /// A write failed. A beginning of the output was written.
    #[error("write")]
    Write,
}

impl From<AllocError> for CliFault {
    ghost from_gives = { λ _ fault. fault ≡ cli.Memory };

    fn from(_error: AllocError) -> CliFault {
        CliFault::Memory
    }
}

impl From<VectorFault> for CliFault {
    ghost from_gives = { λ given fault. fault ≡ fault_of_vectors given };

    fn from(fault: VectorFault) -> CliFault {
        match fault {
            VectorFault::Memory => CliFault::Memory,
            VectorFault::Write => CliFault::Write,
        }
    }
}

/// The line on what stopped a run over lines.
pub(crate) fn stop_line(fault: StopFault) -> &'static str
    ensures { result.now ≡ stop_text fault }
{
    match fault {
        StopFault::Memory => "memory\n",
        StopFault::Read => "read\n",
        StopFault::Write => "write\n",
        StopFault::TooManyLines => "too many lines\n",
        StopFault::Endless => "endless\n",
    }
}

/// The line on what stopped a run over lines, if something did.
pub(crate) fn stopped_line(stopped: Option<StopFault>) -> &'static str
    ensures { result.now ≡ stopped_text stopped }
{
    match stopped {
        Some(fault) => stop_line(fault),
        None => "",
    }
}
