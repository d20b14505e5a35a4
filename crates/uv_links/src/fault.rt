//! Why a run over a list of links stopped.
ghost use Rattle.std.specs.Prelude.{◌≡◌};
ghost use Rattle.uv_lines.specs.declared.fault.StopFault.TheVariants as stop;
ghost use Rattle.uv_links.specs.declared.fault.LinkFault.TheVariants as fault;
ghost use Rattle.uv_links.specs.Fault as spec;

use std::alloc::AllocError;
use thiserror::Error;
use uv_compare::RoomFault;
use uv_lines::StopFault;

/// Why a run over a list of links stopped, and what it had written by then. How far the reader was read is left open.
#[derive(Clone, Copy, Debug, PartialEq, Eq, Error)]
pub enum LinkFault {
    /// The run over the list stopped. The output for a line is its line of the report.
    #[error(transparent)]
    Stop(StopFault),
    /// A line's URL is longer than the second parser's texts can be. Whole lines of the report were written.
    #[error("overflow")]
    Overflow,
    /// The second parser refuses the base's text or reads it as another one. Nothing was written.
    #[error("base differs")]
    BaseDiffers,
}

impl From<AllocError> for LinkFault {
    ghost from_gives = { λ _ given. given ≡ fault.Stop stop.Memory };

    fn from(_error: AllocError) -> LinkFault {
        LinkFault::Stop(StopFault::Memory)
    }
}

/// The fault of a run that needs the same room.
pub(crate) fn fault_of_room(fault: RoomFault) -> LinkFault
    ensures { result ≡ spec.fault_of_room fault }
{
    match fault {
        RoomFault::Memory => LinkFault::Stop(StopFault::Memory),
        RoomFault::Overflow => LinkFault::Overflow,
    }
}
