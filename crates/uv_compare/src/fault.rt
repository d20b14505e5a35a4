//! Why the second parser gives no answer on a text.
ghost use Rattle.std.specs.Prelude.{◌≡◌};
ghost use Rattle.uv_compare.specs.declared.fault.RoomFault.TheVariants as room;

use std::alloc::AllocError;

/// Why the second parser gives no answer on a text: there is no room for one.
#[derive(Clone, Copy, Debug, PartialEq, Eq)]
pub enum RoomFault {
    /// An allocation failed.
    Memory,
    /// A text is longer than the second parser's can be: 4 GiB or more.
    Overflow,
}

impl From<AllocError> for RoomFault {
    ghost from_gives = { λ _ given. given ≡ room.Memory };

    fn from(_error: AllocError) -> RoomFault {
        RoomFault::Memory
    }
}
