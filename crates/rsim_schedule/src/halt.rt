//! Why a schedule ends early.

use std::alloc::AllocError;

/// Why a line was not run, or not to its end.
#[derive(Clone, Copy)]
pub(crate) enum Halt {
    /// The line is not valid, or not allowed at this place.
    BadLine,
    /// The event of the line is not possible in this world.
    NotPossible,
    /// An allocation failed.
    OutOfMemory,
    /// A write failed.
    StreamFailed,
}

impl From<AllocError> for Halt {
    ghost use Rattle.std.specs.Prelude.{◌≡◌};
    ghost use Rattle.rsim_schedule.specs.declared.halt.Halt.TheVariants.{OutOfMemory};

    ghost from_gives = { λ _ e. e ≡ OutOfMemory };

    fn from(_: AllocError) -> Halt {
        Halt::OutOfMemory
    }
}
