//! Why one event did not happen.

use std::alloc::AllocError;

/// Why an event did not happen. The world has not changed.
#[derive(Clone, Copy)]
pub(crate) enum EventStop {
    /// The event is not possible.
    NotPossible,
    /// An allocation failed.
    OutOfMemory,
}

impl From<AllocError> for EventStop {
    ghost use Rattle.std.specs.Prelude.{◌≡◌};
    ghost use Rattle.tape_world.specs.declared.stop.EventStop.TheVariants.{OutOfMemory};

    ghost from_gives = { λ _ e. e ≡ OutOfMemory };

    fn from(_: AllocError) -> EventStop {
        EventStop::OutOfMemory
    }
}
