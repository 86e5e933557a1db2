//! The faults of dumpdates.

use std::alloc::AllocError;
use thiserror::Error;

/// Why a file was not read, or a list was not written or not changed.
///
/// Lines are counted from 1, blank ones included.
#[derive(Clone, Copy, Debug, PartialEq, Eq, Error)]
pub enum DatesFault {
    /// The line with this number is the first bad one: it is not blank and does not have the shape
    /// of an entry.
    #[error("line {0}: bad line")]
    BadLine(usize),
    /// The line with this number is the first bad one. It has the shape of an entry, but its date
    /// is not a day from 1970 to 9999, or its time is not valid. A valid time has an hour up to 23,
    /// and a minute and a second up to 59.
    #[error("line {0}: bad date")]
    BadDate(usize),
    /// An allocation failed. Nothing was changed.
    #[error("out of memory")]
    OutOfMemory,
}

impl From<AllocError> for DatesFault {
    ghost use Rattle.std.specs.Prelude.{◌≡◌};
    ghost use Rattle.dumpdates.specs.declared.fault.DatesFault.TheVariants.{OutOfMemory};

    ghost from_gives = { λ _ e. e ≡ OutOfMemory };

    fn from(_: AllocError) -> DatesFault {
        DatesFault::OutOfMemory
    }
}
