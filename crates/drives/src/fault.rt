//! The errors of drives and reels.

use std::alloc::AllocError;
use thiserror::Error;

/// Why a drive was not opened or added, or a reel not moved or added. After each error the seat
/// holds what it held before, and the stacks and the bin are unchanged, except that a latch in
/// folders may have finished an interrupted move.
#[derive(Clone, Copy, Debug, PartialEq, Eq, Error)]
pub enum DriveFault {
    /// No drive has that name.
    #[error("NoSuchDrive")]
    NoSuchDrive,
    /// The seat with this number holds the drive.
    #[error("Busy")]
    Busy(u64),
    /// The drive's stack has no reel, or its first reel is already latched.
    #[error("NoReel")]
    NoReel,
    /// The device that stores the reels failed.
    #[error("Device")]
    Device,
    /// An allocation failed.
    #[error("OutOfMemory")]
    OutOfMemory,
    /// The bin already has a reel with that name, or the name to add is already taken.
    #[error("NameTaken")]
    NameTaken,
}

/// Why an open was refused, for a log.
#[derive(Clone, Copy)]
pub enum OpenRefusal {
    /// The open had this mode, which asks for no access that a drive has.
    BadMode(u32),
    /// The drive could not be opened.
    Drive(DriveFault),
}

impl From<AllocError> for DriveFault {
    ghost use Rattle.std.specs.Prelude.{◌≡◌};
    ghost use Rattle.drives.specs.declared.fault.DriveFault.TheVariants.{OutOfMemory};

    ghost from_gives = { λ _ e. e ≡ OutOfMemory };

    fn from(_: AllocError) -> DriveFault {
        DriveFault::OutOfMemory
    }
}
