//! Why a payload was not restored.
use std::alloc::AllocError;

/// Why a payload was refused before the first byte was written. Reels are named by their numbers.
#[derive(Clone, Copy, Debug, PartialEq, Eq)]
pub enum Refusal {
    /// An allocation failed.
    OutOfMemory,
    /// A reel could not be opened or read.
    Unreadable {
        /// The reel.
        reel: usize,
    },
    /// No reel has a whole volume of a dump that is wanted.
    NoVolume,
    /// Two reels have volumes of different dumps, and both are wanted.
    TwoDumps {
        /// The one reel.
        reel: usize,
        /// The other reel.
        other: usize,
    },
    /// Two reels have the same volume, with different bytes.
    TwoReels {
        /// The one reel.
        reel: usize,
        /// The other reel.
        other: usize,
    },
    /// The blocks of two reels have different sizes.
    TwoSizes {
        /// The one reel.
        reel: usize,
        /// The other reel.
        other: usize,
    },
    /// No reel has this volume, but the dump has it, or a reel has a later one.
    Missing {
        /// The number of the volume.
        volume: u64,
    },
    /// The dump has so many volumes, but reels have more.
    MoreVolumes {
        /// How many volumes the dump has.
        volumes: u32,
    },
    /// A volume does not begin where the one before it ends.
    Displaced {
        /// The reel of the volume.
        reel: usize,
        /// The block at which the volume before it ends.
        end: u64,
    },
    /// The payload does not end in the last block of the volumes.
    OtherLength {
        /// How many blocks the volumes have.
        blocks: u64,
        /// How many bytes each block has.
        block_bytes: usize,
    },
}

/// Why a payload was not restored. Unless it was refused, a beginning of the payload was written:
/// nothing, a part, or all of it.
#[derive(Clone, Copy, Debug, PartialEq, Eq)]
pub enum RestoreFault {
    /// It was refused, and nothing was written.
    Refused(Refusal),
    /// A reel could not be opened or read again, or it was changed after it was checked.
    Reel {
        /// The reel.
        reel: usize,
    },
    /// The output failed.
    Output,
}

impl From<AllocError> for Refusal {
    fn from(_: AllocError) -> Refusal {
        Refusal::OutOfMemory
    }
}
