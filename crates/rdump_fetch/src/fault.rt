//! The faults of a sink.
use std::io;

/// Why a sink stopped the copy of a reel.
#[derive(Clone, Copy)]
pub enum FetchFault {
    /// The first record is no label.
    NoLabel,
    /// A block has another number of bytes than the one before it.
    OtherLength {
        /// How many bytes the block has.
        bytes: usize,
        /// How many bytes the one before it has.
        before: usize,
    },
    /// A call of the copy failed.
    Failed(io::Error),
}
