//! The errors of runs and checkpoints.

use thiserror::Error;

/// Why `Run::new` refuses a run: the first limit that is broken, in the order of this list.
#[derive(Clone, Copy, Debug, PartialEq, Eq, Error)]
pub enum RunFault {
    /// The device is empty, has more than 255 bytes, or contains a line feed.
    #[error("BadDevice")]
    BadDevice,
    /// The name is not 1 to 255 bytes of printable ASCII without a space.
    #[error("BadName")]
    BadName,
    /// The level is above 9.
    #[error("BadLevel")]
    BadLevel,
    /// The date, or the date of the dump that it builds on, is after the last second of the year
    /// 9999.
    #[error("BadDate")]
    BadDate,
    /// The size of a block is not 1 to `RECORD_LIMIT` bytes.
    #[error("BadBlockSize")]
    BadBlockSize,
    /// There are more than `BLOCKS_LIMIT` blocks.
    #[error("TooManyBlocks")]
    TooManyBlocks,
}

/// Why bytes are not a checkpoint. Lines are counted from 1.
#[derive(Clone, Copy, Debug, PartialEq, Eq, Error)]
pub enum ResumeFault {
    /// The line with this number is the first that does not have its form, breaks a limit, or is
    /// missing.
    #[error("line {0}: bad line")]
    BadLine(usize),
    /// All lines have their form. The count on the line with this number is the first that does not
    /// follow those before it.
    #[error("line {0}: not in order")]
    NotInOrder(usize),
    /// An allocation failed.
    #[error("out of memory")]
    OutOfMemory,
}
