//! The errors of a client.

use thiserror::Error;

/// Why an attempt failed. Its volume is not counted, and nothing more is sent on the connection.
#[derive(Clone, Copy, Debug, PartialEq, Eq, Error)]
pub enum AttemptFault {
    /// The server replied with this error number. ENOSPC in reply to a write is the end of the reel
    /// or `ReelTooSmall` instead.
    #[error("Refused {0}")]
    Refused(u32),
    /// The bytes that came are no reply or a reply of the wrong kind, are not the 1 that an
    /// operation returns, or came while no reply was awaited.
    #[error("Botched")]
    Botched,
    /// The connection ended before the reply to MTOFFL.
    #[error("ConnectionEnded")]
    ConnectionEnded,
    /// The server wrote another number of bytes than were sent, but not 0.
    #[error("ShortWrite")]
    ShortWrite,
    /// There was no room for the label, or for the first block of the volume.
    #[error("ReelTooSmall")]
    ReelTooSmall,
    /// A block could not be read.
    #[error("SourceFault")]
    SourceFault,
    /// An allocation failed.
    #[error("OutOfMemory")]
    OutOfMemory,
    /// The reel begins with the label of this volume, which this run has counted. The attempt wrote
    /// nothing on the reel.
    #[error("CountedReel {0}")]
    CountedReel(u32),
}

/// Why a client refused a call. Nothing has changed.
#[derive(Clone, Copy, Debug, PartialEq, Eq, Error)]
pub enum StartFault {
    /// The call is not allowed in the client's state.
    #[error("WrongState")]
    WrongState,
    /// An allocation failed.
    #[error("OutOfMemory")]
    OutOfMemory,
}
