//! Faults of the wire format.

use thiserror::Error;

/// Why bytes are not a request or reply, by the first byte that rules out each. `RequestReader`
/// returns the first three, `ReplyReader` the last two and `BadNumber`.
#[derive(Clone, Copy, Debug, PartialEq, Eq, Error)]
pub enum WireFault {
    /// The first byte of a request is not one of `O C W R I`.
    #[error("UnknownCommand")]
    UnknownCommand,
    /// A number has no digit, an eleventh digit, a value above `NUMBER_LIMIT`, or a byte that is
    /// neither digit nor end.
    #[error("BadNumber")]
    BadNumber,
    /// A device, mode or close line has more than `LINE_LIMIT` bytes.
    #[error("LineTooLong")]
    LineTooLong,
    /// The first byte of a reply is neither `A` nor `E`.
    #[error("NotAReply")]
    NotAReply,
    /// The data of a reply are more than was wanted (checked before `BadNumber`), or a byte came
    /// while no reply was wanted.
    #[error("TooMuchData")]
    TooMuchData,
}
