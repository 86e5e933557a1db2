//! The requests that a server may refuse.
ghost use Rattle.std.specs.Prelude.{◌≡◌};
ghost use Rattle.refusals.specs.Request.{operation_in, request_in, write_in};

use rmt_wire::find_byte;
use rmt_wire::mtio::{MTBSF, MTBSR, MTFSF, MTFSR, MTOFFL, MTREW, MTWEOF};
use thiserror::Error;

/// The most bytes that an older server takes in a record.
const OLDER_LIMIT: usize = 65536;

/// A request that a server may refuse.
#[derive(Clone, Copy, Debug, PartialEq, Eq, Error)]
pub enum TapeRequest {
    /// The open of the device.
    #[error("open")]
    Open,
    /// A rewind.
    #[error("rewind")]
    Rewind,
    /// An operation that spaces over marks or records.
    #[error("space")]
    Space,
    /// The read of a record.
    #[error("read")]
    Read,
    /// The write of a record, which is a label or a block.
    #[error("write")]
    Write,
    /// The write of a block that is too long for older servers.
    #[error("write")]
    LongWrite,
    /// The operation that writes marks.
    #[error("weof")]
    WriteMark,
    /// The operation that takes the reel offline (MTOFFL).
    #[error("offline")]
    Offline,
    /// An operation that does nothing, or that does not exist.
    #[error("nop")]
    Nop,
    /// The close.
    #[error("close")]
    Close,
}

/// Returns which request these bytes are, if they are one whole request. The first byte decides,
/// and of an operation the second. A write is a `LongWrite` if more than 65,536 bytes follow its
/// first line feed.
#[tactic(auto, unfolding(crate::specs::Request::request_in, crate::specs::Request::letter_in))]
pub fn request_of(bytes: &[u8]) -> Option<TapeRequest>
    ensures { result ≡ request_in bytes.now }
{
    match bytes {
        [b'O', ..] => Some(TapeRequest::Open),
        [b'C', ..] => Some(TapeRequest::Close),
        [b'R', ..] => Some(TapeRequest::Read),
        [b'W', rest @ ..] => Some(write_of(rest)),
        [b'I', digit, ..] => Some(operation_of(*digit)),
        _ => None,
    }
}

/// Returns which write a request is. `rest` is its bytes after the `W`.
fn write_of(rest: &[u8]) -> TapeRequest
    ensures { result ≡ write_in rest.now }
{
    match find_byte(rest, b'\n') {
        Some(at) if rest.len() - at > OLDER_LIMIT + 1 => TapeRequest::LongWrite,
        _ => TapeRequest::Write,
    }
}

fn operation_of(digit: u8) -> TapeRequest
    ensures { result ≡ operation_in digit }
{
    if digit < b'0' {
        return TapeRequest::Nop;
    }
    match u32::from(digit - b'0') {
        MTWEOF => TapeRequest::WriteMark,
        MTFSF | MTBSF | MTFSR | MTBSR => TapeRequest::Space,
        MTREW => TapeRequest::Rewind,
        MTOFFL => TapeRequest::Offline,
        _ => TapeRequest::Nop,
    }
}
