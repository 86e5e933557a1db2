//! Why the contents of a reel could not be determined.
use crate::verdict::push_count;
use remote_tape::TapeRequest;
use std::alloc::AllocError;

/// Why the contents of a reel could not be determined.
#[derive(Clone, Copy)]
pub(crate) enum Undetermined {
    /// No record was read, and spacing over a mark was refused: the reel may be empty, or the
    /// device may have failed.
    NoRecord,
    /// The reply to a request was this error, which may be a fault of the device.
    Refused { request: TapeRequest, number: u32 },
    /// The reel has more records than one request can space over.
    TooManyRecords,
    /// The reel has more marks in a row than any reel of a drive.
    TooManyMarks,
}

impl Undetermined {
    pub(crate) fn push(self, text: &mut Vec<u8>) -> Result<(), AllocError> {
        text.extend_from_slice(b"cannot be told: ")?;
        match self {
            Undetermined::NoRecord => {
                text.extend_from_slice(b"no record is read, and spacing is refused")
            }
            Undetermined::Refused { request, number } => {
                text.extend_from_slice(request_name(request))?;
                push_count(text, b" was answered with E", u64::from(number), b"")
            }
            Undetermined::TooManyRecords => text.extend_from_slice(b"it has too many records"),
            Undetermined::TooManyMarks => text.extend_from_slice(b"it has too many marks"),
        }
    }
}

fn request_name(request: TapeRequest) -> &'static [u8] {
    match request {
        TapeRequest::Rewind => b"the rewind",
        TapeRequest::Read => b"a read",
        _ => b"spacing",
    }
}
