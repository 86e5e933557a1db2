//! Failed calls of the system, with their reasons.

use super::line::Line;
use console::PlainBytes;
use std::alloc::AllocError;
use std::fmt::Write;
use std::io::{self, ErrorKind};

/// About how many bytes of a path are kept; `..` replaces the rest. A line then has room for the
/// name of a drive, up to 255 bytes, and for the reason.
const PATH_ROOM: usize = 600;

#[derive(Clone, Copy)]
pub(super) struct Refusal {
    /// The path and the call, like `st0/r1: open: `. It is empty if an allocation failed.
    place: Line,
    pub(super) reason: io::Error,
}

impl Refusal {
    pub(super) fn new(path: &str, call: &str, reason: io::Error) -> Refusal {
        let mut place = Line::new();
        let rest = match place.add(path, PATH_ROOM) {
            Ok(()) => "",
            Err(_) => "..",
        };
        let _ = write!(place, "{rest}: {call}: ");
        Refusal { place, reason }
    }

    /// Returns the failure of a name that is not UTF-8, with question marks for parts that are not
    /// text.
    pub(super) fn of_name(folder: &str, name: &[u8]) -> Refusal {
        let mut path = Line::new();
        let name = PlainBytes(name);
        let _ = write!(path, "{folder}/{name}");
        let reason = io::Error::from(ErrorKind::InvalidFilename);
        Refusal::new(path.as_str(), "list", reason)
    }

    pub(super) fn place(&self) -> &str {
        self.place.as_str()
    }
}

impl From<AllocError> for Refusal {
    fn from(error: AllocError) -> Refusal {
        Refusal {
            place: Line::new(),
            reason: io::Error::from(error),
        }
    }
}

/// Adds the path and the call to an error.
pub(super) fn at<T: Drop>(path: &str, call: &str, given: io::Result<T>) -> Result<T, Refusal> {
    match given {
        Ok(value) => Ok(value),
        Err(reason) => Err(Refusal::new(path, call, reason)),
    }
}
