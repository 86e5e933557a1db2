//! Reads a stream request by request.

ghost use Rattle.std.specs.Prelude.{◌≡◌, ℕ, ◌<◌, List, IsTrue, IsFalse};
ghost use Rattle.rmt_wire.specs.RequestParts.{IsRequestPrefix, HasNoSpelling};
ghost use Rattle.rmt_wire.specs.RequestReader.{Unread, taken_of};
ghost use Rattle.rmt_wire.specs.RequestStream.{IsReadNext, CountsNext, plain_read_next_result};
ghost use Rattle.rmt_wire.specs.declared.limits.TheConstants.{READER_LIMIT};

use super::line::line_of;
use super::{RequestReader, first_request};
use crate::counted::Counted;
use crate::fault::WireFault;
use crate::request::Request;
use std::io::Read;
use thiserror::Error;

/// Why a stream has no further request.
#[derive(Clone, Copy, Debug, PartialEq, Eq, Error)]
pub enum StreamFault {
    /// The stream ended inside a request.
    #[error("Truncated")]
    Truncated,
    /// The bytes are not a request.
    #[error("Broken: {0}")]
    Broken(WireFault),
    /// A read failed.
    #[error("Input")]
    Input,
}

impl RequestReader {
    ghost use Rattle.std.specs.Borrow.{sem};
    ghost use Rattle.std.specs.Io.BufRead.{Rests};
    ghost use Rattle.rmt_wire.specs.contracts.request.reader.RequestReader.{the_row};

    fn is_waiting(&mut self) -> bool
        ensures more { IsTrue result → (bytes : List ℕ) → Unread self.new bytes →
            IsRequestPrefix bytes × HasNoSpelling bytes × (taken_of bytes < READER_LIMIT) }
        ensures enough { IsFalse result → (bytes : List ℕ) → Unread self.new bytes → ¬ (IsRequestPrefix bytes × HasNoSpelling bytes) }
        ensures same { self.new ≡ self.old }
    {
        let unread = &self.buffer.as_slice()[self.start..];
        self.line = line_of(self.line, unread);
        match first_request(unread, self.line, self.dropped) {
            Ok(found) => found.is_none(),
            Err(_) => false,
        }
    }

    /// Returns the next request of a stream, and lends its data. Reads only while the request is
    /// incomplete. Returns None if the stream ended between two requests.
    ///
    /// Fails with `Truncated` if it ended inside one, with `Broken` at the first byte that rules
    /// out every request, and with `Input` at the first read that fails. After a failed read the
    /// next call continues where this one stopped.
    ///
    /// The unread bytes must be known, as for a new reader and after each call.
    pub fn read_next<R: Read>(
        &mut self,
        stream: &mut Counted<R>,
    ) -> Result<Option<Request<'_>>, StreamFault>
        requires { (bytes : List ℕ) × Unread self.old bytes }
        ensures* rests { sem 𝓛 (Rests the_row self.entry (λ new. IsReadNext
            (R.remaining stream.old.inner) (R.remaining stream.new.inner) stream.old.left stream.new.left
            self.old (plain_read_next_result result) new)) }
        ensures counted { CountsNext (plain_read_next_result result) stream.old.failures stream.new.failures }
    {
        while self.is_waiting() {
            match self.fill(stream) {
                Ok(0) if self.is_empty() => return Ok(None),
                Ok(0) => return Err(StreamFault::Truncated),
                Ok(_) => {}
                Err(_) => return Err(StreamFault::Input),
            }
        }
        match self.next() {
            Ok(given) => Ok(given),
            Err(fault) => Err(StreamFault::Broken(fault)),
        }
    }
}
