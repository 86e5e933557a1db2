//! Fills a reader of requests.

ghost use Rattle.std.specs.Prelude.{◌≡◌, ◌+◌, ◌<◌, ◌≤◌, ℕ, List, length, IfOk, OnOk, OnErr};
ghost use Rattle.std.specs.Io.KnownBytes.{IsAtEnd};
ghost use Rattle.rmt_wire.specs.Counted.{raised};
ghost use Rattle.rmt_wire.specs.RequestReader.{Unread, taken_of};
ghost use Rattle.rmt_wire.specs.RequestFill.{IsFilled, IsNotFilled};

use super::{RequestReader, discard_data};
use crate::counted::Counted;
use crate::kept::{append_read, remove};
use crate::limits::READER_LIMIT;
use std::io::{self, Read};

impl RequestReader {
    /// Reads once from a stream into the reader. Returns how many bytes came, 0 only at the end of
    /// the stream. They are unread, after those that were, which are moved to the front first. The
    /// reader must have room, as it has whenever `next` returned None.
    ///
    /// Fails if the read fails, which `stream` counts. Then, and at the end of the stream, the
    /// reader is unchanged.
    pub fn fill<R: Read>(&mut self, stream: &mut Counted<R>) -> io::Result<usize>
        requires { (bytes : List ℕ) × Unread self.old bytes × (taken_of bytes < READER_LIMIT) }
        ensures came { IfOk result (IsFilled (R.remaining stream.old.inner) (R.remaining stream.new.inner) self.old self.new) }
        ensures ended { IfOk result (λ n. n ≡ 0 → IsAtEnd (R.remaining stream.new.inner)
            × IsNotFilled (R.remaining stream.old.inner) (R.remaining stream.new.inner) self.old self.new) }
        ensures failed { OnErr result (IsNotFilled (R.remaining stream.old.inner) (R.remaining stream.new.inner) self.old self.new) }
        ensures counted { OnErr result (stream.new.failures ≡ raised stream.old.failures) }
        ensures steady { OnOk result (stream.new.failures ≡ stream.old.failures) }
        ensures left { OnOk result (stream.new.left + 1 ≡ stream.old.left) }
        ensures limit { IfOk result (λ n. 0 < n → length self.new.kept ≤ READER_LIMIT) }
    {
        remove(&mut self.buffer, 0, self.start);
        self.start = 0;
        let most = READER_LIMIT - self.buffer.len();
        let count = append_read(&mut self.buffer, most, stream)?;
        if count > 0 {
            discard_data(&mut self.buffer, 0, &mut self.line, &mut self.dropped);
        }
        Ok(count)
    }
}
