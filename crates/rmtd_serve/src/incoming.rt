//! The source of the pairs of streams that a server serves.
ghost use Rattle.std.specs.Prelude.{◌≡◌, None};

use std::io::{Read, Write};
use thiserror::Error;

/// Why a pair of streams is dropped without being served.
#[derive(Clone, Copy, Debug, PartialEq, Eq, Error)]
pub enum DropReason {
    /// All seats are taken, or an allocation for the return of a seat failed.
    #[error("no seat is free")]
    NoSeat,
    /// The system cannot start a thread for it.
    #[error("no thread")]
    NoThread,
}

/// A source of pairs of streams, one for each session, such as the connections of a listener.
pub trait Incoming {
    /// The stream from which requests are read.
    type In: Read + Send + Drop;

    /// The stream to which replies are written.
    type Out: Write + Send + Drop;

    /// The last pair was returned.
    ghost is_over: { Self → Type 0 };

    /// Returns the next pair of streams, or None after the last pair. It may wait for a pair.
    fn next(&mut self) -> Option<(Self::In, Self::Out)>
        ensures { result ≡ None → is_over self.new };

    /// Returns the number of the last pair that `next` returned, for log lines.
    fn number(&self) -> u64 {
        0
    }

    /// Receives the reason why the last pair that `next` returned was dropped and not served.
    fn dropped(&self, _why: DropReason) {}
}
