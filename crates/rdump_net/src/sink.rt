//! What receives a volume that is read.
ghost use Rattle.std.specs.Prelude.{true};
ghost use Rattle.rdump_net.specs.Sink.{goes_on, has_accepted};
ghost use Rattle.rdump_net.specs.Sink.SinkCall.{Label, Block, Mark, Complete};

use thiserror::Error;

/// Whether the read of a volume goes on after its first record.
#[derive(Clone, Copy, Debug, PartialEq, Eq)]
pub enum Verdict {
    /// The read goes on.
    GoOn,
    /// The read stops, and the reel stays where it is.
    Stop,
}

/// A sink stopped the read of a volume. The sink keeps why.
#[derive(Clone, Copy, Debug, PartialEq, Eq, Error)]
#[error("SinkStopped")]
pub struct SinkStopped;

/// What receives a volume that is read: the records one by one, each whole.
pub trait VolumeSink {
    ghost use Rattle.std.specs.Prelude.{Bool};
    ghost use Rattle.rdump_net.specs.Sink.{SinkCall};

    /// Relates the sink before and after a call to that call, and to whether the sink accepted it.
    ghost takes: { Self → Self → SinkCall → Bool → Type 0 };

    /// Takes the first record of a volume, of at least one byte: a label with the zero bytes after
    /// its text, or whatever record is there instead.
    fn label(&mut self, record: &[u8]) -> Verdict
        ensures { takes self.old self.new (Label record.now) (goes_on result) };

    /// Takes the next block: a record after the label, of at least one byte. `number` counts these
    /// records from 0.
    ///
    /// Fails with `SinkStopped` if the sink does not accept the record. The read then stops.
    fn block(&mut self, number: u64, bytes: &[u8]) -> Result<(), SinkStopped>
        ensures { takes self.old self.new (Block number bytes.now) (has_accepted result) };

    /// Takes the mark that follows the last record.
    fn mark(&mut self)
        ensures { takes self.old self.new Mark true };

    /// Returns whether the sink has kept the volume: it has written and synced everything that it
    /// was given, and does not object to the reel. Called only after the mark.
    ///
    /// Fails with `SinkStopped` if the volume is not kept. The reel then stays where it is.
    fn complete(&mut self) -> Result<(), SinkStopped>
        ensures { takes self.old self.new Complete (has_accepted result) };
}
