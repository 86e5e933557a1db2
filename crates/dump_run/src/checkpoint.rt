//! Checkpoints.
ghost use Rattle.std.specs.Prelude.{◌≡◌, List, IfOk, IfErr};
ghost use Rattle.dump_run.specs.Run.{IsRun};
ghost use Rattle.dump_run.specs.Counts.{AreVolumes};
ghost use Rattle.dump_run.specs.Checkpoint.{SpellsCheckpoint, HasResumeFault};
ghost use Rattle.dump_run.specs.declared.count.VolumeCount.{VolumeCount};

mod counts;
pub(crate) mod field;
mod first_byte;
mod head;
mod number;
mod order;
mod text;

use crate::{ResumeFault, Run, VolumeCount};
use counts::read_counts;
use head::{HEAD_LINES, read_head};
use order::ordered;
use std::alloc::Global;
use std::marker::Model;
pub use text::push_checkpoint;

/// A run, and the volumes of it that are counted, in order from volume 1.
#[derive(Drop)]
pub struct Checkpoint {
    run: Run,
    counts: Vec<VolumeCount>,
}

impl Model for Checkpoint {
    ghost use Rattle.dump_run.specs.Counts.{AreVolumes};
    ghost use Rattle.dump_run.specs.Checkpoint.{PlainCheckpoint};

    ghost Value = { PlainCheckpoint };

    ghost view = { λ c. record { run = c.run; counts = c.counts.items } };

    ghost invariant = { λ c. AreVolumes c.run 1 0 c.counts.items };
}

impl Checkpoint {
    /// Reads the text of a checkpoint, as `push_checkpoint` writes it.
    ///
    /// `ResumeFault` describes the errors. The limits are those of `Run::new`, and the numbers of a
    /// count are 0 to `BLOCKS_LIMIT`. Only an allocation for the counts can fail.
    pub fn read(alloc: Global, bytes: &[u8]) -> Result<Checkpoint, ResumeFault>
        ensures spelled { IfOk result (λ c. SpellsCheckpoint bytes.now c.run c.counts) }
        ensures refused { IfErr result (HasResumeFault bytes.now) }
    {
        let (run, rest) = read_head(bytes)?;
        let counts = read_counts(alloc, rest)?;
        let count = ordered(&run, &counts);
        if count < counts.len() {
            return Err(ResumeFault::NotInOrder(HEAD_LINES + count + 1));
        }
        Ok(Checkpoint { run, counts })
    }

    /// Returns the run.
    pub fn run(&self) -> &Run
        // The types allow no other body, so no wrong body is tried.
        ensures { result.now ≡ self.now.run }
    {
        &self.run
    }

    /// Returns the counted volumes, in order from volume 1.
    pub fn counts(&self) -> &[VolumeCount]
        ensures told { result.now ≡ self.now.counts }
        ensures in_order { AreVolumes self.now.run 1 0 self.now.counts }
    {
        &self.counts
    }

    /// Returns the run and the counted volumes.
    pub fn into_parts(self) -> (Run, Vec<VolumeCount>)
        ensures run { result.0 ≡ self.run }
        ensures limits { IsRun self.run }
        ensures counts { result.1.items ≡ self.counts }
        ensures in_order { AreVolumes self.run 1 0 self.counts }
    {
        (self.run, self.counts)
    }
}

impl Run {
    /// Reads the text of a checkpoint, and returns only the run. Reads the counts too, and fails as
    /// `Checkpoint::read` does.
    pub fn spelled(alloc: Global, bytes: &[u8]) -> Result<Run, ResumeFault>
        ensures spelled { IfOk result (λ run. (counts : List VolumeCount) × SpellsCheckpoint bytes.now run counts) }
        ensures refused { IfErr result (HasResumeFault bytes.now) }
    {
        let checkpoint = Checkpoint::read(alloc, bytes)?;
        Ok(checkpoint.run)
    }
}
