//! A source that hashes.

ghost use Rattle.std.specs.Prelude.{◌≡◌, ℕ, List, IfSome};
ghost use Rattle.volume_check.specs.Volume.{volume_sum};

use crate::volume_hasher::VolumeHasher;
use dump_run::{Blocks, LABEL_BYTES, Run, SourceFailed, VolumeCount, label};
use std::marker::Model;

/// A source whose volumes are hashed while they are written. Contracts see only the source in it.
///
/// It keeps only the hash of the volume that was begun last. So ask for the sum of a volume before
/// the next one begins.
#[derive(Drop)]
pub struct Summed<B: Blocks> {
    source: B,
    hasher: VolumeHasher,
}

impl<B: Blocks> Model for Summed<B> {
    ghost use Rattle.std.specs.Prelude.{ℕ, List};
    ghost use Rattle.volume_check.specs.Summing.{AreHashed};

    ghost Value = { B };

    ghost coded = { B.code };

    ghost view = { λ s. s.source };

    ghost invariant = { λ s. (payload : List (List ℕ)) → B.Blocks.holds s.source payload → AreHashed s.hasher payload };
}

impl<B: Blocks> Summed<B> {
    /// Makes a source that has the blocks of `source` and, if `is_on` is true, hashes the blocks
    /// that are sent. Otherwise `sum` returns None.
    pub fn new(source: B, is_on: bool) -> Summed<B>
        // The types allow no other body, so no wrong body is tried. The exception is a body that
        // uses `is_on` otherwise: no clause speaks of it.
        ensures { result ≡ source }
    {
        Summed {
            source,
            hasher: VolumeHasher::empty(is_on),
        }
    }

    /// Returns the SHA-256 of the record file that has this counted volume of the run and nothing
    /// else: its label, its blocks and one mark.
    ///
    /// Returns None if the volume is not the volume that was begun last, if its blocks were not
    /// sent in order, or if more than one block was sent after them.
    pub fn sum(&self, run: &Run, count: VolumeCount) -> Option<[u8; 32]>
        // No clause says when the call returns a sum.
        ensures { IfSome result (λ sum. (payload : List (List ℕ)) → B.holds self.now payload →
            sum ≡ volume_sum run.now payload count.volume count.first count.count) }
    {
        let label = label(run, count.volume, count.first);
        self.hasher.sum(&label, count.first, count.count)
    }
}

impl<B: Blocks> Blocks for Summed<B> {
    ghost holds = { B.holds };

    ghost failures = { B.failures };

    ghost can_fail = { B.can_fail };

    ghost reads = { B.reads };

    ghost single = { B.single };

    fn begin_volume(&mut self, label: &[u8; LABEL_BYTES], volume: u32, first: u32) {
        self.hasher.begin(label, first);
        self.source.begin_volume(label, volume, first);
    }

    fn read(&mut self, block: u32, into: &mut [u8]) -> Result<(), SourceFailed> {
        self.source.read(block, into)
    }

    fn sent(&mut self, block: u32, bytes: &[u8]) {
        self.hasher.add_block(block, bytes);
        self.source.sent(block, bytes);
    }

    fn failures(&self) -> u64 {
        self.source.failures()
    }
}
