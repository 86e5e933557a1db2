//! The source of the blocks.

ghost use Rattle.std.specs.Prelude.{◌≡◌, ◌↔◌, ℕ, List, [], Result, IsErr, get_or, length};
ghost use Rattle.dump_run.specs.Blocks.{HasBlock, GivesBlock, counted_after};

use crate::LABEL_BYTES;
use thiserror::Error;

/// A read of a block failed. The source's blocks are unchanged.
#[derive(Clone, Copy, Debug, PartialEq, Eq, Error)]
#[error("SourceFailed")]
pub struct SourceFailed;

/// A source of blocks: a fixed list of blocks, all of one length, which a run dumps.
///
/// Contracts know a source's list of blocks or do not know it, like the bytes of std's readers. A
/// clause on the content of blocks holds only if the list is known.
pub trait Blocks {
    ghost use Rattle.dump_run.specs.declared.blocks.SourceFailed.{SourceFailed};

    /// The relation of a source to its list of blocks, if that is known.
    ghost holds: { Self → List (List ℕ) → Type 0 };

    /// The number of reads that have failed.
    ghost failures: { Self → ℕ };

    /// Whether the next read can fail. If it cannot, no read makes it able to.
    ghost can_fail: { Self → Type 0 };

    /// A further guarantee of a read, for this kind of source. Its arguments are the source, the
    /// block's number and the bytes of `into`, then the result, the new source and the new bytes of
    /// `into`.
    ghost reads: { Self → ℕ → List ℕ → Result Unit SourceFailed → Self → List ℕ → Type 0 };

    /// Informs the source that an attempt to write volume `volume`, counted from 1, begins. The
    /// volume's first record is `label`, and its first block `first`, counted from 0.
    ///
    /// A source may hash the label and the blocks that are then sent. The default does nothing.
    fn begin_volume(&mut self, label: &[u8; LABEL_BYTES], volume: u32, first: u32)
        // No clause says that `label` is the label of volume `volume`.
        ensures { self.new ≡ self.old }
    {
        let _ = (label[0], volume, first);
    }

    /// Reads block `block` (counted from 0) into `into`, which must be as long as the block.
    ///
    /// Returns `SourceFailed` if the read fails. The blocks are unchanged then, but `into` may have
    /// changed.
    fn read(&mut self, block: u32, into: &mut [u8]) -> Result<(), SourceFailed>
        requires { (blocks : List (List ℕ)) → holds self.old blocks → HasBlock blocks block (length into.old) }
        ensures same_blocks { (blocks : List (List ℕ)) → holds self.old blocks ↔ holds self.new blocks }
        ensures given { (blocks : List (List ℕ)) → holds self.old blocks → GivesBlock result blocks block into.new }
        ensures counted { failures self.new ≡ counted_after result (failures self.old) }
        ensures able { IsErr result → can_fail self.old }
        ensures quiet { can_fail self.new → can_fail self.old }
        ensures read { reads self.old block into.old result self.new into.new };

    /// Tells the source that the write of block `block`, which has these bytes, was sent, and that
    /// its reply is awaited now. A source may hash the block in this time. The default does nothing.
    fn sent(&mut self, block: u32, bytes: &[u8])
        requires { (blocks : List (List ℕ)) → holds self.old blocks → bytes.now ≡ get_or blocks block [] }
        // What contracts see of the source does not change.
        ensures { self.new ≡ self.old }
    {
        let _ = (block, bytes.len());
    }

    /// Returns the number of reads that have failed. It stays at the greatest `u64`.
    fn failures(&self) -> u64
        ensures { result ≡ failures self.now };

    /// A source has at most one list of blocks.
    ghost single: { (source : Self) (blocks others : List (List ℕ)) →
        holds source blocks → holds source others → blocks ≡ others };
}
