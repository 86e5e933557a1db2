//! A source of blocks in memory.

ghost use Rattle.std.specs.Prelude.{◌≡◌, ℕ, ◌*◌, ◌<◌, IsTrue, IfOk, [], length, get_or, false};
ghost use Rattle.std.proofs.Common.{sym, ◌∙◌};
ghost use Rattle.dump_run.specs.Blocks.{HasBlock, AreBlocksOf, ListedRead, cut_blocks, listed};

use crate::{Blocks, SourceFailed};
use std::alloc::AllocError;
use std::marker::Model;

/// A payload in memory, as blocks of one size. Its reads can be made to fail. Its list of blocks is
/// always known.
#[derive(Drop)]
pub struct ListBlocks {
    payload: Vec<u8>,
    block_bytes: usize,
    blocks: u32,
    troubled: bool,
    failures: u64,
}

impl Model for ListBlocks {
    ghost use Rattle.std.specs.Prelude.{◌≡◌, ◌*◌, length};
    ghost use Rattle.dump_run.specs.Blocks.{ListedBlocks, listed, cut_blocks};

    ghost Value = { ListedBlocks };

    ghost view = { λ s. listed (cut_blocks s.blocks s.block_bytes s.payload.items) s.troubled s.failures };

    ghost invariant = { λ s. length s.payload.items ≡ s.blocks * s.block_bytes };
}

impl ListBlocks {
    /// Makes a source in memory from `payload`, cut into `blocks` blocks of `block_bytes` bytes
    /// each. The payload must have exactly `blocks * block_bytes` bytes. No read fails until
    /// `trouble` is called.
    #[tactic(auto, using(crate::proofs::Cut::length_cut, crate::proofs::Cut::size_cut))]
    pub fn new(payload: Vec<u8>, block_bytes: usize, blocks: u32) -> ListBlocks
        requires { length payload.items ≡ blocks * block_bytes }
        ensures listed { result ≡ listed (cut_blocks blocks block_bytes payload.items) false 0 }
        ensures blocks { length result.blocks ≡ blocks }
        ensures sizes { (n : ℕ) → n < blocks → length (get_or result.blocks n []) ≡ block_bytes }
    {
        ListBlocks {
            payload,
            block_bytes,
            blocks,
            troubled: false,
            failures: 0,
        }
    }

    /// Sets whether reads of the source fail, until the next call of `trouble`.
    pub fn trouble(&mut self, fails: bool)
        ensures { self.new ≡ listed self.old.blocks fails self.old.failures }
    {
        self.troubled = fails;
    }

    #[tactic(auto, using(crate::proofs::Cut::length_cut, crate::proofs::Cut::block_at, crate::proofs::Cut::block_within))]
    fn part(&self, block: u32) -> &[u8]
        requires { block < length self.now.blocks }
        ensures { result.now ≡ get_or self.now.blocks block [] }
    {
        let start = block as usize * self.block_bytes;
        &self.payload[start..start + self.block_bytes]
    }
}

impl Clone for ListBlocks {
    /// Returns a copy with the same payload, the same injected fault and the same number of
    /// failures. Fails only if an allocation fails.
    fn clone(&self) -> Result<ListBlocks, AllocError>
        ensures { IfOk result (λ b. b ≡ self.now) }
    {
        Ok(ListBlocks {
            payload: self.payload.clone()?,
            block_bytes: self.block_bytes,
            blocks: self.blocks,
            troubled: self.troubled,
            failures: self.failures,
        })
    }
}

impl Blocks for ListBlocks {
    ghost holds = { AreBlocksOf };

    ghost failures = { λ s. s.failures };

    ghost can_fail = { λ s. IsTrue s.troubled };

    ghost reads = { ListedRead };

    ghost single = { λ source blocks others told other. sym told ∙ other };

    fn read(&mut self, block: u32, into: &mut [u8]) -> Result<(), SourceFailed>
        requires { HasBlock self.old.blocks block (length into.old) }
        ensures read { ListedRead self.old block into.old result self.new into.new }
        ensures same_blocks { self.new.blocks ≡ self.old.blocks }
    {
        if self.troubled {
            self.failures = self.failures.saturating_add(1);
            return Err(SourceFailed);
        }
        into.copy_from_slice(self.part(block));
        Ok(())
    }

    fn failures(&self) -> u64 {
        self.failures
    }
}
