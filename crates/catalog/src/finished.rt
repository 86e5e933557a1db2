//! The line of a finished dump.

ghost use Rattle.std.specs.Prelude.{◌≡◌, ◌≤◌, ◌↔◌, IfSome, IsSome, IsTrue};
ghost use Rattle.std.specs.Int.{IsInRange};
ghost use Rattle.dump_run.specs.Run.{IsBlockSize, blocks_limit};
ghost use Rattle.catalog.specs.DumpLines.{IsFinished, plain_finished};

use dump_run::{BLOCKS_LIMIT, DumpId};
use rmt_wire::RECORD_LIMIT;
use std::marker::Model;

/// A finished dump: the number of its volumes and blocks, the size of a block, and the length of
/// its payload. It allocates nothing.
#[derive(Drop)]
pub struct FinishedLine {
    id: DumpId,
    volumes: u32,
    blocks: u32,
    block_bytes: u32,
    bytes: u64,
}

impl Model for FinishedLine {
    ghost use Rattle.catalog.specs.DumpLines.{PlainFinished, IsFinished, plain_finished};

    ghost Value = { PlainFinished };

    ghost view = { λ f. plain_finished f.id f.volumes f.blocks f.block_bytes f.bytes };

    ghost invariant = { λ f. IsFinished (plain_finished f.id f.volumes f.blocks f.block_bytes f.bytes) };
}

impl FinishedLine {
    /// Makes the line of a finished dump with the given values. Returns None if a number breaks its
    /// limit.
    ///
    /// There are 1 to `BLOCKS_LIMIT` volumes, and at most `BLOCKS_LIMIT` blocks. A block has 1 to
    /// `RECORD_LIMIT` bytes.
    pub fn new(
        id: DumpId,
        volumes: u32,
        blocks: u32,
        block_bytes: u32,
        bytes: u64,
    ) -> Option<FinishedLine>
        ensures made { IfSome result (λ f. f ≡ plain_finished id volumes blocks block_bytes bytes) }
        ensures limits { IsSome result ↔ IsFinished (plain_finished id volumes blocks block_bytes bytes) }
    {
        if volumes == 0 || volumes > BLOCKS_LIMIT || blocks > BLOCKS_LIMIT {
            return None;
        }
        if block_bytes == 0 || block_bytes as usize > RECORD_LIMIT {
            return None;
        }
        Some(FinishedLine {
            id,
            volumes,
            blocks,
            block_bytes,
            bytes,
        })
    }

    /// Returns the dump.
    pub fn id(&self) -> &DumpId
        // The types allow no other body, so no wrong body is tried.
        ensures { result.now ≡ self.now.id }
    {
        &self.id
    }

    /// Returns the number of volumes: 1 to `BLOCKS_LIMIT`.
    pub fn volumes(&self) -> u32
        ensures told { result ≡ self.now.volumes }
        ensures limits { IsInRange 1 blocks_limit self.now.volumes }
    {
        self.volumes
    }

    /// Returns the number of blocks: at most `BLOCKS_LIMIT`.
    pub fn blocks(&self) -> u32
        ensures told { result ≡ self.now.blocks }
        ensures limit { self.now.blocks ≤ blocks_limit }
    {
        self.blocks
    }

    /// Returns the size of a block in bytes: 1 to `RECORD_LIMIT`.
    pub fn block_bytes(&self) -> u32
        ensures told { result ≡ self.now.block_bytes }
        ensures limits { IsBlockSize self.now.block_bytes }
    {
        self.block_bytes
    }

    /// Returns the length of the payload in bytes.
    pub fn bytes(&self) -> u64
        ensures { result ≡ self.now.bytes }
    {
        self.bytes
    }

    /// Returns whether two lines have the same values.
    pub fn is_same(&self, other: &FinishedLine) -> bool
        ensures { IsTrue result ↔ (self.now ≡ other.now) }
    {
        self.id.is_same(&other.id)
            && self.volumes == other.volumes
            && self.blocks == other.blocks
            && self.block_bytes == other.block_bytes
            && self.bytes == other.bytes
    }
}
