//! The line of a counted volume.

ghost use Rattle.std.specs.Prelude.{◌≡◌, ◌≤◌, ◌↔◌, IfSome, IsSome, IsTrue};
ghost use Rattle.dump_run.specs.Run.{blocks_limit};
ghost use Rattle.catalog.specs.SumLine.{IsSumLine, IsSizeOf, plain_sum_line, file_bytes};

use dump_run::{BLOCKS_LIMIT, VolumeLabel};
use rmt_wire::RECORD_LIMIT;
use std::marker::Model;

/// The bytes of a record file beside its blocks: the label, its two lengths, and a mark.
const FRAME_BYTES: u64 = 1024 + 8 + 4;

/// The bytes of the two lengths of a block.
const LENGTHS: u64 = 8;

/// The SHA-256 of a volume's record file, the volume's label, and the number and size of its
/// blocks. It allocates nothing.
#[derive(Drop)]
pub struct SumLine {
    sum: [u8; 32],
    label: VolumeLabel,
    blocks: u32,
    block_bytes: u32,
}

impl Model for SumLine {
    ghost use Rattle.catalog.specs.SumLine.{PlainSumLine, IsSumLine, plain_sum_line};

    ghost Value = { PlainSumLine };

    ghost view = { λ l. plain_sum_line l.sum l.label l.blocks l.block_bytes };

    ghost invariant = { λ l. IsSumLine (plain_sum_line l.sum l.label l.blocks l.block_bytes) };
}

impl SumLine {
    /// Makes a line with the given values. Returns None if a number breaks its limit.
    ///
    /// There are at most `BLOCKS_LIMIT` blocks, each of 1 to `RECORD_LIMIT` bytes. If there are
    /// none, their size is 0.
    pub fn new(sum: [u8; 32], label: VolumeLabel, blocks: u32, block_bytes: u32) -> Option<SumLine>
        ensures made { IfSome result (λ l. l ≡ plain_sum_line sum label blocks block_bytes) }
        ensures limits { IsSome result ↔ IsSumLine (plain_sum_line sum label blocks block_bytes) }
    {
        if blocks > BLOCKS_LIMIT || !is_size_of(blocks, block_bytes) {
            return None;
        }
        Some(SumLine {
            sum,
            label,
            blocks,
            block_bytes,
        })
    }

    /// Returns the SHA-256 of the volume's record file.
    pub fn sum(&self) -> &[u8; 32]
        ensures { result.now ≡ self.now.sum }
    {
        &self.sum
    }

    /// Returns the label of the volume.
    pub fn label(&self) -> &VolumeLabel
        // The types allow no other body, so no wrong body is tried.
        ensures { result.now ≡ self.now.label }
    {
        &self.label
    }

    /// Returns the number of blocks of the volume, at most `BLOCKS_LIMIT`.
    pub fn blocks(&self) -> u32
        ensures told { result ≡ self.now.blocks }
        ensures limit { self.now.blocks ≤ blocks_limit }
    {
        self.blocks
    }

    /// Returns the size of a block in bytes: 1 to `RECORD_LIMIT`, or 0 if there are no blocks.
    pub fn block_bytes(&self) -> u32
        ensures told { result ≡ self.now.block_bytes }
        ensures limits { IsSizeOf self.now.blocks self.now.block_bytes }
    {
        self.block_bytes
    }

    /// Returns the size of the volume's record file in bytes.
    pub fn bytes(&self) -> u64
        ensures { result ≡ file_bytes self.now.blocks self.now.block_bytes }
    {
        FRAME_BYTES + u64::from(self.blocks) * (u64::from(self.block_bytes) + LENGTHS)
    }

    pub(crate) fn is_of(&self, label: &VolumeLabel) -> bool
        ensures { IsTrue result ↔ (self.now.label ≡ label.now) }
    {
        let own = &self.label;
        own.is_same_dump(label) && own.volume() == label.volume() && own.first() == label.first()
    }

    pub(crate) fn has(&self, label: &VolumeLabel, sum: &[u8; 32]) -> bool
        ensures { IsTrue result ↔ ((self.now.label ≡ label.now) × (self.now.sum ≡ sum.now)) }
    {
        self.is_of(label) && self.sum == *sum
    }

    pub(crate) fn is_same(&self, other: &SumLine) -> bool
        ensures { IsTrue result ↔ (self.now ≡ other.now) }
    {
        self.has(&other.label, &other.sum)
            && self.blocks == other.blocks
            && self.block_bytes == other.block_bytes
    }
}

fn is_size_of(blocks: u32, block_bytes: u32) -> bool
    ensures { IsTrue result ↔ IsSizeOf blocks block_bytes }
{
    if blocks == 0 {
        return block_bytes == 0;
    }
    block_bytes > 0 && block_bytes as usize <= RECORD_LIMIT
}
