//! A whole volume that was found.
ghost use Rattle.std.specs.Prelude.{◌≤◌};
ghost use Rattle.dump_run.specs.declared.run.TheConstants.{BLOCKS_LIMIT};
ghost use Rattle.rmt_wire.specs.declared.limits.TheConstants.{RECORD_LIMIT};

use dump_run::{BLOCKS_LIMIT, VolumeLabel};
use rmt_wire::RECORD_LIMIT;

/// A whole volume on a reel of a shelf.
#[derive(Drop)]
pub(crate) struct FoundVolume {
    /// The number of the reel.
    pub(crate) reel: usize,
    pub(crate) label: VolumeLabel,
    /// How many blocks it has.
    pub(crate) blocks: u64,
    /// How many bytes each block has, 0 if there is no block.
    pub(crate) block_bytes: usize,
    ghost few: { blocks ≤ BLOCKS_LIMIT },
    ghost small: { block_bytes ≤ RECORD_LIMIT },
}
