//! A range of missing blocks.

/// A range of blocks that no reel has. Blocks are numbered from 0 over all volumes of a dump.
#[derive(Clone, Copy, Debug, PartialEq, Eq)]
pub struct Gap {
    /// The number of the first missing block.
    pub first: u64,
    /// The number of the block after the last missing one.
    pub end: u64,
}
