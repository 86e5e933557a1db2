//! Checks what a reel holds, and computes the SHA-256 of a volume's record file.
//!
//! `check_reel` reads a record file and returns its `ReelContents`: which volume of which dump, how
//! many blocks, and whether the volume is whole. `ReelTally`, a *tally*, takes entries from any
//! source, and describes them by a `Holding`. `EntryHasher` hashes entries, `Summed` the blocks
//! of a source that are sent, and `medium_sum` all bytes of a medium.
//!
//! # Contracts
//!
//! The *entries* of a reel are its records and marks. A check describes a volume as *whole* if one
//! mark, and nothing else, follows the blocks. A volume contains neither a checksum nor the number
//! of its blocks. So a check cannot find out whether the blocks are those that were dumped.
//!
//! A *record file* is the file in which the server keeps a reel's entries, in order. rdump(5)
//! describes its format. The *sum* of entries is the SHA-256 of the record file that has these
//! entries and nothing else. A hasher *holds* entries if the bytes that were added to it are their
//! record file. The sum of a *volume* is that of its label, one record for each block, and one
//! mark.
//!
//! `dump_run` explains *run*, *source* and *count*. A *counted* volume is one that has a count.
#![tactic(auto)]

mod check;
mod contents;
mod entry_hasher;
mod holding;
mod laws;
mod medium;
mod summed;
mod tally;
mod volume_hasher;

pub use check::check_reel;
pub use contents::ReelContents;
pub use entry_hasher::EntryHasher;
pub use holding::{Holding, Volume, VolumeEnd};
pub use laws::{dumped_volume, one_holding, one_volume};
pub use medium::medium_sum;
pub use summed::Summed;
pub use tally::ReelTally;
