//! The contents of a dump to a remote tape (dump(8)).
//!
//! `Run` holds the parameters of a dump, and `DumpId` its identity. `label` returns the first
//! record of a volume, and `VolumeLabel::read` reads one. `Blocks` is the source of the blocks, and
//! `ListBlocks` is a source in memory. `push_checkpoint` writes a `Checkpoint` as a text, and
//! `Checkpoint::read` reads it.
//!
//! # Contracts
//!
//! A *run* is one dump of a file system. A *source* has the blocks that a run dumps: its type
//! implements `Blocks`. A *count* records a volume that was written whole: the volume's number, its
//! first block and its number of blocks. Counts are *in order* if their volumes have the numbers 1,
//! 2, 3 and so on, and each begins where the one before it ended. A *checkpoint* is a run with its
//! counts.
#![tactic(auto)]

mod blocks;
mod checkpoint;
mod count;
mod dump_id;
mod fault;
mod labels;
mod laws;
mod lines;
mod list;
mod row;
mod run;
mod volume_label;

pub use blocks::{Blocks, SourceFailed};
pub use checkpoint::{Checkpoint, push_checkpoint};
pub use count::VolumeCount;
pub use dump_id::DumpId;
pub use fault::{ResumeFault, RunFault};
pub use labels::{LABEL_BYTES, label};
pub use laws::{one_checkpoint, one_label};
pub use list::ListBlocks;
pub use run::{BLOCKS_LIMIT, Run};
pub use volume_label::VolumeLabel;
