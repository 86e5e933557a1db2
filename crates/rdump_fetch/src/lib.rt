//! Copies a reel of a remote tape into a record file, and only then moves the reel to the bin.
//!
//! `fetch_reel` copies one reel: a `FetchSink` receives it and writes a `CopyFile`.
//!
//! # Contracts
//!
//! The *entries* of a reel are its records and marks. A *record file* contains them in order, as
//! rdump(5) describes.
//!
//! A *copy* is a record file with the records of a reel up to the first mark, and one mark. It
//! belongs to the label that the reel begins with, and its name follows from this label. While it
//! is made, its file has another name. A copy is *synced* if its bytes are on the disk, *placed* if
//! they are also in a file that has the copy's name, and *kept* if this name is on the disk too.
//!
//! A *sink* receives a volume that is read from a reel (see `rdump_net`). A `ComparedSink` passes
//! it on to an *inner* sink. A *verdict* is the result of comparing the volume's sum, the SHA-256
//! of its record file, with the lines that have its label (see `catalog`).
#![tactic(auto)]

mod compared_sink;
mod copy_file;
mod copy_name;
mod fault;
mod fetch;
mod laws;
mod memory_copy;
mod sink;

pub use compared_sink::ComparedSink;
pub use copy_file::CopyFile;
pub use copy_name::push_copy_name;
pub use fault::FetchFault;
pub use fetch::fetch_reel;
pub use laws::compared_volume;
pub use memory_copy::{CopyStage, MemoryCopy};
pub use sink::{CopiedVolume, FetchSink};
