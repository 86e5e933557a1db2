//! Reels of tape: the records and marks on a reel, and what each call does to them.
//!
//! `Reel` is the trait of all reels. `ListReel` is a reel in memory. `TroubledReel` is one whose
//! next device call can be made to fail. `FileReel` is a reel on a `Medium`.
//!
//! `FuseMedium` is a medium that fails at a chosen call. `write_and_reopen` and `mark_and_reopen`
//! show what remains of a write that stopped there.
//!
//! # Contracts
//!
//! A tape is a list of entries, with a *place* where the next call acts. An entry is a record of 1
//! to 262,144 bytes, or a mark. A *step* of a tape is one call's answer and the change that it
//! makes to the tape. A reel stores one tape, and has a capacity in bytes. A *medium* is a store of
//! bytes that can be read, appended to, and cut at the end. Its *room* is how many more bytes fit.
//! A *record file* is bytes that encode a reel's entries in order. A reel's *device* is the part
//! that can fail, such as the medium. A *trouble* is an injected fault: the next call that reaches
//! the device fails. rmtd(8) describes reels, and rdump(5) record files.
#![tactic(auto)]

mod entry;
mod fault;
mod file_reel;
mod fuse_medium;
mod laws;
mod list;
mod medium;
mod memory_medium;
mod record;
mod reel;
mod scan;
mod stops;
mod trouble;
mod troubled;

pub use entry::{Entry, LENGTH_BYTES};
pub use fault::TapeFault;
pub use file_reel::{FileReel, entry_size, next_length};
pub use fuse_medium::FuseMedium;
pub use laws::{OLDER_RECORD_LIMIT, device_steps, greater_limit, older_reels, one_spelling};
pub use list::ListReel;
pub use medium::{Medium, MediumFailed};
pub use memory_medium::MemoryMedium;
pub use record::is_record;
pub use reel::Reel;
pub use scan::read_entries;
pub use stops::{mark_and_reopen, reopened, write_and_reopen};
pub use trouble::Trouble;
pub use troubled::TroubledReel;
