//! Drives whose stacks are folders in the file system, and whose reels are the files in these
//! folders.
//!
//! # Contracts
//!
//! The contracts leave the contents of files and folders unspecified. The crate `drives` explains
//! stacks, latches and the bin. A `MovableFile` is a file that can be synced and moved. Its *steps*
//! are its syncs and moves, in order. They are *known* if the file's type specifies them. A *cut*
//! shortens a file to a given length. `FolderStacks` moves a reel to the bin by `take_offline`. If
//! a file's steps are known, the contract of `take_offline` says in which order it is synced and
//! moved.
#![tactic(auto)]

mod folder;
mod log;
mod syncs;
mod system;

pub use file_medium::FileMedium;
pub use folder::{FolderDrive, FolderFault, FolderStacks, RefusedOpens};
pub use log::{Log, NoLog};
pub use syncs::{MovableFile, Syncs, sync_at_close, take_offline};
pub use system::FolderSystem;
