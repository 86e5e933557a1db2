//! The command `rdump cat` writes the payload of a dump to standard output, from its reels.
//!
//! `run_cat` is the whole command. It reads record files in place. The crate `restore` checks the
//! reels, chooses the volumes, and writes their blocks. `catalog_of` finds the one catalog with
//! lines of the dump, and `finished_line` finds the dump in it. `wanted_of` returns what is
//! restored of the dump; `parts_of` does so if parts may be missing. `status_of` and
//! `status_of_parts` return the exit status.
//!
//! # Contracts
//!
//! A *catalog* has lines: a dump began, a volume with this label and this SHA-256 of its record
//! file was counted, or a dump is finished. The lines of a dump are those with its name, its level
//! and both of its dates.
#![tactic(auto)]

mod cat_command;
mod cat_fault;
mod catalog_files;
mod dumps;
mod file_shelf;
mod knowing;
mod known_dump;
mod known_parts;
mod outcome;
mod watched;

pub use cat_command::run_cat;
pub use knowing::{KnownTwice, catalog_of};
pub use known_dump::{NotKnown, finished_line, wanted_of};
pub use known_parts::parts_of;
pub use outcome::{status_of, status_of_parts};
