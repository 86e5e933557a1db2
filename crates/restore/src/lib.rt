//! Puts the payload of a dump together from the reels of its volumes.
//!
//! `restore` checks the reels of a `Shelf`, chooses the volumes of one dump, and writes the payload
//! to an output. If reels are missing, `restore_partial` writes what can be had, and returns each
//! `Gap`. The law `what_was_dumped_comes_back` ties what is restored to what was dumped.
//!
//! # Contracts
//!
//! A *shelf* has reels, numbered from 0. Each reel is a record file on a medium. A *whole volume*
//! is a reel that has a label, at most 2,147,483,647 blocks of one size, one mark, and nothing
//! else. Blocks are numbered from 0 over all volumes of a dump. A dump's volumes have the numbers
//! 1, 2, 3 and so on, and each label has the number of its volume's first block. The *payload* is
//! the blocks of all volumes, joined, and cut at its length: the last block can end with bytes that
//! do not belong to it.
//!
//! A *refusal* ends a restore before its first byte is written.
#![tactic(auto)]

mod chain;
mod equal;
mod fault;
mod fill;
mod found;
mod gap;
mod laws;
mod list_shelf;
mod partial;
mod parts;
mod restored;
mod shelf;
mod volume;
mod wanted;
mod write;

pub use fault::{Refusal, RestoreFault};
pub use gap::Gap;
pub use laws::what_was_dumped_comes_back;
pub use list_shelf::ListShelf;
pub use partial::restore_partial;
pub use restored::restore;
pub use shelf::{OpenFailed, Shelf};
pub use wanted::Wanted;
