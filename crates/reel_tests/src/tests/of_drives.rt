//! Holds, stacks and their table, one call after another.

mod faults;
mod folder_log;
mod folders;
mod reels;
mod renames;
mod rounds;
mod seats;
mod tables;
