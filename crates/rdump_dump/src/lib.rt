//! The command `rdump dump` dumps a payload to a server, and uses the files that the dump needs.
//!
//! `run_dump` is the whole command. A `Start` has what is found out before the first attempt, and a
//! `StartFault` says why a dump cannot begin. Then `dump_to_end` of `rdump_net` dumps. An
//! `Attendant` observes it: it keeps the checkpoint, the catalog and the entry in dumpdates, prints
//! what happens, and answers the questions.
#![tactic(auto)]

mod asking;
mod attendant;
mod catalog_file;
mod dump_command;
mod run_limit;
mod setback;
mod shell_word;
mod start;
mod start_fault;
mod unattended;
mod unentered;
mod warnings;

pub use dump_command::run_dump;
