//! The commands of `rdump`. Each is a function `run_..` that returns the exit status and prints
//! what failed.
//!
//! `rdump` is the whole program, and `run_arguments` does the same for given arguments.
//! `ClientSystem` is the part of the runtime that they use.
#![tactic(auto)]

mod dates_command;
mod mt_command;
mod program;

pub use dates_command::run_dates;
pub use mt_command::run_mt;
pub use program::{rdump, run_arguments};
pub use rdump_cat::run_cat;
pub use rdump_dump::run_dump;
pub use rdump_read::{run_fetch, run_read};
pub use rdump_system::ClientSystem;
