//! The commands that read reels: `rdump read` and `rdump fetch`.
//!
//! `run_read` reads the first volume of a drive back into a file. `run_fetch` copies the reels of a
//! stack into record files of a folder, each by `rdump_fetch::fetch_reel`. The server moves each
//! reel to the bin once its copy is kept.
#![tactic(auto)]

mod copy_line;
mod fault;
mod fetch_command;
mod folder_copy;
mod front;
mod named;
mod out_file;
mod part;
mod progress;
mod read_command;
mod read_sink;

pub use fetch_command::run_fetch;
pub use read_command::run_read;
