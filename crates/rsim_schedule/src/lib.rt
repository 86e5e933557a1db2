//! Runs schedules: texts that list, line by line, what happens to a dump client and a tape server.
//!
//! `schedule` runs one in a world of its own and prints a report. `rsim` is the whole program, from
//! its arguments to its exit status.
//!
//! # Contracts
//!
//! A *schedule* is a text with one command in each line. A schedule runs in a *world*: a dump
//! client and a tape server in memory, and *strangers*, which are other programs that connect to
//! the server. Most commands cause one event in the world. No clause says which event a command
//! causes, or at which line a schedule ends early. Tests check both.
#![tactic(auto)]

mod arguments;
mod byte_count;
mod cut;
mod drive_line;
mod halt;
mod hex_text;
mod line;
mod line_fields;
mod lines;
mod making;
mod names;
mod player;
mod printing;
mod program;
mod report;
mod running;
mod setup;

pub use program::rsim;
pub use running::schedule;
