//! Tests of the commands of `rdump`, and of what `rmt_tools` adds to the crates of the programs, by
//! public calls alone. They are a crate of their own so that each of these crates is proved only
//! once:
//! - the commands of `rdump`: `rdump_commands`, and below it `rdump_read` and `rdump_dump`.
//! - a peer in memory, and calls with an exit status: `rmt_tools`.
//!
//! The tests of the parts of a dump, each without the commands, are in `client_tests`.
#![tactic(auto)]

#[cfg(test)]
mod tests;
