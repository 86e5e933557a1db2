//! Tests of the parts of the programs, each by itself and by its public calls alone. They are a
//! crate of their own so that each of these crates is proved only once:
//! - the arguments: `rmtd_args`, `rdump_args`.
//! - the exit statuses: `console`.
//! - text from outside, as it is printed: `console`.
//! - what errors of a server mean: `refusals`.
//! - served streams and connections, and the server's log: `rmtd_serve`.
//! - restored files, the progress of a dump: `dump_files`.
//! - a connection over a socket: `rdump_net`.
#![tactic(auto)]

#[cfg(test)]
mod tests;
