//! An example to copy: a dump client that writes a run's volumes to a `Server` in memory. `dump` is
//! the loop around a `dump_client::Client`, which counts the volumes.
#![tactic(auto)]

mod server;
mod volumes;

pub use server::Server;
pub use volumes::{Stopped, dump};
