//! Connections over TCP and Unix sockets, and listeners for them.
//!
//! An address is a host and a port, as in `localhost:4711` or `[::1]:4711`, or `unix:` and an
//! absolute path, as in `unix:/run/rmtd/socket`.
//!
//! # Contracts
//!
//! No contract describes the contents of a socket, beyond what `Read` and `Write` promise.
#![tactic(auto)]

mod address;
mod listener;
mod stream;

pub use address::{PATH_LIMIT, is_address, one_kind, path_of};
pub use listener::{Caller, Listener};
pub use stream::{Stream, connect};
