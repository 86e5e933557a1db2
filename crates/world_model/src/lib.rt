//! A model of everything that can happen between a dump client and a tape server: worlds, events,
//! and the effect of each event. The model is plain data.
//!
//! No function of this crate does anything at run time. It has definitions that the contracts of
//! other crates cite, and laws about them.
//!
//! # Contracts
//!
//! The crate has only laws. A *law* is a function that does nothing: its contract states proved
//! facts. docs/WORLD.md explains the terms of this section.
//!
//! A *world* is the state of a client, a server, and all connections to the server. In a *first
//! world* nothing has happened yet. A *stranger* is any other program that connects to the server.
//! In an *attempt*, the client works on one volume and uses one connection. The client *counts* a
//! volume when it receives the server's reply that the volume's reel is in the bin. A *count*
//! records the run, the connection, the reel, the volume number, the first block and the number of
//! blocks. The *history* of a world lists the accepted opens for writing, the writes, the counts,
//! and the runs that were entered in dumpdates.
//!
//! The *count's own session* is the session of the count's connection. The *client's list* is the
//! list of counted volumes that the client itself holds, all of its current run. A session is
//! *foreign* to a count in three cases:
//!
//! - It belongs to a stranger.
//! - It belongs to another run than the count.
//! - When it opened the count's reel, the client's list had no volume with this count's volume
//!   number and first block.
//!
//! A session *reopens* a count's reel if it is foreign to the count, and opens the reel for writing
//! after the count's own session did.
//!
//! The *entries* of a reel are its records and file marks. The *sum* of a list of entries is the
//! SHA-256 of the record file that has these entries and nothing else.
#![tactic(auto)]

mod laws;
mod order;

pub use laws::{kept, one_request, one_run};
pub use order::faultless;
