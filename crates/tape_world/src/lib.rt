//! Runs a dump client and a tape server in memory, together with strangers, an operator, and the
//! events that happen to them.
//!
//! `World` has a client and a server, drives with reels in memory, and all connections that were
//! ever made, with the bytes in transit. `run` makes a list of events happen, each a variant of
//! `Event`, and returns which one could not. A world's functions return the outcome: counted
//! volumes, dumpdates, the entries on its reels, its client and its sessions.
//!
//! # Contracts
//!
//! The private type `WorldState` contains a server, a client, and the bytes in transit between
//! them. The server is a `Host` of the crate `world_host`, and the client is a `Client` of the
//! crate `dump_client`. `WorldState` has one method for each of the seventeen kinds of events, and
//! `run` calls one of them for each event. The contract of each method is the clause `IsEvent`,
//! which allows two outcomes. In the first, the event is possible, and the method changes the world
//! as the crate `world_model` defines. In the second, the world stays as it was, because the event
//! is not possible or because an allocation failed.
//!
//! The invariant of `WorldState` has three parts. First, the client reads the payload of its run
//! from a source that has no injected fault. Second, if a run is saved outside the client,
//! `WorldState` also contains the run's checkpoint text, with the saved list of counts. Third, each
//! reel has one of the names that were given at the start. Some methods also require `IsWorldKept`,
//! the invariant of the crate `world_model`. It is proved of the world before each call.
//!
//! The crate `world_model` explains *count*, *the count's own session*, *the client's list*,
//! *foreign* and *reopens*.
#![tactic(auto)]

mod caller;
mod connections;
mod counts;
mod drive_spec;
mod event;
mod fault;
mod history;
mod running;
mod stop;
mod world;
mod world_state;

pub use counts::{CountedVolume, Counts};
pub use drive_spec::{DriveSpec, good_drives};
pub use event::Event;
pub use fault::WorldFault;
pub use running::run;
pub use world::World;
