//! The state of a world, which events change.

mod client;
mod connection;
mod entering;
mod event;
mod hearing;
mod making;
mod operator;
mod saving;
mod server;
mod serving;
mod talk;

use crate::caller::{Begun, KeptRun, WorldClient};
use crate::connections::Connections;
use crate::history::History;
use dump_client::AttemptFault;
use dumpdates::Dates;
use std::alloc::Global;
use std::marker::Model;
use world_host::Host;

/// A server with its drives, all connections that were ever made, and a client: the state that
/// events change.
#[derive(Drop)]
pub(crate) struct WorldState {
    alloc: Global,
    pub(crate) host: Host,
    pub(crate) connections: Connections,
    begun: Vec<Begun>,
    pub(crate) caller: Option<WorldClient>,
    pub(crate) own: Option<usize>,
    kept: Option<KeptRun>,
    pub(crate) history: History,
    /// The volume and the cause, if the last event made an attempt fail.
    pub(crate) failure: Option<(u32, AttemptFault)>,
    pub(crate) dates: Dates,
}

impl Model for WorldState {
    ghost use Rattle.world_model.specs.World.{World};
    ghost use Rattle.tape_world.specs.Seen.{world_of};
    ghost use Rattle.tape_world.specs.Holding.{IsBacked, IsSourced};
    ghost use Rattle.tape_world.specs.Serving.{IsLibraryKnown};

    ghost Value = { World };

    ghost view = { λ w. world_of w.host.server w.connections.list w.begun.items w.caller w.own w.kept w.history w.failure w.dates };

    ghost invariant = { λ w. (IsSourced w.begun.items w.caller × IsBacked w.begun.items w.kept) × IsLibraryKnown w.history.names w.host.server.library };
}
