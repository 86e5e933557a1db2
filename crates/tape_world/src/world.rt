//! A world: a server with its drives, all connections, and a client.

mod reels;
mod sums;
mod telling;

ghost use Rattle.std.specs.Prelude.{◌≡◌, IfOk, map};
ghost use Rattle.world_model.specs.First.{AreGoodDrives, first_world, IsReached};
ghost use Rattle.world_model.specs.Headline.{Headline, CountedReels, NoTwoHolders, DumpdatesGained};
ghost use Rattle.world_model.specs.Sums.{CountedSums};
ghost use Rattle.world_model.specs.Restores.{DumpsComeBack};
ghost use Rattle.world_model.specs.Further.{SentRequests, ReelsNotReopened, OwnOpens, LatchedReels, LabelledReels, ClientsCounts};
ghost use Rattle.world_model.specs.Standing.{AreHeld};
ghost use Rattle.world_model.specs.Kept.{IsWorldKept};
ghost use Rattle.tape_world.specs.Holding.{IsEvent};
ghost use Rattle.tape_world.specs.Making.{plain_drive_spec};
ghost use Rattle.tape_world.specs.Running.{plain_event};
ghost use Rattle.tape_world.specs.Volumes.{TellsVolumes};

use crate::drive_spec::DriveSpec;
use crate::event::Event;
use crate::stop::EventStop;
use crate::world_state::WorldState;
use std::alloc::{AllocError, Global};
use std::marker::Model;
use world_model::kept;

/// A server with its drives, all connections that were ever made, and a client.
///
/// Contracts see all of it as plain data. Events led to each `World` from a new world of good
/// drives, so each law about such worlds holds of it.
#[derive(Drop)]
pub struct World {
    world_state: WorldState,
}

impl Model for World {
    ghost use Rattle.world_model.specs.World.{World};
    ghost use Rattle.world_model.specs.First.{IsReached};

    ghost Value = { World };

    ghost view = { λ w. w.world_state };

    ghost invariant = { λ w. IsReached w.world_state };
}

impl World {
    /// Makes a world with the given drives and blank reels, no connection and no client.
    /// `good_drives` must be true of the drives.
    ///
    /// Fails only if an allocation fails.
    pub fn new(alloc: Global, drives: &[DriveSpec<'_>]) -> Result<World, AllocError>
        requires { AreGoodDrives (map plain_drive_spec drives.now) }
        ensures { IfOk result (λ w. w ≡ first_world (map plain_drive_spec drives.now)) }
    {
        let world_state = WorldState::new(alloc, drives)?;
        Ok(World { world_state })
    }

    /// States what is true in each world, whatever events happened in it. The *headline* has three
    /// statements:
    ///
    /// - `counted_reels`: If no foreign session reopened a counted reel, it holds exactly its
    ///   volume: the label, one record for each block, and one mark. `entry` returns just these
    ///   (`volumes_told`).
    /// - `no_two_holders`: No two sessions have the same drive open.
    /// - `dumpdates_gained`: Dumpdates has only dumps whose counted volumes have all their blocks,
    ///   in order.
    ///
    /// What was dumped comes back (`dumps_come_back`). Let a shelf have, for each volume of a dump
    /// in dumpdates, a counted reel that no foreign session reopened. Let this dump be wanted, with
    /// at most the length of its blocks. Let the catalog, if one is given, have the sums of these
    /// volumes. Then `restore` restores nothing but the beginning of its blocks that has the wanted
    /// length.
    ///
    /// The law `kept` of the crate `world_model` explains these clauses and the others. They all
    /// follow from `reached`: some list of events led to this world from a new world of good
    /// drives.
    ///
    /// Does nothing: its contract is what holds of the world.
    pub fn kept(&self)
        ensures headline { Headline self.now }
        ensures reached { IsReached self.now }
        ensures kept { IsWorldKept self.now }
        ensures holders { AreHeld self.now.server }
        ensures no_two_holders { NoTwoHolders self.now }
        ensures counted_reels { CountedReels self.now }
        ensures counted_sums { CountedSums self.now }
        ensures volumes_told { TellsVolumes self.now }
        ensures dumpdates_gained { DumpdatesGained self.now }
        ensures dumps_come_back { DumpsComeBack self.now }
        ensures sent_requests { SentRequests self.now }
        ensures reels_not_reopened { ReelsNotReopened self.now }
        ensures own_opens { OwnOpens self.now }
        ensures latched_reels { LatchedReels self.now }
        ensures labelled_reels { LabelledReels self.now }
        ensures clients_counts { ClientsCounts self.now }
    {
        let _ = &self.world_state;
        kept();
    }

    /// Makes one event happen. If it fails, nothing has changed.
    #[tactic(auto, using(crate::proofs::RunningOn::reached_on))]
    pub(crate) fn make(&mut self, event: &Event<'_>) -> Result<(), EventStop>
        ensures { IsEvent self.old (plain_event event.now) result self.new }
    {
        self.kept();
        self.world_state.make(event)
    }
}
