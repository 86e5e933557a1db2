//! The functions that return the state of a world.
ghost use Rattle.std.specs.Prelude.{◌≡◌, Option, Some, map, IfSome};
ghost use Rattle.std.specs.Option.{option_copied, option_map};
ghost use Rattle.drives.specs.ListLibrary.{rest_slot};
ghost use Rattle.rmt_server.specs.Memory.{session_seen};
ghost use Rattle.world_model.specs.Changes.{side_of};
ghost use Rattle.tape_world.specs.Telling.{client_told, caller_told, IsStackOf, IsOnWay, IsPayloadOf};

use super::World;
use crate::counts::Counts;
use drives::{ListStacks, ListedReel, LocalHolds};
use dump_client::{AttemptFault, Client, ListBlocks};
use dumpdates::Dates;
use rmt_server::Session;

impl World {
    /// Returns all counted volumes, in the order in which they were counted.
    pub fn counts(&self) -> Counts<'_>
        ensures { result ≡ self.now.counts }
    {
        let history = &self.world_state.history;
        Counts {
            names: &history.names,
            counts: &history.counts,
        }
    }

    /// Returns the entries of dumpdates.
    pub fn dates(&self) -> &Dates
        // The types allow no other body, so no wrong body is tried.
        ensures { result.now ≡ self.now.dates }
    {
        &self.world_state.dates
    }

    /// Returns the volume and the cause, if the last event made an attempt fail.
    pub fn failure(&self) -> Option<(u32, AttemptFault)>
        ensures { result ≡ self.now.failure }
    {
        self.world_state.failure
    }

    /// Returns the connection number of the client's attempt, if an attempt is under way.
    pub fn own(&self) -> Option<usize>
        ensures { result ≡ self.now.own }
    {
        self.world_state.own
    }

    /// Returns the client, if there is one. Its source has the payload of its run.
    pub fn client(&self) -> Option<&Client<ListBlocks>>
        ensures told { option_map client_told (option_copied result) ≡ option_map caller_told self.now.caller }
        ensures payload { IfSome (option_copied result) (λ client. IsPayloadOf self.now client.source) }
    {
        self.kept();
        let caller = self.world_state.caller.as_ref()?;
        Some(&caller.client)
    }

    /// Returns the session of the given connection, if the server's side of the connection is live.
    /// The number of its seat is that of the connection.
    #[tactic(auto, using(crate::proofs::Server::side_found))]
    pub fn session(&self, connection: usize) -> Option<&Session<LocalHolds, ListStacks>>
        ensures seen { option_map (λ s. session_seen s.opened) (option_copied result)
            ≡ option_map (λ s. s.session) (side_of self.now.server connection) }
        ensures number { IfSome (option_copied result) (λ s. s.seat.number ≡ connection) }
    {
        self.world_state.host.session(connection)
    }

    /// Returns how many bytes in transit on a connection the server can receive now, and how many
    /// the peer (the client or a stranger) can. The server's reader can have room for fewer than
    /// are in transit. Returns `None` if there is no such connection.
    pub fn on_way(&self, connection: usize) -> Option<(usize, usize)>
        ensures { IsOnWay self.now connection result }
    {
        self.kept();
        let conn = self.world_state.connections.find(connection)?;
        let room = self.world_state.host.room(connection).unwrap_or(0);
        let toward = conn.toward.bytes().len().min(room);
        if !conn.other {
            return Some((toward, 0));
        }
        Some((toward, conn.back.bytes().len()))
    }

    /// Returns the reels on the stack of the first drive with the given name, in order. The first
    /// is latched, or is the next to be. Returns none if there is no such drive.
    pub fn stack(&self, drive: &[u8]) -> Option<&[ListedReel]>
        ensures { IsStackOf drive.now self.now.server.library (option_map (map rest_slot) (option_copied result)) }
    {
        let drive = self.world_state.host.drive(drive)?;
        Some(self.world_state.host.stack(drive))
    }

    /// Returns the reels of the bin, in the order in which they were moved there.
    pub fn bin(&self) -> &[ListedReel]
        ensures { map rest_slot result.now ≡ self.now.server.library.bin }
    {
        self.world_state.host.bin()
    }
}
