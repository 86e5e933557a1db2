//! The event in which the client sends a request to the server.
ghost use Rattle.std.specs.Prelude.{◌≡◌, ◌≤◌, List, ℕ, [], IfOk, OnErr, length, map};
ghost use Rattle.std.specs.Vec.{vec_capacity};
ghost use Rattle.rmt_wire.specs.declared.limits.TheConstants.{READER_LIMIT};
ghost use Rattle.world_model.specs.Changes.{changed};
ghost use Rattle.world_model.specs.Events.PlainEvent.{Send};
ghost use Rattle.world_model.specs.Kept.{IsWorldKept};
ghost use Rattle.tape_world.specs.Connections.{IsThere};
ghost use Rattle.tape_world.specs.Holding.{IsEvent};
ghost use Rattle.world_host.specs.Connection.{plain_connection};
ghost use Rattle.tape_world.specs.Talking.{Asks, IsToSend, talked};

use super::WorldState;
use crate::caller::WorldClient;
use crate::connections::Connections;
use crate::stop::EventStop;
use dump_client::{AttemptFault, State};
use rmt_wire::READER_LIMIT;
use std::alloc::{AllocError, Global};
use world_host::Connection;

/// Writes the next request of the client to `out`. Returns the volume and the cause if that makes
/// the attempt fail.
fn ask(
    caller: &mut Option<WorldClient>,
    fails: bool,
    out: &mut Vec<u8>,
) -> Option<(u32, AttemptFault)>
    requires sends { IsToSend caller.old }
    requires empty { out.old.items ≡ [] }
    requires room { READER_LIMIT ≤ vec_capacity out.old }
    ensures { Asks caller.old fails out.new.items result caller.new }
{
    let Some(caller) = caller else {
        return None;
    };
    let state = caller.client.state();
    prove!(matches!(state, State::ToSend));
    let (volume, _) = caller.client.checkpoint();
    caller.client.source_trouble(fails);
    let asked = caller.client.next_request(out);
    caller.client.source_trouble(false);
    match asked {
        Ok(_) => None,
        Err(fault) => Some((volume, fault)),
    }
}

/// Sends the next request of the client on this connection. If the attempt fails instead, returns
/// the volume and the cause, and the client leaves the connection.
fn send_on(
    alloc: Global,
    conn: &mut Connection,
    caller: &mut Option<WorldClient>,
    fails: bool,
) -> Result<Option<(u32, AttemptFault)>, AllocError>
    requires { IsToSend caller.old }
    ensures sent { IfOk result (λ failure. (text : List ℕ) × Asks caller.old fails text failure caller.new
        × (plain_connection conn.new ≡ talked text failure (plain_connection conn.old))) }
    ensures refused { OnErr result ((plain_connection conn.new ≡ plain_connection conn.old) × (caller.new ≡ caller.old)) }
{
    let mut request = Vec::with_capacity(alloc, READER_LIMIT)?;
    conn.reserve_request()?;
    let failure = ask(caller, fails, &mut request);
    if failure.is_some() {
        conn.end_there();
    } else {
        conn.send_request(&request);
    }
    Ok(failure)
}

/// Like `send_on`, for connection `own`, which must exist.
#[tactic(auto, using(crate::proofs::Numbered::put_there, crate::proofs::Numbered::put_back))]
fn send_own(
    alloc: Global,
    connections: &mut Connections,
    own: usize,
    caller: &mut Option<WorldClient>,
    fails: bool,
) -> Result<Option<(u32, AttemptFault)>, AllocError>
    requires there { IsThere connections.old.list own }
    requires sends { IsToSend caller.old }
    ensures sent { IfOk result (λ failure. (text : List ℕ) × Asks caller.old fails text failure caller.new
        × (connections.new.list ≡ changed (talked text failure) connections.old.list own)) }
    ensures refused { OnErr result ((connections.new.list ≡ connections.old.list) × (caller.new ≡ caller.old)) }
{
    send_on(alloc, &mut connections.items[own - 1], caller, fails)
}

impl WorldState {
    /// Sends the client's next request. If `fails` is true, and the request is the write of a
    /// block, the read of that block fails instead, and so does the attempt.
    pub(crate) fn send(&mut self, fails: bool) -> Result<(), EventStop>
        requires { IsWorldKept self.old }
        ensures { IsEvent self.old (Send fails) result self.new }
    {
        if !self.is_client_in(State::ToSend) {
            return Err(EventStop::NotPossible);
        }
        let Some(own) = self.own else {
            return Err(EventStop::NotPossible);
        };
        let failure = send_own(
            self.alloc,
            &mut self.connections,
            own,
            &mut self.caller,
            fails,
        )?;
        if failure.is_some() {
            self.own = None;
        }
        self.failure = failure;
        Ok(())
    }
}
