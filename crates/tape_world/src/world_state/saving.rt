//! The run that is saved outside the client, as in a checkpoint file, and the client that resumes
//! it.
ghost use Rattle.std.specs.Prelude.{◌≡◌, ◌↔◌, ℕ, true, Some, IfOk};
ghost use Rattle.dump_run.specs.Checkpoint.{checkpoint_text};
ghost use Rattle.world_model.specs.Events.PlainEvent.{ClientRestart, Save};
ghost use Rattle.world_model.specs.Kept.{IsWorldKept};
ghost use Rattle.tape_world.specs.Calling.{over_own};
ghost use Rattle.tape_world.specs.Connections.{IsThere};
ghost use Rattle.tape_world.specs.Holding.{IsBacked, IsEvent};
ghost use Rattle.tape_world.specs.Saving.{ResumesRunWith, IsKeptOf, MayKeep, kept_then};

use super::WorldState;
use super::client::change_caller;
use super::entering::has_entered;
use crate::caller::{Begun, KeptRun, WorldClient};
use crate::connections::Connections;
use crate::history::History;
use crate::stop::EventStop;
use dump_client::{Answer, Client, State};
use dump_run::one_checkpoint;
use std::alloc::{AllocError, Global};

pub(super) fn change_kept(kept: &mut Option<KeptRun>, new: Option<KeptRun>)
    ensures { kept.new ≡ new }
{
    *kept = new;
}

/// Drops the saved run if the operator's answer abandons the run.
pub(super) fn drop_kept(kept: &mut Option<KeptRun>, answer: Answer)
    ensures { kept.new ≡ kept_then answer kept.old }
{
    if answer == Answer::Abandon {
        *kept = None;
    }
}

/// Returns what is saved of this client's run.
fn kept_of(alloc: Global, caller: &WorldClient) -> Result<KeptRun, AllocError>
    ensures { IfOk result (IsKeptOf caller.now) }
{
    let mut text = Vec::new(alloc);
    caller.client.checkpoint_text(&mut text)?;
    Ok(KeptRun {
        run: caller.number,
        counts: Vec::from_slice(alloc, caller.client.counted())?,
        text,
    })
}

/// Whether the run of this client can be saved: it is not abandoned, and not both finished and
/// entered.
fn may_keep(caller: &WorldClient, history: &History) -> bool
    ensures { (result ≡ true) ↔ MayKeep history.now.entered caller.now }
{
    match caller.client.state() {
        State::Abandoned => false,
        State::Finished => !has_entered(history, caller.number),
        _ => true,
    }
}

/// Makes the client that resumes the saved run, or `None` if none is saved.
fn resume_run(
    alloc: Global,
    kept: &Option<KeptRun>,
    begun: &[Begun],
) -> Result<Option<WorldClient>, AllocError>
    requires { IsBacked begun.now kept.now }
    ensures { IfOk result (ResumesRunWith begun.now kept.now) }
{
    let Some(kept) = kept else {
        return Ok(None);
    };
    let begun = &begun[kept.run - 1];
    let mut source = begun.payload.clone()?;
    source.trouble(false);
    one_checkpoint();
    match Client::resume(alloc, &kept.text, source) {
        Ok(client) => Ok(Some(WorldClient {
            number: kept.run,
            client,
        })),
        Err(_) => Err(AllocError),
    }
}

/// Removes the client from its own connection, if it has one.
fn end_own(connections: &mut Connections, own: Option<usize>)
    requires { (k : ℕ) → own ≡ Some k → IsThere connections.old.list k }
    ensures { connections.new.list ≡ over_own own connections.old.list }
{
    if let Some(own) = own {
        connections.end_there(own);
    }
}

impl WorldState {
    /// Saves the client's run and its counts outside the client, so that they outlive a restart.
    pub(crate) fn save(&mut self) -> Result<(), EventStop>
        requires { IsWorldKept self.old }
        ensures { IsEvent self.old Save result self.new }
    {
        let Some(caller) = &self.caller else {
            return Err(EventStop::NotPossible);
        };
        if !may_keep(caller, &self.history) {
            return Err(EventStop::NotPossible);
        }
        let kept = kept_of(self.alloc, caller)?;
        change_kept(&mut self.kept, Some(kept));
        self.failure = None;
        Ok(())
    }

    /// Restarts the client. If a run is saved, a new client resumes it with the saved counts, and
    /// otherwise there is no client. The old client leaves its own connection, if it has one.
    pub(crate) fn client_restart(&mut self) -> Result<(), EventStop>
        requires { IsWorldKept self.old }
        ensures { IsEvent self.old ClientRestart result self.new }
    {
        if self.caller.is_none() {
            return Err(EventStop::NotPossible);
        }
        let caller = resume_run(self.alloc, &self.kept, &self.begun)?;
        end_own(&mut self.connections, self.own);
        self.own = None;
        change_caller(&mut self.caller, caller);
        self.failure = None;
        Ok(())
    }
}
