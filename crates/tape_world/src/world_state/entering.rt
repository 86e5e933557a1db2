//! The event that enters the finished run in dumpdates.
ghost use Rattle.std.specs.Prelude.{◌≡◌, ◌==◌, ◌↔◌, true, IfOk};
ghost use Rattle.std.specs.List.{list_any};
ghost use Rattle.world_model.specs.Events.PlainEvent.{Enter};
ghost use Rattle.tape_world.specs.Holding.{IsEvent};
ghost use Rattle.tape_world.specs.Seen.{seen_entered};
ghost use Rattle.tape_world.specs.Saving.{IsEnteredIn};

use super::WorldState;
use super::saving::change_kept;
use crate::caller::WorldClient;
use crate::history::{Entered, History};
use crate::stop::EventStop;
use std::alloc::{AllocError, Global};

fn has_run(entered: &[Entered], run: usize) -> bool
    ensures { result ≡ list_any (λ e. e.run == run) entered.now }
{
    entered.iter().any(|e| e.run == run)
}

/// Whether the run with this number was entered.
pub(super) fn has_entered(history: &History, run: usize) -> bool
    ensures { (result ≡ true) ↔ IsEnteredIn history.now.entered run }
{
    has_run(&history.entered, run)
}

/// Returns the run of this client, with its counts.
fn entered_of(alloc: Global, caller: &WorldClient) -> Result<Entered, AllocError>
    ensures { IfOk result (λ e. seen_entered e ≡ record { run = caller.now.number; listed = caller.now.client.at.counts }) }
{
    Ok(Entered {
        run: caller.number,
        counts: Vec::from_slice(alloc, caller.client.counted())?,
    })
}

impl WorldState {
    /// Enters the client's run in dumpdates, and drops the saved run.
    pub(crate) fn enter(&mut self) -> Result<(), EventStop>
        ensures { IsEvent self.old Enter result self.new }
    {
        let Some(caller) = &self.caller else {
            return Err(EventStop::NotPossible);
        };
        let Some(entry) = caller.client.finished() else {
            return Err(EventStop::NotPossible);
        };
        if has_entered(&self.history, caller.number) {
            return Err(EventStop::NotPossible);
        }
        let entered = entered_of(self.alloc, caller)?;
        self.history.reserve_entered()?;
        if self.dates.enter(entry).is_err() {
            return Err(EventStop::OutOfMemory);
        }
        self.history.add_entered(entered);
        change_kept(&mut self.kept, None);
        self.failure = None;
        Ok(())
    }
}
