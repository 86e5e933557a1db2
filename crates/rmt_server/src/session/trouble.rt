//! Trouble for the open reel in memory.
ghost use Rattle.std.specs.Prelude.{◌≡◌};
ghost use Rattle.tape.specs.contracts.troubled.TroubledReelReel.TheImpl.{ghosts as of_reel};
ghost use Rattle.drives.specs.contracts.list.ListStacksStacks.TheImpl.{ghosts as of_stacks};
ghost use Rattle.drives.specs.ListLibrary.{ListLibrary};
ghost use Rattle.drives.specs.declared.table.DriveTable.{DriveTable as Drives};
ghost use Rattle.drives.specs.Opening.{kinds};
ghost use Rattle.tape.specs.Trouble.{TroubledTape};
ghost use Rattle.rmt_server.specs.State.{state, IsAt};
ghost use Rattle.rmt_server.specs.Troubling.{troubled, with_trouble};

use crate::session::Session;
use drives::{Holds, ListStacks};
use tape::{Trouble, TroubledReel};

fn set_in(reel: &mut Option<TroubledReel>, trouble: Trouble)
    ensures { reel.new ≡ troubled trouble reel.old }
{
    if let Some(reel) = reel {
        reel.set(trouble);
    }
}

impl<H: Holds> Session<H, ListStacks> {
    /// Sets how the next device call of the open reel fails, and replaces any earlier setting. It
    /// does nothing if no reel is open. The trouble stays with the reel until a device call meets
    /// it, also if a close lays the reel back.
    pub fn trouble(&mut self, trouble: Trouble)
        ensures seat { self.new.seat ≡ self.old.seat }
        ensures at { (drives : Drives H ListLibrary H.Seat TroubledTape) →
            IsAt (kinds H.Holds of_stacks of_reel) (state drives self.old) →
            IsAt (kinds H.Holds of_stacks of_reel) (state drives self.new) }
        ensures set { self.new.opened ≡ with_trouble trouble self.old.opened }
    {
        if let Some(device) = &mut self.session_state.opened {
            set_in(&mut device.reel, trouble);
        }
    }
}
