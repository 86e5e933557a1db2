//! The event in which an operator arranges reels.
ghost use Rattle.std.specs.Prelude.{map};
ghost use Rattle.world_model.specs.Events.PlainEvent.{Arrange};
ghost use Rattle.world_model.specs.Kept.{IsWorldKept};
ghost use Rattle.tape_world.specs.Holding.{IsEvent};

use super::WorldState;
use crate::stop::EventStop;
use world_model::kept;

impl WorldState {
    /// Puts the given reels on the stack of the given drive. Not possible while the drive has a
    /// holder.
    pub(crate) fn arrange(&mut self, drive: &[u8], reels: &[&[u8]]) -> Result<(), EventStop>
        requires { IsWorldKept self.old }
        ensures { IsEvent self.old (Arrange drive.now (map (λ n. n.now) reels.now)) result self.new }
    {
        let Some(place) = self.host.drive(drive) else {
            return Err(EventStop::NotPossible);
        };
        if self.host.holder(place) != 0 {
            return Err(EventStop::NotPossible);
        }
        if !self.host.can_arrange(place, reels) {
            return Err(EventStop::NotPossible);
        }
        kept();
        if self.host.arrange(place, reels).is_err() {
            return Err(EventStop::OutOfMemory);
        }
        self.failure = None;
        Ok(())
    }
}
