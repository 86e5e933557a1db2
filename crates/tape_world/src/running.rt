//! A list of events, which happen one after the other.
ghost use Rattle.std.specs.Prelude.{◌≡◌, OnOk, IfErr, map};
ghost use Rattle.world_model.specs.Steps.{Runs};
ghost use Rattle.tape_world.specs.Running.{plain_event, fault_place, fault_at, IsStopped, IsEventRefused, LeavesInOrder};

use crate::event::Event;
use crate::fault::WorldFault;
use crate::stop::EventStop;
use crate::world::World;
use world_model::faultless;

/// Makes the given events happen in a world, one after the other. Each event first allocates what
/// it needs.
///
/// Stops at the first event that is not possible there (`NotPossible`), or for which an allocation
/// fails (`OutOfMemory`). The world is then as after the events before it.
///
/// In a new world of one good drive, events without faults leave the volumes in order (`in_order`).
/// The law `faultless` of the crate `world_model` says which events these are.
pub fn run(world: &mut World, events: &[Event<'_>]) -> Result<(), WorldFault>
    ensures made { OnOk result (Runs world.old (map plain_event events.now) world.new) }
    ensures stopped { IfErr result (λ fault. IsStopped world.old (map plain_event events.now) (fault_place fault) world.new) }
    ensures impossible { IfErr result (λ fault. IsEventRefused (map plain_event events.now) world.new fault) }
    ensures in_order { LeavesInOrder world.old (map plain_event events.now) world.new }
{
    faultless();
    for (i, event) in events.iter().enumerate() {
        if let Err(stop) = world.make(event) {
            return Err(fault_of(stop, i));
        }
    }
    Ok(())
}

fn fault_of(stop: EventStop, place: usize) -> WorldFault
    ensures { result ≡ fault_at stop place }
{
    match stop {
        EventStop::NotPossible => WorldFault::NotPossible(place),
        EventStop::OutOfMemory => WorldFault::OutOfMemory(place),
    }
}
