//! The law of a world without faults.

ghost use Rattle.std.specs.Prelude.{List, [], ◌∷◌};
ghost use Rattle.world_model.specs.World.{World};
ghost use Rattle.world_model.specs.Events.{PlainEvent};
ghost use Rattle.world_model.specs.Steps.{Runs, Happens};
ghost use Rattle.world_model.specs.First.{PlainDriveSpec, AreGoodDrives, first_world};
ghost use Rattle.world_model.specs.Kept.{IsWorldKept};
ghost use Rattle.world_model.specs.Faultless.{IsFaultless, AreFaultless, IsFaultlessWorld, VolumesInOrder};

use dump_client::same_run;
use rmt_wire::{dropped_writes, one_reading, one_reply};

/// The volumes of a dump without faults are on the reels in order. Start from the first world of
/// one good drive. Let runs begin, attempts start, and bytes arrive. Let the client send requests
/// without a failed read of the payload, and let the server carry out requests without a failed
/// device call. Each such event preserves `IsFaultlessWorld`. After each list of such events
/// (`in_order`, `runs`):
///
/// - An attempt has failed only for lack of the drive, a reel, memory, or room for a label, one
///   block and the mark.
/// - The reel of each count is at the count's place on the drive's stack in the first world, and
///   holds exactly its volume.
/// - While the client is ready or finished, the bin has exactly these reels, in order.
///
/// Does nothing: its contract is a law of the definitions.
pub fn faultless()
    ensures first { (drive : PlainDriveSpec) → IsFaultlessWorld drive (first_world (drive ∷ [])) }
    ensures after { (drive : PlainDriveSpec) (w u : World) (event : PlainEvent) → IsWorldKept w → IsFaultlessWorld drive w →
        IsFaultless event → Happens w event u → IsFaultlessWorld drive u }
    ensures in_order { (drive : PlainDriveSpec) (w : World) → IsWorldKept w → IsFaultlessWorld drive w → VolumesInOrder drive w }
    ensures runs { (drive : PlainDriveSpec) (events : List PlainEvent) (w : World) → AreGoodDrives (drive ∷ []) →
        AreFaultless events → Runs (first_world (drive ∷ [])) events w → VolumesInOrder drive w }
{
    same_run();
    one_reading();
    dropped_writes();
    one_reply();
}
