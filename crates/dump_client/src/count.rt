//! The beginning of the next volume, and whether the run is covered.
ghost use Rattle.std.specs.Prelude.{◌≡◌, MatchBool};
ghost use Rattle.dump_client.specs.Position.{Covers};
ghost use Rattle.dump_client.specs.Standing.{checkpoint_of};
ghost use Rattle.dump_client.specs.Lawful.{AreVolumes};
ghost use Rattle.dump_run.specs.Run.{IsRun};

use crate::{Run, VolumeCount};

/// Returns the volume that follows these, and its first block.
#[tactic(auto, using(crate::proofs::Checkpoint::behind_last, crate::proofs::Checkpoint::last_within))]
pub(crate) fn checkpoint(run: &Run, counts: &[VolumeCount]) -> (u32, u32)
    requires run { IsRun run.now }
    requires volumes { AreVolumes run.now 1 0 counts.now }
    ensures { result ≡ checkpoint_of counts.now }
{
    match counts.split_last() {
        Some((last, _)) => (last.volume + 1, last.first + last.count),
        None => (1, 0),
    }
}

/// Whether these volumes are the whole run.
#[tactic(auto, using(crate::proofs::Checkpoint::covers_at, crate::proofs::Checkpoint::covers_up_to))]
pub(crate) fn covers(run: &Run, counts: &[VolumeCount]) -> bool
    requires run { IsRun run.now }
    requires volumes { AreVolumes run.now 1 0 counts.now }
    ensures { MatchBool result (Covers run.now counts.now) (Covers run.now counts.now → ⊥) }
{
    !counts.is_empty() && checkpoint(run, counts).1 == run.blocks()
}
