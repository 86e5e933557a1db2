//! Checks the order of the counts in a checkpoint.
ghost use Rattle.std.specs.Prelude.{◌↔◌, ◌≤◌, IsTrue};
ghost use Rattle.dump_run.specs.CheckpointParts.{IsNext, AreOrdered};

use crate::{Run, VolumeCount};

/// Whether `count` can be volume `volume`, which begins at block `first`.
fn is_next(blocks: u32, volume: usize, first: u32, count: &VolumeCount) -> bool
    requires { first ≤ blocks }
    ensures { IsTrue result ↔ IsNext blocks volume first count.now }
{
    let is_its = count.volume as usize == volume && count.first == first;
    let is_within = count.count <= blocks - first && (count.count > 0 || blocks == 0);
    is_its && is_within && (volume == 1 || first < blocks)
}

/// Returns how many of the counts, from the first on, are in order.
pub(super) fn ordered(run: &Run, counts: &[VolumeCount]) -> usize
    ensures { AreOrdered run.now counts.now result }
{
    let blocks = run.blocks();
    let mut first = 0;
    for at in 0..counts.len() {
        let count = &counts[at];
        if !is_next(blocks, at + 1, first, count) {
            return at;
        }
        first += count.count;
    }
    counts.len()
}
