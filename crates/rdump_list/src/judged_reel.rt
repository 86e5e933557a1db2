//! A reel that was compared with a catalog.
ghost use Rattle.std.specs.Prelude.{◌≡◌, ◌↔◌, IsTrue};
ghost use Rattle.rdump_list.specs.DumpFound.{IsVolumeOf};

use catalog::{CatalogRun, SumVerdict};
use dump_run::VolumeLabel;

/// A reel of a whole volume that was compared with a catalog.
#[derive(Clone, Copy)]
pub struct JudgedReel<'a> {
    /// The label of the volume.
    pub label: &'a VolumeLabel,
    /// The result of the comparison of its sum.
    pub verdict: SumVerdict,
}

impl<'a> JudgedReel<'a> {
    pub(crate) fn is_of(&self, run: &CatalogRun<'_>) -> bool
        ensures { IsTrue result ↔ IsVolumeOf run.now self.now.label.now.volume self.now }
    {
        if self.verdict != SumVerdict::Equal {
            return false;
        }
        match run.volume(self.label.volume()) {
            Some(line) => are_same(line.label(), self.label),
            None => false,
        }
    }
}

fn are_same(one: &VolumeLabel, other: &VolumeLabel) -> bool
    ensures { IsTrue result ↔ (one.now ≡ other.now) }
{
    one.is_same_dump(other) && one.volume() == other.volume() && one.first() == other.first()
}
