//! A line of a catalog.

ghost use Rattle.std.specs.Prelude.{◌≡◌, ◌↔◌, IsTrue};
ghost use Rattle.catalog.specs.Line.{line_id};
ghost use Rattle.catalog.specs.Run.{Begins, IsPastBegun, IsUpTo};
ghost use Rattle.catalog.specs.Verdict.{IsSumOf};

use crate::{BegunLine, FinishedLine, SumLine};
use dump_run::{DumpId, VolumeLabel};

/// A line of a catalog.
#[derive(Drop)]
pub enum CatalogLine {
    /// A dump begins.
    Begun(BegunLine),
    /// A volume was counted.
    Volume(SumLine),
    /// A dump is finished.
    Finished(FinishedLine),
}

impl CatalogLine {
    /// Returns the dump of the line.
    pub fn id(&self) -> &DumpId
        // The types allow no other body, so no wrong body is tried.
        ensures { result.now ≡ line_id self.now }
    {
        match self {
            CatalogLine::Begun(begun) => begun.id(),
            CatalogLine::Volume(volume) => volume.label().id(),
            CatalogLine::Finished(finished) => finished.id(),
        }
    }

    pub(crate) fn begins(&self, id: &DumpId) -> bool
        ensures { IsTrue result ↔ Begins id.now self.now }
    {
        match self {
            CatalogLine::Begun(begun) => begun.id().is_same(id),
            CatalogLine::Volume(_) | CatalogLine::Finished(_) => false,
        }
    }

    pub(crate) fn is_up_to(&self, id: &DumpId, number: u32) -> bool
        ensures { IsTrue result ↔ IsUpTo id.now number self.now }
    {
        match self {
            CatalogLine::Volume(volume) => {
                volume.label().volume() <= number && volume.label().id().is_same(id)
            }
            CatalogLine::Begun(_) | CatalogLine::Finished(_) => false,
        }
    }

    pub(crate) fn is_past_begun(&self, id: &DumpId) -> bool
        ensures { IsTrue result ↔ IsPastBegun id.now self.now }
    {
        match self {
            CatalogLine::Volume(volume) => volume.label().id().is_same(id),
            CatalogLine::Finished(finished) => finished.id().is_same(id),
            CatalogLine::Begun(_) => false,
        }
    }

    pub(crate) fn has(&self, label: &VolumeLabel, sum: &[u8; 32]) -> bool
        ensures { IsTrue result ↔ IsSumOf label.now sum.now self.now }
    {
        match self {
            CatalogLine::Volume(volume) => volume.has(label, sum),
            CatalogLine::Begun(_) | CatalogLine::Finished(_) => false,
        }
    }
}
