//! The lines of a dump that are in force.

ghost use Rattle.std.proofs.Props.{props};
ghost use Rattle.catalog.specs.Places.{HasLinesOf};

use crate::last_line::{in_force, last_past_begun};
use crate::place::Place;
use crate::{BegunLine, CatalogLine, FinishedLine, SumLine};
use dump_run::DumpId;

/// The lines that follow the last one with which a dump began.
#[derive(Clone, Copy)]
pub struct CatalogRun<'a> {
    /// The line with which the dump began.
    pub begun: &'a BegunLine,
    /// The lines that follow it. Lines of other dumps are among them.
    pub after: &'a [CatalogLine],
    /// The index of the first line of `after` in the catalog.
    pub(crate) base: usize,
    /// The places of the lines of the dump.
    pub(crate) places: &'a [Place],
    pub(crate) ghost there: { HasLinesOf after.now base places.now begun.now.id } by { Prim.hlevel props },
}

impl<'a> CatalogRun<'a> {
    ghost use Rattle.std.specs.Prelude.{◌≡◌, IfSome, IsNone};
    ghost use Rattle.catalog.specs.DumpLines.{PlainFinished};
    ghost use Rattle.catalog.specs.SumLine.{PlainSumLine};
    ghost use Rattle.catalog.specs.Run.{IsFinishedBy, IsInForce};

    /// Returns the line of the volume with this number that is in force, or None if there is none.
    pub fn volume(&self, number: u32) -> Option<&'a SumLine>
        ensures some { IfSome result (λ v. IsInForce self.now.after.now self.now.begun.now.id v.now × (v.now.label.volume ≡ number)) }
        ensures none { IsNone result → (v : PlainSumLine) → IsInForce self.now.after.now self.now.begun.now.id v → v.label.volume ≡ number → ⊥ }
    {
        in_force(self.after, self.base, self.places, self.begun.id(), number)
    }

    /// Returns the line that says that the dump is finished. Returns None if there is none, or if a
    /// line of a volume of the dump follows it.
    pub fn finished(&self) -> Option<&'a FinishedLine>
        ensures some { IfSome result (λ f. IsFinishedBy self.now.after.now self.now.begun.now.id f.now) }
        ensures none { IsNone result → (f : PlainFinished) → IsFinishedBy self.now.after.now self.now.begun.now.id f → ⊥ }
    {
        let at = last_past_begun(self.after, self.base, self.places, self.begun.id())?;
        match &self.after[at] {
            CatalogLine::Finished(finished) => Some(finished),
            CatalogLine::Begun(_) | CatalogLine::Volume(_) => None,
        }
    }
}
