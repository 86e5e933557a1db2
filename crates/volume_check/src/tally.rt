//! Tallies entries.

ghost use Rattle.std.specs.Prelude.{◌≡◌, ◌≢◌, ◌↔◌, ◌+◌, ◌<◌, ◌^◌, ℕ, IsTrue, List, [], ◌∷◌, ◌++◌, length};
ghost use Rattle.tape.specs.Tape.{PlainEntry};
ghost use Rattle.tape.specs.Tape.PlainEntry.{Record, Mark};
ghost use Rattle.dump_run.specs.Label.{label_bytes};
ghost use Rattle.volume_check.specs.Contents.{IsTally};
ghost use Rattle.volume_check.specs.declared.holding.Holding.TheVariants.{Empty};

use crate::Holding;
use std::marker::Model;
use std::mem;

/// What the entries of a reel are so far. It keeps at most one label, and allocates nothing.
#[derive(Drop)]
pub struct ReelTally {
    holding: Holding,
    records: u64,
    marks: u64,
}

impl Model for ReelTally {
    ghost use Rattle.volume_check.specs.Contents.{Tally};

    ghost Value = { Tally };

    ghost view = { λ t. record { holding = t.holding; records = t.records; marks = t.marks } };
}

impl ReelTally {
    /// Makes a tally without entries.
    pub fn new() -> ReelTally
        ensures { IsTally result [] }
    {
        ReelTally {
            holding: Holding::Empty,
            records: 0,
            marks: 0,
        }
    }

    /// Adds a record with the given bytes, at least 1 and at most 262,144
    /// (`rmt_wire::RECORD_LIMIT`).
    ///
    /// If it is the first entry, it is read as a label. Otherwise only its length counts.
    pub fn record(&mut self, bytes: &[u8])
        ensures { (entries : List PlainEntry) → length entries + 1 < 2 ^ 64 → IsTally self.old entries →
            IsTally self.new (entries ++ Record bytes.now ∷ []) }
    {
        let holding = mem::replace(&mut self.holding, Holding::Empty);
        self.holding = holding.with_record(bytes);
        self.records = self.records.saturating_add(1);
    }

    /// Adds a mark.
    pub fn mark(&mut self)
        ensures { (entries : List PlainEntry) → length entries + 1 < 2 ^ 64 → IsTally self.old entries →
            IsTally self.new (entries ++ Mark ∷ []) }
    {
        let holding = mem::replace(&mut self.holding, Holding::Empty);
        self.holding = holding.with_mark();
        self.marks = self.marks.saturating_add(1);
    }

    /// Returns the description of the entries that were added so far.
    pub fn holding(&self) -> &Holding
        // The types allow no other body, so no wrong body is tried.
        ensures { result.now ≡ self.now.holding }
    {
        &self.holding
    }

    /// Returns how many records were added, with the label and those after a mark.
    pub fn records(&self) -> u64
        ensures { result ≡ self.now.records }
    {
        self.records
    }

    /// Returns how many marks were added.
    pub fn marks(&self) -> u64
        ensures { result ≡ self.now.marks }
    {
        self.marks
    }

    /// Returns the same as `holding`, and consumes the tally.
    pub fn into_holding(self) -> Holding
        ensures { result ≡ self.holding }
    {
        self.holding
    }

    pub(crate) fn other_record(&mut self, len: usize)
        requires { self.old.holding ≡ Empty → len ≢ label_bytes }
        ensures { (bytes : List ℕ) (entries : List PlainEntry) → len ≡ length bytes → length entries + 1 < 2 ^ 64 →
            IsTally self.old entries → IsTally self.new (entries ++ Record bytes ∷ []) }
    {
        let holding = mem::replace(&mut self.holding, Holding::Empty);
        self.holding = holding.with_other(len);
        self.records = self.records.saturating_add(1);
    }

    pub(crate) fn is_empty(&self) -> bool
        ensures { IsTrue result ↔ (self.now.holding ≡ Empty) }
    {
        matches!(self.holding, Holding::Empty)
    }
}
