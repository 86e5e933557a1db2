//! Laws of the file's definitions. Each is the contract of a function that does nothing.

ghost use Rattle.std.specs.Prelude.{◌≡◌, ◌⊎◌, ℕ, ◌≤◌, List, [], ◌∷◌, filter};
ghost use Rattle.dumpdates.specs.Dates.{is_same, others, entered};
ghost use Rattle.dumpdates.specs.Entry.{DatesEntry, IsEntry, AreEntries, last_second};
ghost use Rattle.dumpdates.specs.Lines.{SpellsDates, HasDatesFault};
ghost use Rattle.dumpdates.specs.Moment.{IsMoment, moment_of, seconds_at};
ghost use Rattle.dumpdates.specs.Text.{written};
ghost use Rattle.dumpdates.specs.declared.fault.DatesFault.{DatesFault};
ghost use Rattle.dumpdates.specs.declared.fault.DatesFault.TheVariants.{BadLine, BadDate, OutOfMemory};

/// Every text either spells a list of entries or has a first bad line. It spells one list at most,
/// and the entries are within their limits. It has one first bad line at most, of one kind.
pub fn one_reading()
    ensures some { (bytes : List ℕ) → ((entries : List DatesEntry) × SpellsDates bytes entries)
        ⊎ ((n : ℕ) × (HasDatesFault bytes (BadLine n) ⊎ HasDatesFault bytes (BadDate n))) }
    ensures within { (bytes : List ℕ) (entries : List DatesEntry) → SpellsDates bytes entries → AreEntries entries }
    ensures entries { (bytes : List ℕ) (entries others : List DatesEntry) →
        SpellsDates bytes entries → SpellsDates bytes others → entries ≡ others }
    ensures no_fault { (bytes : List ℕ) (entries : List DatesEntry) (fault : DatesFault) →
        SpellsDates bytes entries → HasDatesFault bytes fault → fault ≡ OutOfMemory }
    ensures fault { (bytes : List ℕ) (fault other : DatesFault) →
        HasDatesFault bytes fault → HasDatesFault bytes other →
        (fault ≡ other) ⊎ ((fault ≡ OutOfMemory) ⊎ (other ≡ OutOfMemory)) }
{}

/// A list of entries stays the same when it is written as a text and read again. The date that is
/// read is the date that was written.
#[tactic(auto, using(crate::proofs::Lined::written_spells, crate::proofs::Again::moment_is, crate::proofs::Again::moment_again))]
pub fn written_and_read()
    ensures spelled { (entries : List DatesEntry) → AreEntries entries → SpellsDates (written entries) entries }
    ensures moment { (date : ℕ) → date ≤ last_second → IsMoment (moment_of date) × (seconds_at (moment_of date) ≡ date) }
{}

/// After a dump is entered, only one entry of the list has the dump's name and level (dump(8)).
/// Entries of other names and levels are unchanged. Entering it a second time changes nothing.
/// Entries within their limits stay so.
#[tactic(auto, using(crate::proofs::Entered::one_entered, crate::proofs::Entered::others_stay, crate::proofs::Entered::entered_again, crate::proofs::Entered::entered_within))]
pub fn one_entry()
    ensures one { (entries : List DatesEntry) (e : DatesEntry) → filter (is_same e) (entered entries e) ≡ e ∷ [] }
    ensures stay { (entries : List DatesEntry) (e : DatesEntry) → others e (entered entries e) ≡ others e entries }
    ensures again { (entries : List DatesEntry) (e : DatesEntry) → entered (entered entries e) e ≡ entered entries e }
    ensures within { (entries : List DatesEntry) (e : DatesEntry) →
        AreEntries entries → IsEntry e → AreEntries (entered entries e) }
{}
