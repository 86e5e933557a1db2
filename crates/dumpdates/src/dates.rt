//! The list of entries in the file: reads, queries, changes and writes it.

ghost use Rattle.std.specs.Prelude.{◌≡◌, ◌≤◌, [], List, length, slice_get, option_map, IsOk, IfOk, OnOk, OnErr, IfErr, MatchResult};
ghost use Rattle.dumpdates.specs.Dates as spec;
ghost use Rattle.dumpdates.specs.Entry.{DatesEntry, AreEntries, last_second};
ghost use Rattle.dumpdates.specs.Lines.{SpellsDates, HasDatesFault};
ghost use Rattle.dumpdates.specs.Stored.{plain_entry};
ghost use Rattle.dumpdates.specs.Text.{written};
ghost use Rattle.dumpdates.specs.declared.fault.DatesFault.TheVariants.{OutOfMemory};

use crate::file::{line_len, read_line};
use crate::list::{append, position_of, replace};
use crate::stored::Stored;
use crate::writer::push_lines;
use crate::{DatesFault, Entry};
use std::alloc::Global;
use std::marker::Model;

/// The entries of dumpdates, in the order of their lines. Contracts see the list of entries.
#[derive(Drop)]
pub struct Dates {
    alloc: Global,
    entries: Vec<Stored>,
}

impl Model for Dates {
    ghost use Rattle.std.specs.Prelude.{List};
    ghost use Rattle.dumpdates.specs.Entry.{DatesEntry};
    ghost use Rattle.dumpdates.specs.Stored.{plain_all};

    ghost Value = { List DatesEntry };

    ghost view = { λ d. plain_all d.entries.items };
}

impl Dates {
    /// Returns a list without entries. Allocates nothing.
    pub fn new(alloc: Global) -> Dates
        ensures { result ≡ [] }
    {
        Dates {
            alloc,
            entries: Vec::new(alloc),
        }
    }

    /// Reads the entries of a dumpdates file (dump(8)). Each line that is not blank has one entry.
    ///
    /// Each line ends with a line feed, but the last one need not. A line with only spaces and
    /// tabs, or nothing, is blank. Any other line has seven words with spaces or tabs between them,
    /// and perhaps before and after them. The first is the name, of 1 to 255 bytes of printable
    /// ASCII, and the second the level, one digit. The other five are the date as ctime(3) prints
    /// it, in UTC: a weekday, a month, a day of one or two digits, `hh:mm:ss` with two digits each,
    /// and a year of four digits. The weekday need not be the right one.
    ///
    /// Fails with `BadLine` or `BadDate` and the number of the first bad line, counted from 1.
    /// Fails with `OutOfMemory` if an allocation for an entry fails and no line up to it is bad.
    pub fn read(alloc: Global, bytes: &[u8]) -> Result<Dates, DatesFault>
        ensures spelled { IfOk result (λ dates. SpellsDates bytes.now dates) }
        ensures only { (entries : List DatesEntry) → SpellsDates bytes.now entries →
            MatchResult result (λ dates. dates ≡ entries) (λ fault. fault ≡ OutOfMemory) }
        ensures fault { IfErr result (λ fault. HasDatesFault bytes.now fault) }
    {
        let mut entries = Vec::new(alloc);
        let mut rest = bytes;
        let mut number = 1;
        loop {
            let len = line_len(rest);
            read_line(alloc, &mut entries, &rest[..len], number)?;
            if len == rest.len() {
                return Ok(Dates { alloc, entries });
            }
            rest = &rest[len + 1..];
            number += 1;
        }
    }

    /// Returns the text of a dumpdates file (dump(8)), with a line for each entry. A line is the
    /// name, a space, the level, a space, the date as ctime(3) prints it, in UTC, and a line feed.
    /// A name of less than 32 bytes is padded with spaces to 32.
    ///
    /// Fails with `OutOfMemory` if an allocation fails. Without entries it allocates nothing.
    #[tactic(auto, using(crate::proofs::Entering::stored_entries, crate::proofs::Lined::written_spells))]
    pub fn text(&self) -> Result<Vec<u8>, DatesFault>
        ensures written { IfOk result (λ text. text.items ≡ written self.now) }
        ensures spelled { IfOk result (λ text. SpellsDates text.items self.now) }
        ensures fault { IfErr result (λ fault. fault ≡ OutOfMemory) }
        ensures empty { self.now ≡ [] → IsOk result }
    {
        let mut out = Vec::new(self.alloc);
        push_lines(&mut out, &self.entries)?;
        Ok(out)
    }

    /// Returns the number of entries. Each is within the limits of `Entry`.
    #[tactic(auto, using(crate::proofs::Entering::stored_entries))]
    pub fn len(&self) -> usize
        ensures value { result ≡ length self.now }
        ensures within { AreEntries self.now }
    {
        self.entries.len()
    }

    /// Returns the entry at an index, counted from 0. Returns None if the index is past the last
    /// entry.
    #[tactic(auto, using(std::proofs::lemmas::Grind::elements))]
    pub fn get(&self, at: usize) -> Option<Entry<'_>>
        ensures { option_map plain_entry result ≡ slice_get self.now at }
    {
        Some(self.entries.get(at)?.entry())
    }

    /// Returns the base date of a dump (dump(8)), in seconds since the beginning of 1970 (UTC). It
    /// is the date of the latest dump of the name at any level below the given one. It is 0 if no
    /// lower level was dumped, and at most `LAST_SECOND`.
    #[tactic(auto, using(crate::proofs::Entering::base_bound, crate::proofs::Entering::stored_entries))]
    pub fn base(&self, name: &str, level: u8) -> u64
        ensures value { result ≡ spec.base_of self.now name.now level }
        ensures bound { result ≤ last_second }
    {
        let mut greatest = 0;
        for entry in &self.entries {
            if entry.is_below(name, level) {
                greatest = greatest.max(entry.date);
            }
        }
        greatest
    }

    /// Enters a dump in the list (dump(8)). The dump replaces the first entry with its name and
    /// level, even if that one has a later date, and any further ones are removed. Without such an
    /// entry the dump is appended. Entries of other names and levels are unchanged.
    ///
    /// Fails with `OutOfMemory` if the dump is to be appended and an allocation fails. Then the
    /// list is unchanged.
    pub fn enter(&mut self, entry: Entry<'_>) -> Result<(), DatesFault>
        ensures entered { OnOk result (self.new ≡ spec.entered self.old (plain_entry entry.entry)) }
        ensures fault { IfErr result (λ fault. fault ≡ OutOfMemory) }
        ensures unchanged { OnErr result (self.new ≡ self.old) }
        ensures absent { OnErr result (spec.others (plain_entry entry.entry) self.old ≡ self.old) }
    {
        match position_of(&self.entries, entry) {
            Some(at) => replace(&mut self.entries, at, entry),
            None => append(self.alloc, &mut self.entries, entry)?,
        }
        Ok(())
    }
}
