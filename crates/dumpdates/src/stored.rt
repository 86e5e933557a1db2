//! An entry that owns its name.

ghost use Rattle.std.specs.Prelude.{◌≤◌, string_bytes};
ghost use Rattle.std.proofs.Props.{props};
ghost use Rattle.dumpdates.specs.Entry.{IsName, last_second};

use crate::Entry;
use std::alloc::{AllocError, Global};

#[derive(Drop)]
pub(crate) struct Stored {
    pub(crate) name: String,
    pub(crate) level: u8,
    pub(crate) date: u64,
    pub(crate) ghost name_in: { IsName (string_bytes name) } by { Prim.hlevel props },
    pub(crate) ghost level_in: { level ≤ 9 },
    pub(crate) ghost date_in: { date ≤ last_second },
}

impl Stored {
    ghost use Rattle.std.specs.Prelude.{◌≡◌, IfOk};
    ghost use Rattle.dumpdates.specs.Dates as spec;
    ghost use Rattle.dumpdates.specs.Stored.{plain_entry, plain_stored};

    pub(crate) fn new(alloc: Global, entry: Entry<'_>) -> Result<Stored, AllocError>
        ensures { IfOk result (λ e. plain_stored e ≡ plain_entry entry.entry) }
    {
        Ok(Stored {
            name: String::from_str(alloc, entry.name)?,
            level: entry.level,
            date: entry.date,
        })
    }

    pub(crate) fn entry(&self) -> Entry<'_>
        ensures { plain_entry result ≡ plain_stored self.now }
    {
        Entry {
            name: self.name.as_str(),
            level: self.level,
            date: self.date,
        }
    }

    pub(crate) fn is_same(&self, entry: Entry<'_>) -> bool
        ensures { result ≡ spec.is_same (plain_entry entry.entry) (plain_stored self.now) }
    {
        self.name.as_str() == entry.name && self.level == entry.level
    }

    pub(crate) fn is_below(&self, name: &str, level: u8) -> bool
        ensures { result ≡ spec.is_below name.now level (plain_stored self.now) }
    {
        self.name.as_str() == name && self.level < level
    }
}
