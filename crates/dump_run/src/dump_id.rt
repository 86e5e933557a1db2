//! The identity of a dump.

ghost use Rattle.std.specs.Prelude.{◌≡◌, ◌≤◌, ◌↔◌, IfSome, IsSome, IsTrue, IsUtf8};
ghost use Rattle.dumpdates.specs.Entry.{IsName, last_second};
ghost use Rattle.dump_run.specs.DumpId.{IsDumpId, AreOneId, plain_id};

use crate::row::Row;
use crate::run::LAST_LEVEL;
use dumpdates::{LAST_SECOND, is_name};
use std::marker::Model;

/// The identity of a dump: the name of the file system, the level and the two dates. A run and the
/// labels of its volumes share it. It allocates nothing.
#[derive(Drop)]
pub struct DumpId {
    name: Row,
    level: u8,
    date: u64,
    since: u64,
}

impl Model for DumpId {
    ghost use Rattle.std.specs.Prelude.{IsUtf8};
    ghost use Rattle.dump_run.specs.DumpId.{PlainId, IsDumpId, plain_id};

    ghost Value = { PlainId };

    ghost view = { λ d. plain_id d.name d.level d.date d.since };

    ghost invariant = { λ d. IsDumpId (plain_id d.name d.level d.date d.since) × IsUtf8 d.name };
}

impl DumpId {
    /// Makes an id with the given values. Returns None if a part breaks its limit.
    ///
    /// The name is 1 to 255 bytes of printable ASCII without a space, the level 0 to 9, and each
    /// date 0 to `dumpdates::LAST_SECOND`. `since` is the date of the dump that this one builds on,
    /// or 0 if there is none.
    pub fn new(name: &str, level: u8, date: u64, since: u64) -> Option<DumpId>
        ensures made { IfSome result (λ d. d ≡ plain_id name.now level date since) }
        ensures limits { IsSome result ↔ IsDumpId (plain_id name.now level date since) }
    {
        let level = u64::from(level);
        if !is_name(name.as_bytes()) || level > LAST_LEVEL {
            return None;
        }
        if date > LAST_SECOND || since > LAST_SECOND {
            return None;
        }
        Some(DumpId::from_parts(name.as_bytes(), level, date, since))
    }

    /// `base` is the date of the dump that this one builds on.
    pub(crate) fn from_parts(name: &[u8], level: u64, date: u64, base: u64) -> DumpId
        requires limits { IsDumpId (plain_id name.now level date base) }
        requires text { IsUtf8 name.now }
        ensures { result ≡ plain_id name.now level date base }
    {
        DumpId {
            name: Row::new(name),
            level: level as u8,
            date,
            since: base,
        }
    }

    /// Returns a copy of the id. It allocates nothing.
    pub fn copy(&self) -> DumpId
        ensures { result ≡ self.now }
    {
        DumpId {
            name: Row::new(self.name.as_slice()),
            level: self.level,
            date: self.date,
            since: self.since,
        }
    }

    /// Returns whether two ids are of the same dump: they have the same name, level and dates.
    pub fn is_same(&self, other: &DumpId) -> bool
        ensures { IsTrue result ↔ AreOneId self.now other.now }
    {
        self.name() == other.name()
            && self.level == other.level
            && self.date == other.date
            && self.since == other.since
    }

    /// Returns the name of the file system: 1 to 255 bytes of printable ASCII without a space.
    pub fn name(&self) -> &str
        ensures told { result.now ≡ self.now.name }
        ensures limits { IsName self.now.name }
    {
        std::str::from_utf8(self.name.as_slice()).unwrap()
    }

    /// Returns the level, 0 to 9.
    pub fn level(&self) -> u8
        ensures told { result ≡ self.now.level }
        ensures limit { self.now.level ≤ 9 }
    {
        self.level
    }

    /// Returns the date of the dump, in seconds since the beginning of 1970 (UTC).
    pub fn date(&self) -> u64
        ensures told { result ≡ self.now.date }
        ensures limit { self.now.date ≤ last_second }
    {
        self.date
    }

    /// Returns the date of the lower-level dump that this one builds on, in seconds since the
    /// beginning of 1970 (UTC), or 0 if there is none.
    pub fn since(&self) -> u64
        ensures told { result ≡ self.now.since }
        ensures limit { self.now.since ≤ last_second }
    {
        self.since
    }
}
