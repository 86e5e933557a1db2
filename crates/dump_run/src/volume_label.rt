//! The contents of labels.

ghost use Rattle.std.specs.Prelude.{◌≡◌, ◌≤◌, ◌↔◌, IfSome, IsSome, IsTrue, length, replicate};
ghost use Rattle.std.specs.Int.{IsInRange};
ghost use Rattle.dumpdates.specs.Entry.{IsName, last_second};
ghost use Rattle.dump_run.specs.Run.{blocks_limit};
ghost use Rattle.dump_run.specs.Label.{IsLabel, ReadsLabel, AreLabelsOfOneDump, id_of, plain_label};
ghost use Rattle.dump_run.specs.LabelParts.{FindsLabel};

use crate::checkpoint::field::{name_field, number_field};
use crate::dump_id::DumpId;
use crate::labels::LABEL_BYTES;
use crate::run::{BLOCKS_LIMIT, LAST_LEVEL};
use dumpdates::{LAST_SECOND, is_name};
use std::marker::Model;

const LAST_NUMBER: u64 = BLOCKS_LIMIT as u64;

/// The contents of a label: the name, level and dates of the dump, the volume's number, and its
/// first block. It allocates nothing.
#[derive(Drop)]
pub struct VolumeLabel {
    id: DumpId,
    volume: u32,
    first: u32,
}

impl Model for VolumeLabel {
    ghost use Rattle.dump_run.specs.Label.{PlainLabel, IsLabel, plain_label};

    ghost Value = { PlainLabel };

    ghost view = { λ l. plain_label l.id.name l.id.level l.id.date l.id.since l.volume l.first };

    ghost invariant = { λ l. IsLabel (plain_label l.id.name l.id.level l.id.date l.id.since l.volume l.first) };
}

impl VolumeLabel {
    /// Reads a record as a label. Returns None if it is no label.
    ///
    /// A label has 1024 bytes: six lines as `label` writes them, then zero bytes. Its values are
    /// within the limits of `new`.
    pub fn read(bytes: &[u8]) -> Option<VolumeLabel>
        ensures { ReadsLabel bytes.now result }
    {
        if bytes.len() != LABEL_BYTES {
            return None;
        }
        let (label, rest) = first_lines(bytes)?;
        if !are_zeros(rest) {
            return None;
        }
        Some(label)
    }

    /// Makes a label with the given values. Returns None if a part breaks its limit.
    ///
    /// The limits of the name, level and dates are those of `DumpId::new`. The volume is 1 to
    /// `BLOCKS_LIMIT`, and its first block 0 to `BLOCKS_LIMIT`.
    pub fn new(
        name: &str,
        level: u8,
        date: u64,
        since: u64,
        volume: u32,
        first: u32,
    ) -> Option<VolumeLabel>
        ensures made { IfSome result (λ l. l ≡ plain_label name.now level date since volume first) }
        ensures limits { IsSome result ↔ IsLabel (plain_label name.now level date since volume first) }
    {
        let (level, volume, first) = (u64::from(level), u64::from(volume), u64::from(first));
        if !is_name(name.as_bytes()) || level > LAST_LEVEL || date > LAST_SECOND {
            return None;
        }
        if since > LAST_SECOND || volume == 0 || volume > LAST_NUMBER || first > LAST_NUMBER {
            return None;
        }
        let id = DumpId::from_parts(name.as_bytes(), level, date, since);
        Some(VolumeLabel::from_parts(id, volume, first))
    }

    fn from_parts(id: DumpId, volume: u64, first: u64) -> VolumeLabel
        requires { IsLabel (plain_label id.name id.level id.date id.since volume first) }
        ensures { result ≡ plain_label id.name id.level id.date id.since volume first }
    {
        VolumeLabel {
            id,
            volume: volume as u32,
            first: first as u32,
        }
    }

    /// Returns whether two labels have the same name, level and dates.
    pub fn is_same_dump(&self, other: &VolumeLabel) -> bool
        ensures { IsTrue result ↔ AreLabelsOfOneDump self.now other.now }
    {
        self.id.is_same(&other.id)
    }

    /// Returns the identity of the dump.
    pub fn id(&self) -> &DumpId
        // The types allow no other body, so no wrong body is tried.
        ensures { result.now ≡ id_of self.now }
    {
        &self.id
    }

    /// Returns the name of the file system, as `DumpId::name` does.
    pub fn name(&self) -> &str
        ensures told { result.now ≡ self.now.name }
        ensures limits { IsName self.now.name }
    {
        self.id.name()
    }

    /// Returns the level, 0 to 9.
    pub fn level(&self) -> u8
        ensures told { result ≡ self.now.level }
        ensures limit { self.now.level ≤ 9 }
    {
        self.id.level()
    }

    /// Returns the date of the dump, as `DumpId::date` does.
    pub fn date(&self) -> u64
        ensures told { result ≡ self.now.date }
        ensures limit { self.now.date ≤ last_second }
    {
        self.id.date()
    }

    /// Returns the date of the dump that this one builds on, as `DumpId::since` does.
    pub fn since(&self) -> u64
        ensures told { result ≡ self.now.since }
        ensures limit { self.now.since ≤ last_second }
    {
        self.id.since()
    }

    /// Returns the number of the volume: 1 to `BLOCKS_LIMIT`.
    pub fn volume(&self) -> u32
        ensures told { result ≡ self.now.volume }
        ensures limits { IsInRange 1 blocks_limit self.now.volume }
    {
        self.volume
    }

    /// Returns the number of the volume's first block: 0 to `BLOCKS_LIMIT`.
    pub fn first(&self) -> u32
        ensures told { result ≡ self.now.first }
        ensures limit { self.now.first ≤ blocks_limit }
    {
        self.first
    }
}

fn first_lines(bytes: &[u8]) -> Option<(VolumeLabel, &[u8])>
    ensures { FindsLabel bytes.now result }
{
    let (name, rest) = name_field(bytes, b"name ")?;
    let (level, rest) = number_field(rest, b"level ", 0, LAST_LEVEL)?;
    let (date, rest) = number_field(rest, b"date ", 0, LAST_SECOND)?;
    let (base, rest) = number_field(rest, b"since ", 0, LAST_SECOND)?;
    let (volume, rest) = number_field(rest, b"volume ", 1, LAST_NUMBER)?;
    let (first, rest) = number_field(rest, b"first ", 0, LAST_NUMBER)?;
    let id = DumpId::from_parts(name, level, date, base);
    let label = VolumeLabel::from_parts(id, volume, first);
    Some((label, rest))
}

fn are_zeros(bytes: &[u8]) -> bool
    ensures { IsTrue result ↔ (bytes.now ≡ replicate (length bytes.now) 0) }
{
    bytes.iter().all(|byte| *byte == 0)
}
