//! A run.

ghost use Rattle.std.specs.Prelude.{◌≡◌, ℕ, ◌≤◌, ◌↔◌, List, IsTrue, IfOk, Ok};
ghost use Rattle.dumpdates.specs.Entry.{IsName, last_second};
ghost use Rattle.dump_run.specs.Run.{IsDevice, IsBlockSize, IsRun, IsCheckedRun, IsRunOf, AreOfOneDump, id_of_run, plain_run};

use crate::RunFault;
use crate::dump_id::DumpId;
use crate::row::Row;
use dumpdates::{LAST_SECOND, is_name};
use rmt_wire::{LINE_LIMIT, NUMBER_LIMIT, RECORD_LIMIT};
use std::alloc::AllocError;
use std::marker::Model;

/// The greatest number of blocks in a run.
pub const BLOCKS_LIMIT: u32 = NUMBER_LIMIT;

pub(crate) const LAST_LEVEL: u64 = 9;

/// The parameters of a dump (dump(8)). A run allocates nothing.
#[derive(Drop)]
pub struct Run {
    device: Row,
    id: DumpId,
    block_bytes: usize,
    blocks: u32,
}

impl Model for Run {
    ghost use Rattle.dump_run.specs.Run.{PlainRun, IsRun, plain_run};

    ghost Value = { PlainRun };

    ghost view = { λ r. plain_run r.device r.id.name r.id.level r.id.date r.id.since r.block_bytes r.blocks };

    ghost invariant = { λ r. IsRun (plain_run r.device r.id.name r.id.level r.id.date r.id.since r.block_bytes r.blocks) };
}

impl Clone for Run {
    /// Returns a copy of the run. It allocates nothing, and never fails.
    fn clone(&self) -> Result<Run, AllocError>
        ensures { result ≡ Ok self.now }
    {
        Ok(Run {
            device: Row::new(self.device.as_slice()),
            id: self.id.copy(),
            block_bytes: self.block_bytes,
            blocks: self.blocks,
        })
    }
}

#[tactic(auto, using(std::proofs::lemmas::Grind::elements))]
pub(crate) fn is_device(device: &[u8]) -> bool
    ensures { IsTrue result ↔ IsDevice device.now }
{
    !device.is_empty() && device.len() <= LINE_LIMIT && device.iter().all(|b| *b != b'\n')
}

fn check_numbers(
    level: u64,
    date: u64,
    since: u64,
    block_bytes: u64,
    blocks: u64,
) -> Result<(), RunFault>
    ensures { (device name : List ℕ) → IsDevice device → IsName name →
        IsCheckedRun (plain_run device name level date since block_bytes blocks) result }
{
    if level > LAST_LEVEL {
        return Err(RunFault::BadLevel);
    }
    if date > LAST_SECOND || since > LAST_SECOND {
        return Err(RunFault::BadDate);
    }
    if block_bytes == 0 || block_bytes > RECORD_LIMIT as u64 {
        return Err(RunFault::BadBlockSize);
    }
    if blocks > u64::from(BLOCKS_LIMIT) {
        return Err(RunFault::TooManyBlocks);
    }
    Ok(())
}

impl Run {
    /// Makes a run that dumps file system `fs` to `device`. It allocates nothing.
    ///
    /// - `device`: 1 to 255 bytes without a line feed.
    /// - `fs`: 1 to 255 bytes of printable ASCII without a space.
    /// - `level`: 0 to 9.
    /// - `date`, `since`: in seconds since 1970 began, UTC, up to `dumpdates::LAST_SECOND`. `since`
    ///   is the date of the lower-level dump that this one builds on, or 0.
    /// - `block_bytes`: the size of a block, 1 to `rmt_wire::RECORD_LIMIT` bytes.
    /// - `blocks`: the number of blocks, up to `BLOCKS_LIMIT`.
    ///
    /// Returns the first of these limits that is broken, in the order of `RunFault`.
    #[tactic(auto, using(crate::proofs::Limits::id_of_run))]
    pub fn new(
        device: &[u8],
        fs: &str,
        level: u64,
        date: u64,
        since: u64,
        block_bytes: u64,
        blocks: u64,
    ) -> Result<Run, RunFault>
        ensures run { IsRunOf (plain_run device.now fs.now level date since block_bytes blocks) result }
        ensures limits { IfOk result IsRun }
    {
        if !is_device(device) {
            return Err(RunFault::BadDevice);
        }
        if !is_name(fs.as_bytes()) {
            return Err(RunFault::BadName);
        }
        check_numbers(level, date, since, block_bytes, blocks)?;
        let id = DumpId::from_parts(fs.as_bytes(), level, date, since);
        Ok(Run::from_parts(device, id, block_bytes, blocks))
    }

    #[tactic(auto, using(crate::proofs::Limits::number_of_run))]
    pub(crate) fn from_parts(device: &[u8], id: DumpId, block_bytes: u64, blocks: u64) -> Run
        requires { IsRun (plain_run device.now id.name id.level id.date id.since block_bytes blocks) }
        ensures { result ≡ plain_run device.now id.name id.level id.date id.since block_bytes blocks }
    {
        Run {
            device: Row::new(device),
            id,
            block_bytes: block_bytes as usize,
            blocks: blocks as u32,
        }
    }

    /// Returns whether two runs have the same device, name, level, block size and number of blocks.
    /// The dates may differ.
    pub fn is_same_dump(&self, other: &Run) -> bool
        ensures { IsTrue result ↔ AreOfOneDump self.now other.now }
    {
        self.device() == other.device()
            && self.name() == other.name()
            && self.level() == other.level()
            && self.block_bytes == other.block_bytes
            && self.blocks == other.blocks
    }

    /// Returns the identity of the dump.
    pub fn id(&self) -> &DumpId
        // The types allow no other body, so no wrong body is tried.
        ensures { result.now ≡ id_of_run self.now }
    {
        &self.id
    }

    /// Returns the device: 1 to 255 bytes without a line feed.
    pub fn device(&self) -> &[u8]
        ensures told { result.now ≡ self.now.device }
        ensures limits { IsDevice self.now.device }
    {
        self.device.as_slice()
    }

    /// Returns the name of the file system: 1 to 255 bytes of printable ASCII without a space.
    pub fn name(&self) -> &str
        ensures told { result.now ≡ self.now.name }
        ensures limits { IsName self.now.name }
    {
        self.id.name()
    }

    /// Returns the level, 0 to 9.
    pub fn level(&self) -> u8
        ensures told { result ≡ self.now.level }
        ensures limit { self.now.level ≤ 9 }
    {
        self.id.level()
    }

    /// Returns the date of this dump, in seconds since the beginning of 1970 (UTC).
    pub fn date(&self) -> u64
        ensures told { result ≡ self.now.date }
        ensures limit { self.now.date ≤ last_second }
    {
        self.id.date()
    }

    /// Returns the date of the lower-level dump that this one builds on, in seconds since the
    /// beginning of 1970 (UTC), or 0 if there is none.
    pub fn since(&self) -> u64
        ensures told { result ≡ self.now.since }
        ensures limit { self.now.since ≤ last_second }
    {
        self.id.since()
    }

    /// Returns the size of a block in bytes, 1 to `RECORD_LIMIT`.
    pub fn block_bytes(&self) -> usize
        ensures told { result ≡ self.now.block_bytes }
        ensures limits { IsBlockSize self.now.block_bytes }
    {
        self.block_bytes
    }

    /// Returns the number of blocks, up to `BLOCKS_LIMIT`.
    pub fn blocks(&self) -> u32
        ensures told { result ≡ self.now.blocks }
        ensures limit { self.now.blocks ≤ BLOCKS_LIMIT }
    {
        self.blocks
    }
}
