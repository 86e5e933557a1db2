//! A reel on a medium.

ghost use Rattle.std.specs.Prelude.{◌≡◌, ◌+◌, ◌*◌, ◌^◌, ◌<◌, ◌≤◌, ◌↔◌, List, ℕ, IfOk, IfErr, IsErr, OnErr, IsTrue, MatchResult, [], ◌∷◌, length, replicate, false};
ghost use Rattle.tape.specs.Tape.{PlainEntry, IsRecord, tape, done_answer};
ghost use Rattle.tape.specs.Tape.PlainEntry.{Record, Mark};
ghost use Rattle.tape.specs.Tape.TapeRequest.{WriteMarks};
ghost use Rattle.tape.specs.Call.{IsTapeCall};
ghost use Rattle.tape.specs.RecordFile.{FileTape, SpellsReel, HoldsTape, IsFileCall, EndsInEntries, file_reel_kind, medium_kind_of};
ghost use Rattle.tape.specs.FileSteps.{AreReelCalls, PutsEntries, files_request, records_request};
ghost use Rattle.tape.specs.declared.fault.TapeFault.TheVariants.{Device, OutOfMemory};

mod image;
mod walk;

use crate::entry::{MARK_SIZE, RECORD_FRAME};
use crate::{Medium, MemoryMedium, Reel, TapeFault};
pub use image::{entry_size, next_length};
use image::{put_marks, put_record};
use rmt_wire::mtio::{MTBSF, MTBSR, MTFSF, MTFSR, MTNOP, MTREW, MTWEOF};
use std::marker::Model;
use walk::{Way, walk_files, walk_records};

/// A reel whose entries are on a medium, as a record file.
///
/// It keeps the offset of its place and no entries. Spacing reads only lengths, and no call of
/// `Reel` allocates.
#[derive(Drop)]
pub struct FileReel<M: Medium> {
    medium: M,
    offset: u64,
    capacity: u64,
}

impl<M: Medium> Model for FileReel<M> {
    ghost use Rattle.tape.specs.RecordFile.{FileTape, file_tape_code};

    ghost Value = { FileTape M };

    ghost coded = { file_tape_code M.code };

    ghost view = { λ r. record { medium = r.medium; offset = r.offset; capacity = r.capacity } };
}

impl<M: Medium> FileReel<M> {
    /// Returns the medium that stores the reel's entries.
    pub fn medium(&self) -> &M
        // The types allow no other body, so no wrong body is tried.
        ensures { result.now ≡ self.now.medium }
    {
        &self.medium
    }

    /// Returns the reel's medium. Makes no call of it.
    pub fn into_medium(self) -> M
        ensures { result ≡ self.medium }
    {
        let FileReel { medium, .. } = self;
        medium
    }

    /// Opens the reel whose entries are on `medium`, with a capacity in bytes. The place is at the
    /// beginning. Makes no call of the medium.
    ///
    /// Ignores bytes after the last whole entry; the next write cuts them off. Entries beyond the
    /// capacity can be read like others.
    pub fn open(medium: M, capacity: u64) -> FileReel<M>
        ensures told { (bytes : List ℕ) (entries : List PlainEntry) →
            M.holds medium bytes → SpellsReel bytes entries → HoldsTape M.holds result (tape [] entries) }
        ensures medium { result.medium ≡ medium }
        ensures capacity { result.capacity ≡ capacity }
        ensures offset { result.offset ≡ 0 }
    {
        FileReel {
            medium,
            offset: 0,
            capacity,
        }
    }

    pub(crate) fn offset(&self) -> u64
        ensures { result ≡ self.now.offset }
    {
        self.offset
    }

    /// Whether `size` bytes fit in the capacity from the place on.
    pub(crate) fn has_room(&self, size: u64) -> bool
        ensures answer { IsTrue result ↔ (self.now.offset + size ≤ self.now.capacity) }
        ensures bound { self.now.capacity < 2 ^ 64 }
    {
        self.offset <= self.capacity && size <= self.capacity - self.offset
    }

    /// Moves to `offset`, which must be the offset of a place.
    pub(crate) fn stand_at(&mut self, offset: u64)
        ensures { self.new ≡ record self.old { offset = offset } }
    {
        self.offset = offset;
    }

    /// Cuts off all entries from the place on.
    pub(crate) fn cut(&mut self) -> Result<(), TapeFault>
        ensures run { AreReelCalls (medium_kind_of M.Medium) (PutsEntries [] result) 0 (IsErr result) self.old self.new }
        ensures device { IfErr result (λ fault. fault ≡ Device) }
    {
        self.medium.cut(self.offset)?;
        Ok(())
    }

    /// Writes a record at the place, with nothing after it, and moves past it.
    #[tactic(auto, using(crate::proofs::Putting::ends_in))]
    pub(crate) fn put_record(&mut self, bytes: &[u8]) -> Result<(), TapeFault>
        requires record_is { IsRecord bytes.now }
        requires room { self.old.offset + (length bytes.now + 8) < 2 ^ 64 }
        ensures run { AreReelCalls (medium_kind_of M.Medium) (PutsEntries (Record bytes.now ∷ []) result)
            (length bytes.now + 8) (IsErr result) self.old self.new }
        ensures exact { IfOk result (λ _. EndsInEntries (medium_kind_of M.Medium) (Record bytes.now ∷ []) self.old self.new) }
        ensures device { IfErr result (λ fault. fault ≡ Device) }
    {
        put_record(&mut self.medium, self.offset, bytes)?;
        self.offset += bytes.len() as u64 + RECORD_FRAME;
        Ok(())
    }

    pub(crate) fn put_marks(&mut self, count: u32) -> Result<(), TapeFault>
        requires { self.old.offset + 4 * count < 2 ^ 64 }
        ensures run { AreReelCalls (medium_kind_of M.Medium) (PutsEntries (replicate count Mark) result)
            (4 * count) (IsErr result) self.old self.new }
        ensures exact { IfOk result (λ _. EndsInEntries (medium_kind_of M.Medium) (replicate count Mark) self.old self.new) }
        ensures device { IfErr result (λ fault. fault ≡ Device) }
    {
        put_marks(&mut self.medium, self.offset, count)?;
        self.offset += u64::from(count) * MARK_SIZE;
        Ok(())
    }

    /// Like `put_marks`, but fails with `Full` if the marks do not fit.
    fn write_marks(&mut self, count: u32) -> Result<(), TapeFault>
        ensures { IsTapeCall (file_reel_kind (medium_kind_of M.Medium)) self.old self.new (WriteMarks count) (done_answer result) }
    {
        if count == 0 {
            return Ok(());
        }
        if !self.has_room(u64::from(count) * MARK_SIZE) {
            return Err(TapeFault::Full);
        }
        self.put_marks(count)
    }

    fn space_files(&mut self, way: Way, count: u32) -> Result<(), TapeFault>
        ensures { IsTapeCall (file_reel_kind (medium_kind_of M.Medium)) self.old self.new (files_request way count) (done_answer result) }
    {
        let walked = walk_files(&mut self.medium, way, self.offset, count)?;
        self.offset = walked.at;
        walked.answer()
    }

    fn space_records(&mut self, way: Way, count: u32) -> Result<(), TapeFault>
        ensures { IsTapeCall (file_reel_kind (medium_kind_of M.Medium)) self.old self.new (records_request way count) (done_answer result) }
    {
        let walked = walk_records(&mut self.medium, way, self.offset, count)?;
        self.offset = walked.at;
        walked.answer()
    }
}

impl FileReel<MemoryMedium> {
    pub(crate) fn reserve(&mut self, count: u64) -> Result<(), TapeFault>
        ensures room { MatchResult result (λ _. count ≤ self.new.medium.spare) (λ fault. (fault ≡ OutOfMemory) × (self.new ≡ self.old)) }
        ensures asked { OnErr result (self.old.medium.spare < count) }
        ensures bytes { self.new.medium.bytes ≡ self.old.medium.bytes }
        ensures offset { self.new.offset ≡ self.old.offset }
        ensures capacity { self.new.capacity ≡ self.old.capacity }
    {
        self.medium.reserve(count as usize)?;
        Ok(())
    }
}

impl<M: Medium> Reel for FileReel<M> {
    ghost holds = { HoldsTape M.holds };

    ghost capacity = { λ r. r.capacity };

    ghost failures = { λ r. M.failures r.medium };

    ghost can_fail = { λ _. Unit {0} };

    ghost makes = { λ old new request answer. IsFileCall (medium_kind_of M.Medium) old new request answer };

    ghost GROWS = { false };

    const GROWS: bool = false;

    fn write(&mut self, bytes: &[u8]) -> Result<(), TapeFault> {
        if !self.has_room(bytes.len() as u64 + RECORD_FRAME + MARK_SIZE) {
            return Err(TapeFault::Full);
        }
        self.put_record(bytes)
    }

    fn read(&mut self, into: &mut [u8]) -> Result<usize, TapeFault> {
        let Some(length) = next_length(&mut self.medium, self.offset)? else {
            return Ok(0);
        };
        if length == 0 {
            self.offset += MARK_SIZE;
            return Ok(0);
        }
        let count = into.len().min(length as usize);
        let copied = self
            .medium
            .read_at(self.offset + MARK_SIZE, &mut into[..count])?;
        if copied < count {
            return Ok(0);
        }
        self.offset += entry_size(length);
        Ok(count)
    }

    fn op(&mut self, op: u32, count: u32) -> Result<(), TapeFault> {
        match op {
            MTWEOF => self.write_marks(count),
            MTFSF => self.space_files(Way::Forward, count),
            MTBSF => self.space_files(Way::Back, count),
            MTFSR => self.space_records(Way::Forward, count),
            MTBSR => self.space_records(Way::Back, count),
            MTREW => {
                self.rewind();
                Ok(())
            }
            MTNOP => Ok(()),
            _ => Err(TapeFault::BadOperation),
        }
    }

    #[tactic(auto, using(crate::proofs::ReelCalls::rewind_call))]
    fn rewind(&mut self) {
        self.offset = 0;
    }

    fn failures(&self) -> u64 {
        self.medium.failures()
    }
}
