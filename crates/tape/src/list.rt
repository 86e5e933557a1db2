//! A reel in memory.

ghost use Rattle.std.specs.Prelude.{◌≡◌, ◌≢◌, ◌≤◌, ◌↔◌, IfOk, [], length, true};
ghost use Rattle.std.specs.List.{All};
ghost use Rattle.tape.specs.Tape.{IsRecord, IsTapeEntry, entries_of, TapeStep, op_request, done_answer, given_answer, tape};
ghost use Rattle.tape.specs.Tape.TapeRequest.{Write, Read, WriteMarks, Rewind};
ghost use Rattle.tape.specs.Tape.TapeAnswer.{Done};
ghost use Rattle.tape.specs.Tape.PlainEntry.{Mark};
ghost use Rattle.tape.specs.List.{IsListCall, IsTape, entry_at, entry_length, entry_bytes, with_front};
ghost use Rattle.tape.specs.Trouble.{DeviceStep};
ghost use Rattle.tape.specs.declared.fault.TapeFault.TheVariants.{Device};

mod device;

use crate::entry::{MARK_SIZE, RECORD_FRAME};
use crate::scan::nth_entry;
use crate::{FileReel, MemoryMedium, Reel, TapeFault, Trouble};
use device::{put_marks, put_record};
use rmt_wire::mtio::MTWEOF;
use std::alloc::Global;
use std::marker::Model;

/// A reel in memory, stored as a record file. Its view is its tape and its capacity in bytes.
///
/// Its tape is always known. Its device never fails, so no call returns `Device`.
#[derive(Drop)]
pub struct ListReel {
    reel: FileReel<MemoryMedium>,
}

impl Model for ListReel {
    ghost use Rattle.tape.specs.List.{IsListView, ListTape, list_view};

    ghost Value = { ListTape };

    ghost view = { λ r. list_view r.reel };

    ghost invariant = { λ r. IsListView r.reel };
}

impl ListReel {
    /// Makes an empty reel with the given capacity in bytes. Allocates nothing yet.
    pub fn new(alloc: Global, capacity: u64) -> ListReel
        ensures blank { result.tape ≡ tape [] [] }
        ensures capacity { result.capacity ≡ capacity }
    {
        ListReel {
            reel: FileReel::open(MemoryMedium::new(alloc), capacity),
        }
    }

    /// Returns the length of entry number `i`, counted from 0 at the beginning, or 0 for a mark.
    ///
    /// Returns `None` if there are at most `i` entries. Copies the first bytes of a record to the
    /// front of `into`, as many as fit. The rest of `into` is unchanged.
    pub fn entry(&self, i: usize, into: &mut [u8]) -> Option<usize>
        ensures told { result ≡ entry_length (entry_at i self.now.tape) }
        ensures copied { into.new ≡ with_front (entry_bytes (entry_at i self.now.tape)) into.old }
        ensures mark { (result ≡ Some 0) ↔ (entry_at i self.now.tape ≡ Some Mark) }
        ensures records { All IsTapeEntry (entries_of self.now.tape) }
    {
        let bytes = nth_entry(self.reel.medium().bytes(), i)?;
        copy_front(bytes, into);
        Some(bytes.len())
    }

    /// Writes a record with a device that fails as `trouble` says.
    pub(crate) fn write_record(&mut self, bytes: &[u8], trouble: Trouble) -> Result<(), TapeFault>
        requires { IsRecord bytes.now }
        ensures step { DeviceStep self.old.capacity trouble self.old.tape (Write bytes.now) (done_answer result) self.new.tape }
        ensures capacity { self.new.capacity ≡ self.old.capacity }
    {
        let size = bytes.len() as u64 + RECORD_FRAME;
        if !self.reel.has_room(size + MARK_SIZE) {
            return Err(TapeFault::Full);
        }
        self.reel.reserve(size)?;
        put_record(&mut self.reel, bytes, trouble)
    }

    pub(crate) fn write_marks(&mut self, count: u32, trouble: Trouble) -> Result<(), TapeFault>
        ensures step { DeviceStep self.old.capacity trouble self.old.tape (WriteMarks count) (done_answer result) self.new.tape }
        ensures capacity { self.new.capacity ≡ self.old.capacity }
    {
        if count == 0 {
            return Ok(());
        }
        let size = u64::from(count) * MARK_SIZE;
        if !self.reel.has_room(size) {
            return Err(TapeFault::Full);
        }
        self.reel.reserve(size)?;
        put_marks(&mut self.reel, count, trouble)
    }
}

impl Reel for ListReel {
    ghost holds = { IsTape };

    ghost capacity = { λ r. r.capacity };

    ghost failures = { λ _. 0 };

    ghost can_fail = { λ _. ⊥ };

    ghost makes = { λ _ _ _ _. Unit {0} };

    ghost GROWS = { true };

    const GROWS: bool = true;

    fn write(&mut self, bytes: &[u8]) -> Result<(), TapeFault>
        requires { IsRecord bytes.now }
        ensures call { IsListCall self.old self.new (Write bytes.now) (done_answer result) }
        ensures step { TapeStep self.old.capacity self.old.tape (Write bytes.now) (done_answer result) self.new.tape }
        ensures device { result ≢ Err Device }
    {
        self.write_record(bytes, Trouble::None)
    }

    fn read(&mut self, into: &mut [u8]) -> Result<usize, TapeFault>
        ensures bound { IfOk result (λ n. n ≤ length into.new) }
        ensures call { IsListCall self.old self.new (Read (length into.old)) (given_answer result into.new) }
        ensures step { TapeStep self.old.capacity self.old.tape (Read (length into.old)) (given_answer result into.new) self.new.tape }
        ensures device { result ≢ Err Device }
    {
        self.reel.read(into)
    }

    fn op(&mut self, op: u32, count: u32) -> Result<(), TapeFault>
        ensures call { IsListCall self.old self.new (op_request op count) (done_answer result) }
        ensures step { TapeStep self.old.capacity self.old.tape (op_request op count) (done_answer result) self.new.tape }
        ensures device { result ≢ Err Device }
    {
        if op == MTWEOF {
            return self.write_marks(count, Trouble::None);
        }
        self.reel.op(op, count)
    }

    fn rewind(&mut self)
        ensures call { IsListCall self.old self.new Rewind Done }
        ensures step { TapeStep self.old.capacity self.old.tape Rewind Done self.new.tape }
    {
        self.reel.rewind();
    }

    fn failures(&self) -> u64 {
        0
    }
}

fn copy_front(bytes: &[u8], into: &mut [u8])
    ensures { into.new ≡ with_front bytes.now into.old }
{
    let count = bytes.len().min(into.len());
    into[..count].copy_from_slice(&bytes[..count]);
}
