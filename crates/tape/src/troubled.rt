//! A reel in memory with injected faults.

ghost use Rattle.std.specs.Prelude.{◌≡◌, ◌≢◌, ◌≤◌, ◌↔◌, IfOk, MatchBool, length, true};
ghost use Rattle.std.specs.List.{All};
ghost use Rattle.tape.specs.Failures.{raised};
ghost use Rattle.tape.specs.Tape.PlainEntry.{Mark};
ghost use Rattle.tape.specs.List.{entry_at, entry_length, entry_bytes, with_front};
ghost use Rattle.tape.specs.Tape.{IsRecord, IsTapeEntry, entries_of, op_request, done_answer, given_answer};
ghost use Rattle.tape.specs.Tape.TapeRequest.{Write, Read, WriteMarks, Rewind};
ghost use Rattle.tape.specs.Tape.TapeAnswer.{Done};
ghost use Rattle.tape.specs.Trouble.{IsTapeOf, IsTroubledCall, TroubledStep};
ghost use Rattle.tape.specs.declared.fault.TapeFault.TheVariants.{Device};
ghost use Rattle.tape.specs.declared.trouble.Trouble.TheVariants.{None};

use crate::{ListReel, Reel, TapeFault, Trouble};
use rmt_wire::mtio::{MTBSR, MTWEOF};
use std::marker::Model;

/// A reel in memory whose next device call can be made to fail. Its tape is always known.
///
/// These are device calls: a read, a write or marks that have room, and spacing. With a count of 0,
/// marks and spacing make no device call. A device call that fails is counted, and clears the
/// trouble. Any other call keeps the trouble, as does one that fails with `OutOfMemory`.
#[derive(Drop)]
pub struct TroubledReel {
    reel: ListReel,
    trouble: Trouble,
    failures: u64,
}

impl Model for TroubledReel {
    ghost use Rattle.tape.specs.Trouble.{TroubledTape};

    ghost Value = { TroubledTape };

    ghost view = { λ r. record { tape = r.reel.tape; capacity = r.reel.capacity; trouble = r.trouble; failures = r.failures } };
}

impl TroubledReel {
    /// Wraps `reel` in a reel that has no trouble set and has counted no failure.
    pub fn new(reel: ListReel) -> TroubledReel
        ensures tape { result.tape ≡ reel.tape }
        ensures capacity { result.capacity ≡ reel.capacity }
        ensures trouble { result.trouble ≡ None }
        ensures failures { result.failures ≡ 0 }
    {
        TroubledReel {
            reel,
            trouble: Trouble::None,
            failures: 0,
        }
    }

    /// Sets how the next device call fails. This replaces what was set before.
    pub fn set(&mut self, trouble: Trouble)
        ensures { self.new ≡ record self.old { trouble = trouble } }
    {
        self.trouble = trouble;
    }

    /// Returns how the next device call fails.
    pub fn next_trouble(&self) -> Trouble
        ensures { result ≡ self.now.trouble }
    {
        self.trouble
    }

    /// Like `ListReel::entry`. Makes no device call and never fails.
    pub fn entry(&self, i: usize, into: &mut [u8]) -> Option<usize>
        ensures told { result ≡ entry_length (entry_at i self.now.tape) }
        ensures copied { into.new ≡ with_front (entry_bytes (entry_at i self.now.tape)) into.old }
        ensures mark { (result ≡ Some 0) ↔ (entry_at i self.now.tape ≡ Some Mark) }
        ensures records { All IsTapeEntry (entries_of self.now.tape) }
    {
        self.reel.entry(i, into)
    }

    fn is_troubled(&self) -> bool
        ensures { MatchBool result (self.now.trouble ≢ None) (self.now.trouble ≡ None) }
    {
        self.trouble.answer().is_err()
    }

    fn fail(&mut self) -> TapeFault
        ensures fault { result ≡ Device }
        ensures counted { self.new ≡ record self.old { trouble = None; failures = raised self.old.failures } }
    {
        self.trouble = Trouble::None;
        self.failures = self.failures.saturating_add(1);
        TapeFault::Device
    }

    fn write_marks(&mut self, count: u32) -> Result<(), TapeFault>
        ensures { TroubledStep self.old self.new (WriteMarks count) (done_answer result) }
    {
        let written = self.reel.write_marks(count, self.trouble);
        if written == Err(TapeFault::Device) {
            return Err(self.fail());
        }
        written
    }
}

impl Reel for TroubledReel {
    ghost holds = { IsTapeOf };

    ghost capacity = { λ r. r.capacity };

    ghost failures = { λ r. r.failures };

    ghost can_fail = { λ r. r.trouble ≢ None };

    ghost makes = { TroubledStep };

    ghost GROWS = { true };

    const GROWS: bool = true;

    fn write(&mut self, bytes: &[u8]) -> Result<(), TapeFault>
        requires { IsRecord bytes.now }
        ensures call { IsTroubledCall self.old self.new (Write bytes.now) (done_answer result) }
        ensures step { TroubledStep self.old self.new (Write bytes.now) (done_answer result) }
    {
        let written = self.reel.write_record(bytes, self.trouble);
        if written == Err(TapeFault::Device) {
            return Err(self.fail());
        }
        written
    }

    fn read(&mut self, into: &mut [u8]) -> Result<usize, TapeFault>
        ensures bound { IfOk result (λ n. n ≤ length into.new) }
        ensures call { IsTroubledCall self.old self.new (Read (length into.old)) (given_answer result into.new) }
        ensures step { TroubledStep self.old self.new (Read (length into.old)) (given_answer result into.new) }
    {
        if self.is_troubled() {
            return Err(self.fail());
        }
        self.reel.read(into)
    }

    #[tactic(auto, using(crate::proofs::Devices::troubled_call))]
    fn op(&mut self, op: u32, count: u32) -> Result<(), TapeFault>
        ensures call { IsTroubledCall self.old self.new (op_request op count) (done_answer result) }
        ensures step { TroubledStep self.old self.new (op_request op count) (done_answer result) }
    {
        if op == MTWEOF {
            return self.write_marks(count);
        }
        if op <= MTBSR && count > 0 && self.is_troubled() {
            return Err(self.fail());
        }
        self.reel.op(op, count)
    }

    fn rewind(&mut self)
        ensures call { IsTroubledCall self.old self.new Rewind Done }
        ensures step { TroubledStep self.old self.new Rewind Done }
    {
        self.reel.rewind();
    }

    fn failures(&self) -> u64 {
        self.failures
    }
}
