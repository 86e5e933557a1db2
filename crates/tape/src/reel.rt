//! The trait of reels.

ghost use Rattle.std.specs.Prelude.{◌≡◌, ◌≤◌, ℕ, Bool, IfOk, length};
ghost use Rattle.tape.specs.Tape.{Tape, TapeRequest, TapeAnswer, IsRecord, op_request, done_answer, given_answer};
ghost use Rattle.tape.specs.Tape.TapeRequest.{Write, Read, Rewind};
ghost use Rattle.tape.specs.Tape.TapeAnswer.{Done};
ghost use Rattle.tape.specs.Call.{IsTapeCall, reel_kind};

use crate::TapeFault;

/// A reel of tape.
///
/// `ReelKind` explains the ghost items. Each call keeps the promises of `IsTapeCall`. Those about
/// entries apply only if the tape is known. `TapeFault` says what remains after each error.
pub trait Reel {
    ghost holds: { Self → Tape → Type 0 };

    ghost capacity: { Self → ℕ };

    ghost failures: { Self → ℕ };

    ghost can_fail: { Self → Type 0 };

    ghost makes: { Self → Self → TapeRequest → TapeAnswer → Type 0 };

    ghost GROWS: { Bool };

    /// Whether a call can allocate. If not, no call returns `OutOfMemory`.
    const GROWS: bool;

    /// Writes one record, of 1 to 262,144 bytes, at the place and moves past it. All entries that
    /// were after the place are lost.
    ///
    /// Fails with `Full` unless its length plus 12 bytes fit from the place on. It takes 8 of
    /// these, and 4 are kept so that a mark still fits after it. Fails with `OutOfMemory` if an
    /// allocation fails, and with `Device` if the medium failed.
    fn write(&mut self, bytes: &[u8]) -> Result<(), TapeFault>
        requires { IsRecord bytes.now }
        ensures { IsTapeCall (reel_kind holds capacity failures can_fail makes GROWS) self.old self.new
            (Write bytes.now) (done_answer result) };

    /// Reads the record at the place and moves past it.
    ///
    /// Copies its first bytes to the front of `into`, as many as fit, and returns how many. At a
    /// mark it moves past the mark and returns 0. At the end it stays and returns 0. Fails with
    /// `Device` if the medium failed.
    fn read(&mut self, into: &mut [u8]) -> Result<usize, TapeFault>
        ensures bound { IfOk result (λ n. n ≤ length into.new) }
        ensures call { IsTapeCall (reel_kind holds capacity failures can_fail makes GROWS) self.old self.new
            (Read (length into.old)) (given_answer result into.new) };

    /// Carries out the mtio operation with the number `op`, as the `I` request of rmt(8) does.
    ///
    /// - 0, `MTWEOF`: writes `count` marks, of 4 bytes each, at the place and moves past them. All
    ///   entries that were after the place are lost.
    /// - 1, `MTFSF`: moves forward past `count` marks, or to the end if there are fewer.
    /// - 2, `MTBSF`: moves back past `count` marks, or to the beginning if there are fewer.
    /// - 3, `MTFSR`: moves forward past `count` records. Stops after a mark that it meets, or at
    ///   the end.
    /// - 4, `MTBSR`: moves back past `count` records. Stops before a mark that it meets, or at the
    ///   beginning.
    /// - 5, `MTREW`: moves to the beginning, whatever the count.
    /// - 7, `MTNOP`: does nothing.
    ///
    /// With a count of 0, operations 0 to 4 change nothing and succeed. Otherwise they fail with
    /// `Device` if the medium failed. Operations 1 to 4 fail with `EndOrMark` if they stop before
    /// their count is reached. `MTWEOF` fails with `Full` if the marks do not all fit, and with
    /// `OutOfMemory` if an allocation fails. Any other number fails with `BadOperation`.
    fn op(&mut self, op: u32, count: u32) -> Result<(), TapeFault>
        ensures { IsTapeCall (reel_kind holds capacity failures can_fail makes GROWS) self.old self.new
            (op_request op count) (done_answer result) };

    /// Moves the place to the beginning. Never fails.
    fn rewind(&mut self)
        ensures { IsTapeCall (reel_kind holds capacity failures can_fail makes GROWS) self.old self.new Rewind Done };

    /// Returns how often the device has failed, at most the greatest `u64`.
    fn failures(&self) -> u64
        ensures { result ≡ failures self.now };
}
