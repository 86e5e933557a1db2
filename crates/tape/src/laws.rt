//! Laws of tapes and record files. Each is the contract of a function that does nothing.

ghost use Rattle.std.specs.Prelude.{◌≡◌, ◌≢◌, ◌↔◌, ◌≤◌, ◌<◌, ◌^◌, ℕ, List};
ghost use Rattle.tape.specs.Tape.{PlainEntry, Tape, TapeRequest, TapeAnswer};
ghost use Rattle.tape.specs.Tape.TapeAnswer.{Fault};
ghost use Rattle.tape.specs.RecordFile.{SpellsReel, SpellsReelUpTo, IsFile, IsWrittenUpTo, entries_in, tape_in};
ghost use Rattle.tape.specs.Trouble.{AreTapeSteps, DeviceStep, TroubledTape, TroubledStep, IsTroubledCall};
ghost use Rattle.tape.specs.declared.fault.TapeFault.TheVariants.{Device};
ghost use Rattle.tape.specs.declared.trouble.Trouble.{Trouble};
ghost use Rattle.tape.specs.declared.trouble.Trouble.TheVariants.{None};
ghost use Rattle.tape.specs.declared.laws.TheConstants.{OLDER_RECORD_LIMIT};

use rmt_wire::RECORD_LIMIT;

/// Law: `TapeStep` allows all that a call can do to a reel with a trouble (an injected fault).
///
/// With `Trouble::None`, no call fails with `Device`. A `TroubledReel` keeps the promises of every
/// `Reel`.
#[tactic(auto, using(crate::proofs::Devices::tape_step, crate::proofs::Devices::untroubled, crate::proofs::Devices::troubled_call))]
pub fn device_steps()
    ensures step { (capacity : ℕ) (trouble : Trouble) → AreTapeSteps capacity (DeviceStep capacity trouble) }
    ensures untroubled { (capacity : ℕ) (t : Tape) (request : TapeRequest) (answer : TapeAnswer) (u : Tape) →
        DeviceStep capacity None t request answer u → answer ≢ Fault Device }
    ensures call { (old new : TroubledTape) (request : TapeRequest) (answer : TapeAnswer) →
        TroubledStep old new request answer → IsTroubledCall old new request answer }
{}

/// Law: each list of bytes encodes exactly one list of entries, and with an offset at most one
/// tape.
pub fn one_spelling()
    ensures entries { (bytes : List ℕ) (entries : List PlainEntry) → SpellsReel bytes entries ↔ (entries ≡ entries_in bytes) }
    ensures tape { (bytes : List ℕ) (offset : ℕ) (t : Tape) → IsFile bytes offset t → t ≡ tape_in offset bytes }
{}

/// The greatest length of a record, in bytes, before `rmt_wire::RECORD_LIMIT` was raised. Earlier
/// servers wrote reels with no other limit.
pub const OLDER_RECORD_LIMIT: usize = 65536;

/// Law: a reel that was written under `OLDER_RECORD_LIMIT` has the same entries under
/// `rmt_wire::RECORD_LIMIT`, even if its last write was stopped halfway.
pub fn older_reels()
    ensures { (bytes : List ℕ) (entries : List PlainEntry) →
        IsWrittenUpTo OLDER_RECORD_LIMIT bytes → SpellsReelUpTo OLDER_RECORD_LIMIT bytes entries ↔ SpellsReel bytes entries }
{
    greater_limit(OLDER_RECORD_LIMIT, RECORD_LIMIT);
}

/// Law: a reel that was written under the record limit `older` has the same entries under any
/// greater limit `newer` below 2^32. Its last write may have been stopped halfway.
#[tactic(auto, using(crate::proofs::Limits::same_entries))]
pub fn greater_limit(older: usize, newer: usize)
    requires order { older ≤ newer }
    requires range { newer < 2 ^ 32 }
    ensures { (bytes : List ℕ) (entries : List PlainEntry) →
        IsWrittenUpTo older bytes → SpellsReelUpTo older bytes entries ↔ SpellsReelUpTo newer bytes entries }
{}
