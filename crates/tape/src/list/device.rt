//! The writes of a reel in memory, which can be made to fail.

ghost use Rattle.std.specs.Prelude.{◌≡◌, ◌≢◌, ◌+◌, ◌*◌, ◌≤◌, ◌<◌, ◌^◌, MatchResult, [], ◌∷◌, length, replicate};
ghost use Rattle.tape.specs.Failures.{Steps};
ghost use Rattle.tape.specs.Tape.{IsRecord};
ghost use Rattle.tape.specs.Tape.PlainEntry.{Record, Mark};
ghost use Rattle.tape.specs.Media.{IsMemory};
ghost use Rattle.tape.specs.RecordFile.{HoldsTape};
ghost use Rattle.tape.specs.Trouble.{put_by};
ghost use Rattle.tape.specs.declared.fault.TapeFault.TheVariants.{Device};
ghost use Rattle.tape.specs.declared.trouble.Trouble.TheVariants.{None};

use crate::{FileReel, MemoryMedium, TapeFault, Trouble};

/// Writes a record at the place, and fails if there is a trouble. Allocates nothing.
pub(super) fn put_record(
    reel: &mut FileReel<MemoryMedium>,
    bytes: &[u8],
    trouble: Trouble,
) -> Result<(), TapeFault>
    requires record_is { IsRecord bytes.now }
    requires room { reel.old.offset + (length bytes.now + 8) < 2 ^ 64 }
    requires memory { length bytes.now + 8 ≤ reel.old.medium.spare }
    ensures step { Steps (HoldsTape IsMemory) reel.old reel.new (λ t u. u ≡ put_by trouble (Record bytes.now ∷ []) t) }
    ensures answer { MatchResult result (λ _. trouble ≡ None) (λ fault. (fault ≡ Device) × (trouble ≢ None)) }
    ensures capacity { reel.new.capacity ≡ reel.old.capacity }
{
    let start = reel.offset();
    if let Some(left) = trouble.left(1) {
        if left > 0 {
            reel.put_record(bytes)?;
        } else {
            reel.cut()?;
        }
    }
    finish_write(reel, start, trouble)
}

pub(super) fn put_marks(
    reel: &mut FileReel<MemoryMedium>,
    count: u32,
    trouble: Trouble,
) -> Result<(), TapeFault>
    requires room { reel.old.offset + 4 * count < 2 ^ 64 }
    requires memory { 4 * count ≤ reel.old.medium.spare }
    ensures step { Steps (HoldsTape IsMemory) reel.old reel.new (λ t u. u ≡ put_by trouble (replicate count Mark) t) }
    ensures answer { MatchResult result (λ _. trouble ≡ None) (λ fault. (fault ≡ Device) × (trouble ≢ None)) }
    ensures capacity { reel.new.capacity ≡ reel.old.capacity }
{
    let start = reel.offset();
    if let Some(left) = trouble.left(count) {
        reel.put_marks(left)?;
    }
    finish_write(reel, start, trouble)
}

/// Ends a write that began at `start`. With a trouble, moves back there and fails.
fn finish_write(
    reel: &mut FileReel<MemoryMedium>,
    start: u64,
    trouble: Trouble,
) -> Result<(), TapeFault>
    ensures { MatchResult result (λ _. (trouble ≡ None) × (reel.new ≡ reel.old))
        (λ fault. (fault ≡ Device) × (trouble ≢ None) × (reel.new ≡ record reel.old { offset = start })) }
{
    let answer = trouble.answer();
    if answer.is_err() {
        reel.stand_at(start);
    }
    answer
}
