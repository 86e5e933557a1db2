//! A write that stops, and the reel opened again.

ghost use Rattle.std.specs.Prelude.{◌≡◌, ◌≢◌, ◌⊎◌, ◌+◌, ◌*◌, ◌<◌, ◌∷◌, [], Err, length};
ghost use Rattle.tape.specs.Tape.{IsRecord, done_answer, entries_of};
ghost use Rattle.tape.specs.Tape.PlainEntry.{Record};
ghost use Rattle.tape.specs.Tape.TapeRequest.{Write, WriteMarks};
ghost use Rattle.tape.specs.Fuse.{CanStop};
ghost use Rattle.tape.specs.Stops.{Reopens, StandsAfterMarks, StandsAfterStep, StandsAfterWrite};
ghost use Rattle.tape.specs.declared.fault.TapeFault.TheVariants.{Device, OutOfMemory};

use crate::{FileReel, FuseMedium, Medium, Reel, TapeFault};
use rmt_wire::mtio::MTWEOF;

/// Opens the inner medium of a reel again, with a capacity in bytes. The entries are the same, and
/// the place is at the beginning.
pub fn reopened<M: Medium>(reel: FileReel<FuseMedium<M>>, capacity: u64) -> FileReel<M>
    ensures stood { Reopens M.holds reel result (λ t u. u ≡ entries_of t) }
    ensures medium { result.medium ≡ reel.medium.inner }
    ensures capacity { result.capacity ≡ capacity }
{
    FileReel::open(reel.into_medium().into_inner(), capacity)
}

/// Writes a record to a reel whose medium fails at a chosen call, and opens what remains again,
/// with a capacity in bytes.
///
/// Returns the result of the write, which is never `OutOfMemory`, and the opened reel. The entries
/// before the place remain. After them are the old entries, none, or the record.
pub fn write_and_reopen<M: Medium>(
    reel: FileReel<FuseMedium<M>>,
    bytes: &[u8],
    capacity: u64,
) -> (Result<(), TapeFault>, FileReel<M>)
    requires { IsRecord bytes.now }
    ensures stood { Reopens M.holds reel result.1 (λ t u. StandsAfterWrite t (Record bytes.now ∷ []) (done_answer result.0) u) }
    ensures step { Reopens M.holds reel result.1 (λ t u. StandsAfterStep reel.capacity t (Write bytes.now) (done_answer result.0) u) }
    ensures cause { result.0 ≡ Err Device →
        (M.can_fail reel.medium.inner ⊎ CanStop reel.medium.to_go) ⊎ (M.spare reel.medium.inner < length bytes.now + 8) }
    ensures memory { result.0 ≢ Err OutOfMemory }
    ensures capacity { result.1.capacity ≡ capacity }
{
    let mut reel = reel;
    let written = reel.write(bytes);
    (written, reopened(reel, capacity))
}

/// Like `write_and_reopen`, for `count` marks. After the place are then the old entries, or any
/// number of the marks.
pub fn mark_and_reopen<M: Medium>(
    reel: FileReel<FuseMedium<M>>,
    count: u32,
    capacity: u64,
) -> (Result<(), TapeFault>, FileReel<M>)
    ensures stood { Reopens M.holds reel result.1 (λ t u. StandsAfterMarks t count (done_answer result.0) u) }
    ensures step { Reopens M.holds reel result.1 (λ t u. StandsAfterStep reel.capacity t (WriteMarks count) (done_answer result.0) u) }
    ensures cause { result.0 ≡ Err Device →
        (M.can_fail reel.medium.inner ⊎ CanStop reel.medium.to_go) ⊎ (M.spare reel.medium.inner < 4 * count) }
    ensures memory { result.0 ≢ Err OutOfMemory }
    ensures capacity { result.1.capacity ≡ capacity }
{
    let mut reel = reel;
    let written = reel.op(MTWEOF, count);
    (written, reopened(reel, capacity))
}
