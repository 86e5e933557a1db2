//! Restores what can be had of a payload.
ghost use Rattle.std.specs.Prelude.{◌≡◌, ◌++◌, ◌≢◌, ℕ, List, [], IfErr, IfOk, MatchResult};
ghost use Rattle.std.specs.Io.KnownBytes.{Appends};
ghost use Rattle.tape.specs.Failures.{Steps};
ghost use Rattle.restore.specs.Partial.{IsBrokenOff, IsPartial, gap_behind};
ghost use Rattle.restore.specs.Restored.{IsUntouched};
ghost use Rattle.restore.specs.Spaced.{ArePresent, end_after, gaps_in};

use crate::fault::{Refusal, RestoreFault};
use crate::fill::write_filled;
use crate::found::find_volumes;
use crate::gap::Gap;
use crate::parts::{Parts, add_last_gap, parts_of};
use crate::restored::ROOM;
use crate::write::WriteFault;
use crate::{Shelf, Wanted};
use rmt_wire::Counted;
use std::alloc::Global;
use std::io::Write;

/// Writes what can be had of a dump's payload to an output, from the reels of a shelf in any order.
/// It writes zero bytes for each missing block, and returns the ranges of missing blocks in
/// ascending order.
///
/// It reads and checks the reels as `restore` does. At least one must have a whole volume of a dump
/// that is wanted, and all such volumes must be of one dump and have blocks of one size. Each
/// volume must begin at or after the end of the one before it.
///
/// `length` is the length of the payload in bytes, or None if it is not known. If it is known, the
/// call writes exactly this many bytes: it cuts the payload there, or fills it up with zero bytes.
/// If not, the payload ends with the last volume. The fields `length` and `volumes` of `wanted` are
/// not used.
///
/// Each range of blocks that is missing before a volume is returned, even if the payload ends
/// before this range. If the payload goes beyond the last volume, the last range has the blocks
/// from there to the payload's end. If no volume has a block, the size of a block is not known. In
/// this case each volume must begin at block 0, and no range is returned.
///
/// It allocates room for one record, for each volume, and for each range.
pub fn restore_partial<S: Shelf, W: Write>(
    alloc: Global,
    shelf: &mut S,
    wanted: &Wanted<'_>,
    length: Option<u64>,
    out: &mut Counted<W>,
) -> Result<Vec<Gap>, RestoreFault>
    ensures gained { (reels : List (List ℕ)) → S.holds shelf.old reels →
        MatchResult result (λ gaps. (bytes : List ℕ) × IsPartial reels wanted.now length bytes gaps.items × Appends (W.contents out.old.inner) (W.contents out.new.inner) bytes)
        (λ fault. IsBrokenOff reels wanted.now length (W.contents out.old.inner) (W.contents out.new.inner) fault) }
    ensures refused { IfErr result (λ fault. IsUntouched fault out.old out.new) }
    ensures same { Steps S.holds shelf.old shelf.new (λ old new. new ≡ old) }
{
    let Ok(mut room) = Box::new(alloc, [0; ROOM]) else {
        return Err(RestoreFault::Refused(Refusal::OutOfMemory));
    };
    let parts = match choose_parts(alloc, shelf, wanted, length, &mut *room) {
        Ok(parts) => parts,
        Err(refusal) => return Err(RestoreFault::Refused(refusal)),
    };
    let total = length.unwrap_or(parts.end * parts.size as u64);
    match write_filled(shelf, &parts.volumes, total, &mut *room, out) {
        Ok(()) => Ok(parts.gaps),
        Err(WriteFault::Reel { reel }) => Err(RestoreFault::Reel { reel }),
        Err(WriteFault::Output) => Err(RestoreFault::Output),
    }
}

fn choose_parts<S: Shelf>(
    alloc: Global,
    shelf: &mut S,
    wanted: &Wanted<'_>,
    length: Option<u64>,
    room: &mut [u8; ROOM],
) -> Result<Parts, Refusal>
    ensures same { Steps S.holds shelf.old shelf.new (λ old new. new ≡ old) }
    ensures present { (reels : List (List ℕ)) → S.holds shelf.old reels → IfOk result (λ parts. ArePresent reels wanted.now parts.size parts.volumes.items) }
    ensures some { IfOk result (λ parts. parts.volumes.items ≢ []) }
    ensures gaps { IfOk result (λ parts. parts.gaps.items ≡ gaps_in 0 parts.volumes.items ++ gap_behind length parts.size (end_after 0 parts.volumes.items)) }
    ensures ends { IfOk result (λ parts. parts.end ≡ end_after 0 parts.volumes.items) }
{
    let found = find_volumes(alloc, shelf, wanted, room)?;
    let mut parts = parts_of(alloc, shelf, found, room)?;
    if parts.volumes.is_empty() {
        return Err(Refusal::NoVolume);
    }
    let (end, size) = (parts.end, parts.size);
    add_last_gap(&mut parts.gaps, end, size, length)?;
    Ok(parts)
}
