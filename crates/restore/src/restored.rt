//! Restores a payload.
ghost use Rattle.std.specs.Prelude.{◌≡◌, ◌++◌, ◌<◌, ◌≤◌, ℕ, List, Some, IfErr, IfOk, IfSome, MatchResult, IsTrue, length};
ghost use Rattle.std.specs.Io.KnownBytes.{Appends};
ghost use Rattle.rmt_wire.specs.ReplyWriter.{AppendsBeginning};
ghost use Rattle.tape.specs.Failures.{Steps};
ghost use Rattle.restore.specs.Chain.{IsChosen, IsComplete};
ghost use Rattle.restore.specs.Restored.{IsBroken, IsLengthOf, IsRestored, IsUntouched};

use crate::chain::{Chain, chain_of};
use crate::fault::{Refusal, RestoreFault};
use crate::found::find_volumes;
use crate::write::{WriteFault, write_volumes};
use crate::{Shelf, Wanted};
use rmt_wire::{Counted, RECORD_LIMIT};
use std::alloc::Global;
use std::io::Write;
use tape::LENGTH_BYTES;

/// The room for a record with its frame in a record file.
pub(crate) const ROOM: usize = RECORD_LIMIT + 2 * LENGTH_BYTES as usize;

/// Writes the payload of a dump to an output, from the reels of a shelf in any order.
///
/// All reels are read and checked before the first byte is written. The reels must have all volumes
/// of one dump that is wanted, each whole, and the payload must end in the last block. Reels
/// without a whole volume of such a dump are ignored. If reels have the same volume, they must have
/// the same bytes. The reels of the dump are then read again: what is found there must have the
/// same label and lengths as before.
///
/// It allocates room for one record, and for each volume.
pub fn restore<S: Shelf, W: Write>(
    alloc: Global,
    shelf: &mut S,
    wanted: &Wanted<'_>,
    out: &mut Counted<W>,
) -> Result<(), RestoreFault>
    ensures comes_back { (reels : List (List ℕ)) → S.holds shelf.old reels →
        MatchResult result (λ _. (bytes : List ℕ) × IsRestored reels wanted.now bytes × Appends (W.contents out.old.inner) (W.contents out.new.inner) bytes)
        (λ fault. IsBroken reels wanted.now (W.contents out.old.inner) (W.contents out.new.inner) fault) }
    ensures refused { IfErr result (λ fault. IsUntouched fault out.old out.new) }
    ensures same { Steps S.holds shelf.old shelf.new (λ old new. new ≡ old) }
{
    let Ok(mut room) = Box::new(alloc, [0; ROOM]) else {
        return Err(RestoreFault::Refused(Refusal::OutOfMemory));
    };
    let chain = match choose(alloc, shelf, wanted, &mut *room) {
        Ok(chain) => chain,
        Err(refusal) => return Err(RestoreFault::Refused(refusal)),
    };
    match write_volumes(shelf, &chain.volumes, wanted.length, &mut *room, out) {
        Ok(_) => Ok(()),
        Err(WriteFault::Reel { reel }) => Err(RestoreFault::Reel { reel }),
        Err(WriteFault::Output) => Err(RestoreFault::Output),
    }
}

fn choose<S: Shelf>(
    alloc: Global,
    shelf: &mut S,
    wanted: &Wanted<'_>,
    room: &mut [u8; ROOM],
) -> Result<Chain, Refusal>
    ensures same { Steps S.holds shelf.old shelf.new (λ old new. new ≡ old) }
    ensures chosen { (reels : List (List ℕ)) → S.holds shelf.old reels → IfOk result (λ chain. IsChosen reels wanted.now chain.volumes.items) }
{
    let found = find_volumes(alloc, shelf, wanted, room)?;
    let chain = chain_of(alloc, shelf, found, room)?;
    check_volumes(&chain, wanted.volumes)?;
    check_length(&chain, wanted.length)?;
    Ok(chain)
}

fn check_volumes(chain: &Chain, volumes: Option<u32>) -> Result<(), Refusal>
    ensures { IfOk result (λ _. IfSome volumes (λ count. length chain.now.volumes.items ≡ count)) }
{
    let Some(count) = volumes else {
        return Ok(());
    };
    let number = chain.volumes.len();
    if number < count as usize {
        return Err(Refusal::Missing {
            volume: number as u64 + 1,
        });
    }
    if number > count as usize {
        return Err(Refusal::MoreVolumes { volumes: count });
    }
    Ok(())
}

fn check_length(chain: &Chain, length: u64) -> Result<(), Refusal>
    ensures { IfOk result (λ _. IsComplete length chain.now.end chain.now.volumes.items) }
{
    let Some(first) = chain.volumes.first() else {
        return Err(Refusal::NoVolume);
    };
    if is_length_of(length, first.block_bytes, chain.end) {
        return Ok(());
    }
    Err(Refusal::OtherLength {
        blocks: chain.end,
        block_bytes: first.block_bytes,
    })
}

fn is_length_of(length: u64, block_bytes: usize, blocks: u64) -> bool
    ensures { IsTrue result → IsLengthOf length block_bytes blocks }
{
    match blocks.checked_mul(block_bytes as u64) {
        Some(bytes) => { length <= bytes && (blocks == 0 || bytes - length < block_bytes as u64) }
        None => false,
    }
}
