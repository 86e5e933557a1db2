//! The whole volume on a reel.
ghost use Rattle.std.specs.Prelude.{◌≡◌, ◌<◌, ◌≤◌, ◌+◌, ℕ, List, IfOk, length};
ghost use Rattle.tape.specs.Failures.{Steps};
ghost use Rattle.tape.specs.RecordFile.{SpellsReel};
ghost use Rattle.tape.specs.Tape.{PlainEntry};
ghost use Rattle.volume_check.specs.Contents.{IsContents};
ghost use Rattle.restore.specs.Found.{AreFound, IsByVerdict, IsChecked, IsFinding, IsFoundIn, IsFoundOn};
ghost use Rattle.restore.specs.Restored.{PlainWanted};

use crate::fault::Refusal;
use crate::volume::FoundVolume;
use crate::{Shelf, Wanted};
use catalog::SumVerdict;
use dump_run::BLOCKS_LIMIT;
use rmt_wire::RECORD_LIMIT;
use std::alloc::Global;
use tape::{Medium, MediumFailed};
use volume_check::{Holding, ReelContents, VolumeEnd, check_reel, medium_sum, one_holding};

/// What was found on a reel.
#[derive(Drop)]
enum Finding {
    /// No whole volume of a dump that is wanted.
    Nothing,
    /// A whole volume of a dump that is wanted, with a verdict that is not `Equal`.
    Aside(SumVerdict),
    /// A volume that is taken.
    Taken(FoundVolume),
}

/// Returns the whole volumes of dumps that are wanted, in the order of the reels. With a catalog it
/// returns only volumes whose verdict is `Equal`, and sets the other reels aside. Reads each reel
/// once, in pieces as long as `room`.
pub(crate) fn find_volumes<S: Shelf>(
    alloc: Global,
    shelf: &mut S,
    wanted: &Wanted<'_>,
    room: &mut [u8],
) -> Result<Vec<FoundVolume>, Refusal>
    requires { 0 < length room.old }
    ensures same { Steps S.holds shelf.old shelf.new (λ old new. new ≡ old) }
    ensures found { (reels : List (List ℕ)) → S.holds shelf.old reels → IfOk result (λ found. AreFound reels wanted.now (length reels) found.items) }
{
    let mut found = Vec::new(alloc);
    let count = shelf.count();
    for number in 0..count {
        let volume = look(shelf, number, wanted, room)?;
        add_found(&mut found, volume)?;
    }
    Ok(found)
}

fn add_found(found: &mut Vec<FoundVolume>, volume: Option<FoundVolume>) -> Result<(), Refusal>
    ensures { (reels : List (List ℕ)) (wanted : PlainWanted) (number : ℕ) → IsFoundOn reels wanted number volume → AreFound reels wanted number found.old.items →
        IfOk result (λ _. AreFound reels wanted (number + 1) found.new.items) }
{
    let Some(volume) = volume else {
        return Ok(());
    };
    if found.push(volume).is_err() {
        return Err(Refusal::OutOfMemory);
    }
    Ok(())
}

/// Returns the volume on a reel, if it is taken. Sets the reel aside if it has another verdict.
fn look<S: Shelf>(
    shelf: &mut S,
    number: usize,
    wanted: &Wanted<'_>,
    room: &mut [u8],
) -> Result<Option<FoundVolume>, Refusal>
    requires { 0 < length room.old }
    ensures same { Steps S.holds shelf.old shelf.new (λ old new. new ≡ old) }
    ensures found { (reels : List (List ℕ)) → S.holds shelf.old reels → number < length reels → IfOk result (λ found. IsFoundOn reels wanted.now number found) }
{
    let Ok(mut reel) = shelf.open(number) else {
        return Err(Refusal::Unreadable { reel: number });
    };
    let found = find_volume(&mut reel, number, wanted, room);
    shelf.close(reel);
    match found {
        Ok(Finding::Taken(volume)) => Ok(Some(volume)),
        Ok(Finding::Aside(verdict)) => {
            shelf.set_aside(number, verdict);
            Ok(None)
        }
        Ok(Finding::Nothing) => Ok(None),
        Err(_) => Err(Refusal::Unreadable { reel: number }),
    }
}

fn find_volume<M: Medium>(
    reel: &mut M,
    number: usize,
    wanted: &Wanted<'_>,
    room: &mut [u8],
) -> Result<Finding, MediumFailed>
    requires { 0 < length room.old }
    ensures { (bytes : List ℕ) → M.holds reel.old bytes → IfOk result (λ found. IsFinding bytes wanted.now number found) }
{
    let contents = contents_of(reel, wanted.lines.is_some(), room)?;
    let Some(volume) = whole_volume(number, contents) else {
        return Ok(Finding::Nothing);
    };
    one_holding();
    if !wanted.fits(&volume.label) {
        return Ok(Finding::Nothing);
    }
    let Some(lines) = wanted.lines else {
        return Ok(Finding::Taken(volume));
    };
    let sum = medium_sum(reel, room)?;
    let verdict = lines.compare(&volume.label, &sum);
    Ok(by_verdict(volume, verdict))
}

fn by_verdict(volume: FoundVolume, verdict: SumVerdict) -> Finding
    ensures { IsByVerdict volume verdict result }
{
    match verdict {
        SumVerdict::Equal => Finding::Taken(volume),
        SumVerdict::Differs | SumVerdict::Anew | SumVerdict::Void | SumVerdict::Unknown => {
            Finding::Aside(verdict)
        }
    }
}

/// Reads the bytes of the records only if they are not hashed later.
fn contents_of<M: Medium>(
    reel: &mut M,
    is_hashed: bool,
    room: &mut [u8],
) -> Result<ReelContents, MediumFailed>
    ensures same { Steps M.holds reel.old reel.new (λ old new. new ≡ old) }
    ensures told { (bytes : List ℕ) (entries : List PlainEntry) → M.holds reel.old bytes → SpellsReel bytes entries →
        IfOk result (λ contents. IsContents contents bytes entries) }
{
    if is_hashed {
        check_reel(reel, &mut [])
    } else {
        check_reel(reel, room)
    }
}

fn whole_volume(number: usize, contents: ReelContents) -> Option<FoundVolume>
    ensures { (bytes : List ℕ) → IsChecked bytes contents → IsFoundIn bytes number result }
{
    one_holding();
    let ReelContents { holding, tail, .. } = contents;
    let Holding::Volume(volume) = holding else {
        return None;
    };
    let VolumeEnd::OneMark = volume.end else {
        return None;
    };
    if tail != 0 {
        return None;
    }
    if volume.blocks > u64::from(BLOCKS_LIMIT) || volume.block_bytes > RECORD_LIMIT {
        return None;
    }
    Some(FoundVolume {
        reel: number,
        label: volume.label,
        blocks: volume.blocks,
        block_bytes: volume.block_bytes,
    })
}
