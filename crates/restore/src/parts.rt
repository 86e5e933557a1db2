//! The volumes that are there of one dump, and the blocks that are missing.
ghost use Rattle.std.specs.Prelude.{◌≡◌, ◌⊎◌, Contains, ◌≤◌, ◌-◌, ◌^◌, ◌++◌, ◌∷◌, [], ℕ, All, List, IfOk, length};
ghost use Rattle.rmt_wire.specs.declared.limits.TheConstants.{RECORD_LIMIT};
ghost use Rattle.tape.specs.Failures.{Steps};
ghost use Rattle.restore.specs.Chain.{AreAlike, IsAmong};
ghost use Rattle.restore.specs.Found.{IsFound};
ghost use Rattle.restore.specs.Partial.{blocks_for, gap_at, gap_behind};
ghost use Rattle.restore.specs.Spaced.{AreOfOneDump, IsSpacing};

use crate::Shelf;
use crate::chain::{check_alike, repeated};
use crate::equal::are_equal;
use crate::fault::Refusal;
use crate::gap::Gap;
use crate::volume::FoundVolume;
use std::alloc::Global;

/// Volumes of one dump, each beginning at or after the end of the one before it.
#[derive(Drop)]
pub(crate) struct Parts {
    /// The volumes, in the order of their numbers.
    pub(crate) volumes: Vec<FoundVolume>,
    /// The ranges of blocks that are missing before and between the volumes.
    pub(crate) gaps: Vec<Gap>,
    /// How many bytes each block has, 0 if there is no block.
    pub(crate) size: usize,
    /// The number of the block at which the last volume ends.
    pub(crate) end: u64,
    /// The least number that the next volume can have.
    pub(crate) next: u64,
    ghost small: { size ≤ RECORD_LIMIT },
    ghost near: { end ≤ 2 ^ 33 },
}

/// Returns the parts of a dump that these volumes are. If reels have the same volume, it takes one
/// of them, and they must have the same bytes. It compares them in pieces half as long as `room`.
pub(crate) fn parts_of<S: Shelf>(
    alloc: Global,
    shelf: &mut S,
    mut found: Vec<FoundVolume>,
    room: &mut [u8],
) -> Result<Parts, Refusal>
    requires { 2 ≤ length room.old }
    ensures same { Steps S.holds shelf.old shelf.new (λ old new. new ≡ old) }
    ensures spaced { (reels : List (List ℕ)) → S.holds shelf.old reels → All (λ f. (blocks : List (List ℕ)) × IsFound reels f blocks) found.items →
        IfOk result (λ parts. AreOfOneDump reels parts.size parts.volumes.items × All (λ f. IsAmong reels parts.volumes.items f.reel) found.items) }
    ensures spacing { IfOk result (λ parts. IsSpacing parts.volumes.items parts.gaps.items parts.end parts.next) }
    ensures from { IfOk result (λ parts. All (Contains found.items) parts.volumes.items) }
{
    found.sort_unstable_by(|one, other| other.label.volume().cmp(&one.label.volume()));
    let mut parts = Parts {
        volumes: Vec::new(alloc),
        gaps: Vec::new(alloc),
        size: 0,
        end: 0,
        next: 1,
    };
    while let Some(volume) = found.pop() {
        parts.take(shelf, volume, room)?;
    }
    Ok(parts)
}

impl Parts {
    /// Takes a volume: a later one, or one that has the same bytes as the last one.
    fn take<S: Shelf>(
        &mut self,
        shelf: &mut S,
        volume: FoundVolume,
        room: &mut [u8],
    ) -> Result<(), Refusal>
        requires { 2 ≤ length room.old }
        ensures same { Steps S.holds shelf.old shelf.new (λ old new. new ≡ old) }
        ensures spaced { (reels : List (List ℕ)) (blocks : List (List ℕ)) → S.holds shelf.old reels → IsFound reels volume blocks →
            AreOfOneDump reels self.old.size self.old.volumes.items →
            IsSpacing self.old.volumes.items self.old.gaps.items self.old.end self.old.next →
            IfOk result (λ _. AreOfOneDump reels self.new.size self.new.volumes.items × IsAmong reels self.new.volumes.items volume.reel) }
        ensures spacing { IsSpacing self.old.volumes.items self.old.gaps.items self.old.end self.old.next →
            IfOk result (λ _. IsSpacing self.new.volumes.items self.new.gaps.items self.new.end self.new.next) }
        ensures grown { IfOk result (λ _. (self.new.volumes.items ≡ self.old.volumes.items) ⊎ (self.new.volumes.items ≡ self.old.volumes.items ++ volume ∷ [])) }
    {
        let Some(reel) = repeated(&self.volumes, &volume) else {
            return self.add(volume);
        };
        if are_equal(shelf, reel, volume.reel, room)? {
            return Ok(());
        }
        Err(Refusal::TwoReels {
            reel,
            other: volume.reel,
        })
    }

    fn add(&mut self, volume: FoundVolume) -> Result<(), Refusal>
        ensures spaced { (reels : List (List ℕ)) (blocks : List (List ℕ)) → IsFound reels volume blocks → AreOfOneDump reels self.old.size self.old.volumes.items →
            IsSpacing self.old.volumes.items self.old.gaps.items self.old.end self.old.next →
            IfOk result (λ _. AreOfOneDump reels self.new.size self.new.volumes.items) }
        ensures spacing { IsSpacing self.old.volumes.items self.old.gaps.items self.old.end self.old.next →
            IfOk result (λ _. IsSpacing self.new.volumes.items self.new.gaps.items self.new.end self.new.next) }
        ensures added { IfOk result (λ _. self.new.volumes.items ≡ self.old.volumes.items ++ volume ∷ []) }
    {
        self.check_later(&volume)?;
        let first = u64::from(volume.label.first());
        let number = u64::from(volume.label.volume());
        let (size, end) = (volume.block_bytes, first + volume.blocks);
        add_gap(&mut self.gaps, self.end, first)?;
        if self.volumes.push(volume).is_err() {
            return Err(Refusal::OutOfMemory);
        }
        (self.size, self.end, self.next) = (size, end, number + 1);
        Ok(())
    }

    /// If the size of a block is not known, no block can be missing before a volume.
    fn check_later(&self, volume: &FoundVolume) -> Result<(), Refusal>
        ensures number { IfOk result (λ _. self.now.next ≤ volume.now.label.volume) }
        ensures first { IfOk result (λ _. self.now.end ≤ volume.now.label.first) }
        ensures sized { IfOk result (λ _. volume.now.block_bytes ≡ 0 → volume.now.label.first ≡ self.now.end) }
        ensures alike { IfOk result (λ _. AreAlike self.now.volumes.items volume.now) }
    {
        if let Some(first) = self.volumes.first() {
            check_alike(first, volume)?;
        }
        let first = u64::from(volume.label.first());
        let is_later = u64::from(volume.label.volume()) >= self.next && first >= self.end;
        if is_later && (volume.block_bytes > 0 || first == self.end) {
            return Ok(());
        }
        Err(Refusal::Displaced {
            reel: volume.reel,
            end: self.end,
        })
    }
}

fn add_gap(gaps: &mut Vec<Gap>, first: u64, end: u64) -> Result<(), Refusal>
    ensures { IfOk result (λ _. gaps.new.items ≡ gaps.old.items ++ gap_at first (end - first)) }
{
    if end <= first {
        return Ok(());
    }
    if gaps.push(Gap { first, end }).is_err() {
        return Err(Refusal::OutOfMemory);
    }
    Ok(())
}

/// If a length in bytes is asked, adds the gap from block `end` to the end of that length, if it
/// has a block.
pub(crate) fn add_last_gap(
    gaps: &mut Vec<Gap>,
    end: u64,
    size: usize,
    asked: Option<u64>,
) -> Result<(), Refusal>
    ensures { IfOk result (λ _. gaps.new.items ≡ gaps.old.items ++ gap_behind asked size end) }
{
    match asked {
        Some(bytes) => add_gap(gaps, end, blocks_of(bytes, size)),
        None => Ok(()),
    }
}

fn blocks_of(bytes: u64, size: usize) -> u64
    ensures { result ≡ blocks_for size bytes }
{
    if size == 0 {
        0
    } else {
        bytes.div_ceil(size as u64)
    }
}
