//! The volumes of one dump, in order.
ghost use Rattle.std.specs.Prelude.{◌≡◌, ◌⊎◌, Contains, ◌<◌, ◌≤◌, ◌+◌, ◌++◌, ◌∷◌, [], ◌^◌, ℕ, All, List, IfOk, IfSome, length};
ghost use Rattle.restore.specs.Chain.{AreAlike, AreOfOneChain, IsAmong, IsChain, IsReelOf};
ghost use Rattle.restore.specs.Found.{IsFound};
ghost use Rattle.tape.specs.Failures.{Steps};

use crate::Shelf;
use crate::equal::are_equal;
use crate::fault::Refusal;
use crate::volume::FoundVolume;
use std::alloc::Global;

/// The volumes of one dump from volume 1 on, each beginning where the one before it ends.
#[derive(Drop)]
pub(crate) struct Chain {
    /// The volumes, in the order of their numbers.
    pub(crate) volumes: Vec<FoundVolume>,
    /// The number of the block at which the last one ends.
    pub(crate) end: u64,
}

/// Returns the chain of these volumes. If reels have the same volume, it takes one of them, and
/// they must have the same bytes. It compares them in pieces half as long as `room`.
pub(crate) fn chain_of<S: Shelf>(
    alloc: Global,
    shelf: &mut S,
    mut found: Vec<FoundVolume>,
    room: &mut [u8],
) -> Result<Chain, Refusal>
    requires { 2 ≤ length room.old }
    ensures same { Steps S.holds shelf.old shelf.new (λ old new. new ≡ old) }
    ensures chain { (reels : List (List ℕ)) → S.holds shelf.old reels → All (λ f. (blocks : List (List ℕ)) × IsFound reels f blocks) found.items →
        IfOk result (λ chain. IsChain reels chain.volumes.items chain.end × All (λ f. IsAmong reels chain.volumes.items f.reel) found.items) }
    ensures from { IfOk result (λ chain. All (Contains found.items) chain.volumes.items) }
{
    found.sort_unstable_by(|one, other| other.label.volume().cmp(&one.label.volume()));
    let mut chain = Chain {
        volumes: Vec::new(alloc),
        end: 0,
    };
    while let Some(volume) = found.pop() {
        chain.take(shelf, volume, room)?;
    }
    Ok(chain)
}

impl Chain {
    /// Takes a volume: the next one, or one that has the same bytes as the last one.
    fn take<S: Shelf>(
        &mut self,
        shelf: &mut S,
        volume: FoundVolume,
        room: &mut [u8],
    ) -> Result<(), Refusal>
        requires { 2 ≤ length room.old }
        ensures same { Steps S.holds shelf.old shelf.new (λ old new. new ≡ old) }
        ensures chain { (reels : List (List ℕ)) (blocks : List (List ℕ)) → S.holds shelf.old reels → IsFound reels volume blocks →
            IsChain reels self.old.volumes.items self.old.end →
            IfOk result (λ _. IsChain reels self.new.volumes.items self.new.end × IsAmong reels self.new.volumes.items volume.reel) }
        ensures grown { IfOk result (λ _. (self.new.volumes.items ≡ self.old.volumes.items) ⊎ (self.new.volumes.items ≡ self.old.volumes.items ++ volume ∷ [])) }
    {
        let Some(reel) = repeated(&self.volumes, &volume) else {
            return self.add(volume);
        };
        if are_equal(shelf, reel, volume.reel, room)? {
            return Ok(());
        }
        Err(Refusal::TwoReels {
            reel,
            other: volume.reel,
        })
    }

    fn add(&mut self, volume: FoundVolume) -> Result<(), Refusal>
        ensures chain { (reels : List (List ℕ)) (blocks : List (List ℕ)) → IsFound reels volume blocks → IsChain reels self.old.volumes.items self.old.end →
            IfOk result (λ _. IsChain reels self.new.volumes.items self.new.end) }
        ensures added { IfOk result (λ _. self.new.volumes.items ≡ self.old.volumes.items ++ volume ∷ []) }
    {
        self.check_next(&volume)?;
        let end = self.end + volume.blocks;
        if self.volumes.push(volume).is_err() {
            return Err(Refusal::OutOfMemory);
        }
        self.end = end;
        Ok(())
    }

    fn check_next(&self, volume: &FoundVolume) -> Result<(), Refusal>
        ensures number { IfOk result (λ _. volume.now.label.volume ≡ length self.now.volumes.items + 1) }
        ensures first { IfOk result (λ _. volume.now.label.first ≡ self.now.end) }
        ensures alike { IfOk result (λ _. AreAlike self.now.volumes.items volume.now) }
    {
        if let Some(first) = self.volumes.first() {
            check_alike(first, volume)?;
        }
        let number = self.volumes.len();
        if volume.label.volume() as usize - 1 != number {
            return Err(Refusal::Missing {
                volume: number as u64 + 1,
            });
        }
        if u64::from(volume.label.first()) != self.end {
            return Err(Refusal::Displaced {
                reel: volume.reel,
                end: self.end,
            });
        }
        Ok(())
    }
}

/// Returns the reel of the last of these volumes, if it has the number and the dump of this volume.
pub(crate) fn repeated(volumes: &[FoundVolume], volume: &FoundVolume) -> Option<usize>
    ensures { IfSome result (λ reel. IsReelOf volumes.now reel) }
{
    let last = volumes.last()?;
    if last.label.volume() == volume.label.volume() && last.label.is_same_dump(&volume.label) {
        Some(last.reel)
    } else {
        None
    }
}

pub(crate) fn check_alike(volume: &FoundVolume, other: &FoundVolume) -> Result<(), Refusal>
    ensures { IfOk result (λ _. AreOfOneChain volume.now other.now) }
{
    let (reel, next) = (volume.reel, other.reel);
    if !volume.label.is_same_dump(&other.label) {
        return Err(Refusal::TwoDumps { reel, other: next });
    }
    if volume.block_bytes != other.block_bytes {
        return Err(Refusal::TwoSizes { reel, other: next });
    }
    Ok(())
}
