//! Compares two reels.
ghost use Rattle.std.specs.Prelude.{◌≡◌, ◌<◌, ◌≤◌, ◌+◌, ◌*◌, ℕ, List, [], IfOk, IsTrue, get_or, length, take, drop};
ghost use Rattle.tape.specs.Failures.{Steps};

use crate::Shelf;
use crate::fault::Refusal;
use tape::{Medium, MediumFailed};

/// Whether two reels of a shelf have the same bytes. Reads both in pieces half as long as `room`.
pub(crate) fn are_equal<S: Shelf>(
    shelf: &mut S,
    reel: usize,
    other: usize,
    room: &mut [u8],
) -> Result<bool, Refusal>
    requires { 2 ≤ length room.old }
    ensures same { Steps S.holds shelf.old shelf.new (λ old new. new ≡ old) }
    ensures equal { (reels : List (List ℕ)) → S.holds shelf.old reels → reel < length reels → other < length reels →
        IfOk result (λ are. IsTrue are → get_or reels other [] ≡ get_or reels reel []) }
{
    let Ok(mut one) = shelf.open(reel) else {
        return Err(Refusal::Unreadable { reel });
    };
    let Ok(mut two) = shelf.open(other) else {
        shelf.close(one);
        return Err(Refusal::Unreadable { reel: other });
    };
    let are = have_equal_bytes(&mut one, &mut two, room);
    shelf.close(two);
    shelf.close(one);
    match are {
        Ok(are) => Ok(are),
        Err(MediumFailed) => Err(Refusal::Unreadable { reel }),
    }
}

fn have_equal_bytes<M: Medium>(
    one: &mut M,
    two: &mut M,
    room: &mut [u8],
) -> Result<bool, MediumFailed>
    requires { 2 ≤ length room.old }
    ensures { (bytes others : List ℕ) → M.holds one.old bytes → M.holds two.old others → IfOk result (λ are. IsTrue are → others ≡ bytes) }
{
    let len = one.len()?;
    if two.len()? != len {
        return Ok(false);
    }
    let (first, second) = room.split_at_mut(room.len() / 2);
    let mut at: u64 = 0;
    while at < len {
        let piece = (first.len() as u64).min(len - at) as usize;
        if !are_pieces_equal(one, two, at, &mut first[..piece], &mut second[..piece])? {
            return Ok(false);
        }
        at += piece as u64;
    }
    Ok(true)
}

fn are_pieces_equal<M: Medium>(
    one: &mut M,
    two: &mut M,
    at: u64,
    first: &mut [u8],
    second: &mut [u8],
) -> Result<bool, MediumFailed>
    requires { length second.old ≡ length first.old }
    ensures one { Steps M.holds one.old one.new (λ old new. new ≡ old) }
    ensures two { Steps M.holds two.old two.new (λ old new. new ≡ old) }
    ensures equal { (bytes others : List ℕ) → M.holds one.old bytes → M.holds two.old others → at + length first.old ≤ length bytes →
        at + length first.old ≤ length others →
        IfOk result (λ are. IsTrue are → take (length first.old) (drop at others) ≡ take (length first.old) (drop at bytes)) }
{
    let count = one.read_at(at, first)?;
    let other = two.read_at(at, second)?;
    Ok(count == first.len() && other == second.len() && *first == *second)
}
