//! Writes the blocks of volumes, and zero bytes for the blocks that are missing.
ghost use Rattle.std.specs.Prelude.{◌≡◌, ◌<◌, ◌≤◌, ◌+◌, ◌++◌, ℕ, List, length, take};
ghost use Rattle.rmt_wire.specs.declared.limits.TheConstants.{RECORD_LIMIT};
ghost use Rattle.tape.specs.Failures.{Steps};
ghost use Rattle.restore.specs.Found.{IsFound};
ghost use Rattle.restore.specs.Partial.{zeros};
ghost use Rattle.restore.specs.Spaced.{AreAllWritten, AreFilled, part_bytes};
ghost use Rattle.restore.specs.Written.{IsWritten};

use crate::Shelf;
use crate::volume::FoundVolume;
use crate::write::{WriteFault, write_volume};
use rmt_wire::{Counted, print_text};
use std::io::Write;

/// Writes so many bytes: the blocks of these volumes, with zero bytes for the missing ones, and
/// zero bytes behind the last one.
pub(crate) fn write_filled<S: Shelf, W: Write>(
    shelf: &mut S,
    volumes: &[FoundVolume],
    total: u64,
    room: &mut [u8],
    out: &mut Counted<W>,
) -> Result<(), WriteFault>
    requires { RECORD_LIMIT + 8 ≤ length room.old }
    ensures same { Steps S.holds shelf.old shelf.new (λ old new. new ≡ old) }
    ensures written { (reels : List (List ℕ)) (bytes : List ℕ) → S.holds shelf.old reels → AreFilled reels 0 volumes.now bytes →
        AreAllWritten (W.contents out.old.inner) (W.contents out.new.inner) (take total (bytes ++ zeros total)) result }
{
    let left = write_parts(shelf, volumes, total, room, out)?;
    write_zeros(left, room, out)
}

/// Writes at most `left` bytes, and none behind the last volume. Returns how many are left.
fn write_parts<S: Shelf, W: Write>(
    shelf: &mut S,
    volumes: &[FoundVolume],
    mut left: u64,
    room: &mut [u8],
    out: &mut Counted<W>,
) -> Result<u64, WriteFault>
    requires { RECORD_LIMIT + 8 ≤ length room.old }
    ensures same { Steps S.holds shelf.old shelf.new (λ old new. new ≡ old) }
    ensures written { (reels : List (List ℕ)) (bytes : List ℕ) → S.holds shelf.old reels → AreFilled reels 0 volumes.now bytes →
        IsWritten (W.contents out.old.inner) (W.contents out.new.inner) left bytes result }
{
    let mut end: u64 = 0;
    for volume in volumes {
        left = write_part(shelf, volume, end, left, room, out)?;
        end = u64::from(volume.label.first()) + volume.blocks;
    }
    Ok(left)
}

/// Writes zero bytes for the missing blocks from `end` on, and then the blocks of a volume.
fn write_part<S: Shelf, W: Write>(
    shelf: &mut S,
    volume: &FoundVolume,
    end: u64,
    left: u64,
    room: &mut [u8],
    out: &mut Counted<W>,
) -> Result<u64, WriteFault>
    requires { RECORD_LIMIT + 8 ≤ length room.old }
    ensures same { Steps S.holds shelf.old shelf.new (λ old new. new ≡ old) }
    ensures written { (reels blocks : List (List ℕ)) → S.holds shelf.old reels → IsFound reels volume.now blocks →
        IsWritten (W.contents out.old.inner) (W.contents out.new.inner) left (part_bytes end volume.now blocks) result }
{
    let missing = u64::from(volume.label.first()).saturating_sub(end);
    let count = (missing * volume.block_bytes as u64).min(left);
    write_zeros(count, room, out)?;
    write_volume(shelf, volume, left - count, room, out)
}

/// Writes so many zero bytes. Overwrites `room` with zeros.
fn write_zeros<W: Write>(
    count: u64,
    room: &mut [u8],
    out: &mut Counted<W>,
) -> Result<(), WriteFault>
    requires { 0 < length room.old }
    ensures { AreAllWritten (W.contents out.old.inner) (W.contents out.new.inner) (zeros count) result }
{
    room.fill(0);
    let mut left = count;
    while left > 0 {
        let size = left.min(room.len() as u64) as usize;
        if !print_text(out, &room[..size]) {
            return Err(WriteFault::Output);
        }
        left -= size as u64;
    }
    Ok(())
}
