//! Writes the blocks of volumes.
ghost use Rattle.std.specs.Prelude.{◌≡◌, ◌<◌, ◌≤◌, ◌+◌, ◌-◌, ◌*◌, ◌^◌, ℕ, List, IfOk, IsOk, length, take, drop};
ghost use Rattle.rmt_wire.specs.declared.limits.TheConstants.{RECORD_LIMIT};
ghost use Rattle.tape.specs.Failures.{Steps};
ghost use Rattle.restore.specs.Found.{IsFound};
ghost use Rattle.restore.specs.Volumes.{IsVolumeFile};
ghost use Rattle.restore.specs.Written.{AreTheBlocks, AreWritten, IsWritten};

use crate::Shelf;
use crate::volume::FoundVolume;
use dump_run::{LABEL_BYTES, VolumeLabel};
use rmt_wire::{Counted, print_text};
use std::io::Write;
use tape::{LENGTH_BYTES, Medium};

/// How many bytes of a record file frame the bytes of a record: its length, twice.
const FRAME_BYTES: usize = 2 * LENGTH_BYTES as usize;

/// How many bytes a label takes in a record file.
const LABEL_IMAGE: u64 = (LABEL_BYTES + FRAME_BYTES) as u64;

/// Why the blocks of volumes were not written.
#[derive(Clone, Copy)]
pub(crate) enum WriteFault {
    /// A reel could not be opened or read, or was changed.
    Reel {
        /// The number of the reel.
        reel: usize,
    },
    /// The output failed.
    Output,
}

/// Why the blocks of a reel were not written.
#[derive(Clone, Copy)]
enum BlockFault {
    /// The reel could not be read, or was changed.
    Reel,
    /// The output failed.
    Output,
}

/// Writes the blocks of these volumes, up to `left` bytes. Returns how many bytes are left.
pub(crate) fn write_volumes<S: Shelf, W: Write>(
    shelf: &mut S,
    volumes: &[FoundVolume],
    mut left: u64,
    room: &mut [u8],
    out: &mut Counted<W>,
) -> Result<u64, WriteFault>
    requires { RECORD_LIMIT + 8 ≤ length room.old }
    ensures same { Steps S.holds shelf.old shelf.new (λ old new. new ≡ old) }
    ensures written { (reels payload : List (List ℕ)) → S.holds shelf.old reels → AreTheBlocks reels volumes.now payload →
        AreWritten (W.contents out.old.inner) (W.contents out.new.inner) left payload result }
{
    for volume in volumes {
        left = write_volume(shelf, volume, left, room, out)?;
    }
    Ok(left)
}

pub(crate) fn write_volume<S: Shelf, W: Write>(
    shelf: &mut S,
    volume: &FoundVolume,
    left: u64,
    room: &mut [u8],
    out: &mut Counted<W>,
) -> Result<u64, WriteFault>
    requires { RECORD_LIMIT + 8 ≤ length room.old }
    ensures same { Steps S.holds shelf.old shelf.new (λ old new. new ≡ old) }
    ensures written { (reels blocks : List (List ℕ)) → S.holds shelf.old reels → IsFound reels volume.now blocks →
        AreWritten (W.contents out.old.inner) (W.contents out.new.inner) left blocks result }
{
    let number = volume.reel;
    let Ok(mut reel) = shelf.open(number) else {
        return Err(WriteFault::Reel { reel: number });
    };
    let written = write_reel(&mut reel, volume, left, room, out);
    shelf.close(reel);
    match written {
        Ok(left) => Ok(left),
        Err(BlockFault::Reel) => Err(WriteFault::Reel { reel: number }),
        Err(BlockFault::Output) => Err(WriteFault::Output),
    }
}

fn write_reel<M: Medium, W: Write>(
    reel: &mut M,
    volume: &FoundVolume,
    mut left: u64,
    room: &mut [u8],
    out: &mut Counted<W>,
) -> Result<u64, BlockFault>
    requires { RECORD_LIMIT + 8 ≤ length room.old }
    ensures { (bytes : List ℕ) (blocks : List (List ℕ)) → M.holds reel.old bytes → volume.now.blocks ≡ length blocks →
        IsVolumeFile bytes volume.now.label volume.now.block_bytes blocks →
        AreWritten (W.contents out.old.inner) (W.contents out.new.inner) left blocks result }
{
    check_label(reel, volume)?;
    let size = volume.block_bytes;
    let image = (size + FRAME_BYTES) as u64;
    for number in 0..volume.blocks {
        left = copy_block(reel, LABEL_IMAGE + number * image, size, left, room, out)?;
    }
    Ok(left)
}

/// Writes the block of this size, whose frame begins at offset `at` of a record file.
fn copy_block<M: Medium, W: Write>(
    reel: &mut M,
    at: u64,
    size: usize,
    left: u64,
    room: &mut [u8],
    out: &mut Counted<W>,
) -> Result<u64, BlockFault>
    requires size { size ≤ RECORD_LIMIT }
    requires room { RECORD_LIMIT + 8 ≤ length room.old }
    ensures same { Steps M.holds reel.old reel.new (λ old new. new ≡ old) }
    ensures written { (bytes : List ℕ) → M.holds reel.old bytes →
        IsWritten (W.contents out.old.inner) (W.contents out.new.inner) left (take size (drop (at + 4) bytes)) result }
{
    read_block(reel, at, size, room)?;
    let (_, behind) = room.split_at(LENGTH_BYTES as usize);
    write_block(&behind[..size], left, out)
}

/// Checks that the reel still has the length and the label of this volume.
fn check_label<M: Medium>(reel: &mut M, volume: &FoundVolume) -> Result<(), BlockFault>
    ensures { Steps M.holds reel.old reel.new (λ old new. new ≡ old) }
{
    let image = (volume.block_bytes + FRAME_BYTES) as u64;
    let len = LABEL_IMAGE + volume.blocks * image + LENGTH_BYTES;
    let mut label = [0u8; LABEL_BYTES];
    let Ok(found) = reel.len() else {
        return Err(BlockFault::Reel);
    };
    let Ok(count) = reel.read_at(LENGTH_BYTES, &mut label) else {
        return Err(BlockFault::Reel);
    };
    if found == len && is_label_of(&label[..count], volume) {
        Ok(())
    } else {
        Err(BlockFault::Reel)
    }
}

fn is_label_of(record: &[u8], volume: &FoundVolume) -> bool {
    match VolumeLabel::read(record) {
        Some(label) => {
            label.is_same_dump(&volume.label)
                && label.volume() == volume.label.volume()
                && label.first() == volume.label.first()
        }
        None => false,
    }
}

/// Reads the block of this size, whose frame begins at offset `at` of a record file.
fn read_block<M: Medium>(
    reel: &mut M,
    at: u64,
    size: usize,
    room: &mut [u8],
) -> Result<(), BlockFault>
    requires size { size ≤ RECORD_LIMIT }
    requires room { RECORD_LIMIT + 8 ≤ length room.old }
    ensures same { Steps M.holds reel.old reel.new (λ old new. new ≡ old) }
    ensures read { (bytes : List ℕ) → M.holds reel.old bytes → IfOk result (λ _. take size (drop 4 room.new) ≡ take size (drop (at + 4) bytes)) }
{
    let frame = &mut room[..size + FRAME_BYTES];
    let Ok(count) = reel.read_at(at, frame) else {
        return Err(BlockFault::Reel);
    };
    if count == frame.len() && is_framed(frame, size) {
        Ok(())
    } else {
        Err(BlockFault::Reel)
    }
}

/// Whether these bytes begin and end with this length.
fn is_framed(bytes: &[u8], length: usize) -> bool
    requires { length < 2 ^ 32 }
{
    let frame = (length as u32).to_le_bytes();
    bytes.starts_with(&frame) && bytes.ends_with(&frame)
}

fn write_block<W: Write>(block: &[u8], left: u64, out: &mut Counted<W>) -> Result<u64, BlockFault>
    ensures { IsWritten (W.contents out.old.inner) (W.contents out.new.inner) left block.now result }
{
    let count = (block.len() as u64).min(left) as usize;
    if print_text(out, &block[..count]) {
        Ok(left - count as u64)
    } else {
        Err(BlockFault::Output)
    }
}
