//! The volumes of a dump that are on the reels.
use crate::reel::ListedReel;
use crate::verdict::push_count;
use std::alloc::{AllocError, Global};
use volume_check::Volume;

/// The volumes of a dump that are on the reels, from its first block on. Only volumes with their
/// mark count.
#[derive(Clone, Copy)]
pub(crate) enum DumpFound {
    NoVolume,
    /// The volume of this number is missing, and no earlier one is.
    Missing { volume: u64 },
    /// This volume begins at block `first`, and not at block `end`, where an earlier one ends.
    Displaced { volume: u64, first: u64, end: u64 },
    /// Each volume from 1 to `last`, with all blocks before block `end`.
    Volumes { last: u32, end: u64 },
}

impl DumpFound {
    /// The reels must be those of one dump, sorted by the numbers of their volumes. Several may
    /// have a volume of the same number with different blocks, for example after a fault. The
    /// volumes that reach farthest are taken.
    pub(crate) fn of(alloc: Global, reels: &[ListedReel]) -> Result<DumpFound, AllocError> {
        let mut reached = Vec::new(alloc);
        for reel in reels {
            if let Some(volume) = reel.ended_volume() {
                if is_reached(&reached, volume) {
                    reached.push(volume)?;
                }
            }
        }
        let last = reached.last().map_or(0, |it| it.label.volume());
        let mut volumes = reels.iter().filter_map(|reel| reel.ended_volume());
        Ok(match volumes.find(|it| it.label.volume() > last) {
            Some(next) => stopped(&reached, last, next),
            None => farthest(&reached),
        })
    }

    /// Whether nothing is missing, as far as is known: if the number of blocks of the dump is
    /// given, all of them must be there.
    pub(crate) fn is_complete(self, blocks: Option<u64>) -> bool {
        match (self, blocks) {
            (DumpFound::Volumes { .. }, None) => true,
            (DumpFound::Volumes { end, .. }, Some(blocks)) => end == blocks,
            _ => false,
        }
    }

    pub(crate) fn push(self, text: &mut Vec<u8>, blocks: Option<u64>) -> Result<(), AllocError> {
        match self {
            DumpFound::NoVolume => text.extend_from_slice(b"no volume"),
            DumpFound::Missing { volume } => push_count(text, b"volume ", volume, b" is missing"),
            DumpFound::Displaced { volume, first, end } => {
                push_count(text, b"volume ", volume, b"")?;
                push_count(text, b" begins at block ", first, b"")?;
                push_count(text, b", not ", end, b"")
            }
            DumpFound::Volumes { last, end } => push_volumes(text, last, end, blocks),
        }
    }
}

/// The block after the last one of a volume.
fn end_of(volume: &Volume) -> u64 {
    u64::from(volume.label.first()).saturating_add(volume.blocks)
}

/// A volume is reached if it is the first of its dump and begins at block 0, or if it continues
/// where a reached volume ends. `reached` is sorted by number.
fn is_reached(reached: &[&Volume], volume: &Volume) -> bool {
    let number = volume.label.volume();
    let before = number.saturating_sub(1);
    let mut near = reached
        .iter()
        .rev()
        .take_while(|it| it.label.volume() >= before);
    (number == 1 && volume.label.first() == 0) || near.any(|it| continues(it, volume))
}

/// Whether `next` continues where `before` ends. Volumes of one dump have blocks of the same
/// length.
fn continues(before: &Volume, next: &Volume) -> bool {
    let is_next = u64::from(next.label.volume()) == u64::from(before.label.volume()) + 1;
    let goes_on = u64::from(next.label.first()) == end_of(before);
    let has_blocks = before.block_bytes != 0 && next.block_bytes != 0;
    let is_alike = !has_blocks || before.block_bytes == next.block_bytes;
    is_next && goes_on && is_alike && before.label.is_same_dump(&next.label)
}

/// Returns what was found if the volumes up to `last` are reached and `next`, the first volume on
/// the reels with a greater number, is not. If `next` begins where volume `last` ends, its blocks
/// have another length: then it is not a volume of these, and counts as missing.
fn stopped(reached: &[&Volume], last: u32, next: &Volume) -> DumpFound {
    let (volume, first) = (u64::from(last) + 1, u64::from(next.label.first()));
    let lasts = reached.iter().filter(|it| it.label.volume() == last);
    let end = lasts.map(|it| end_of(it)).max().unwrap_or(0);
    if u64::from(next.label.volume()) > volume || first == end {
        DumpFound::Missing { volume }
    } else {
        DumpFound::Displaced { volume, first, end }
    }
}

/// Returns what was found if all volumes on the reels are reached, or if there are none.
fn farthest(reached: &[&Volume]) -> DumpFound {
    match reached
        .iter()
        .max_by_key(|it| (end_of(it), it.label.volume()))
    {
        Some(it) => DumpFound::Volumes {
            last: it.label.volume(),
            end: end_of(it),
        },
        None => DumpFound::NoVolume,
    }
}

fn push_volumes(
    text: &mut Vec<u8>,
    last: u32,
    end: u64,
    blocks: Option<u64>,
) -> Result<(), AllocError> {
    if let Some(blocks) = blocks {
        if end < blocks {
            return push_missing(text, end, blocks - 1);
        }
    }
    push_count(text, b"volumes 1 to ", u64::from(last), b", ")?;
    match blocks {
        Some(blocks) if blocks == end => push_count(text, b"all ", blocks, b" blocks"),
        Some(blocks) => {
            push_count(text, b"ends at block ", end, b"")?;
            push_count(text, b", not ", blocks, b"")
        }
        None => push_count(text, b"ends at block ", end, b""),
    }
}

fn push_missing(text: &mut Vec<u8>, first: u64, last: u64) -> Result<(), AllocError> {
    if first == last {
        return push_count(text, b"block ", first, b" is missing");
    }
    push_count(text, b"blocks ", first, b" to ")?;
    push_count(text, b"", last, b" are missing")
}
