//! The volumes of a dump of a catalog that are missing.
ghost use Rattle.std.specs.Prelude.{◌≡◌, ◌↔◌, ◌++◌, IfOk, IsTrue, OnOk, flat_map};
ghost use Rattle.rdump_list.specs.DumpFound.{AreNumbersOf, IsAllThere, IsFoundIn, IsFoundOf};
ghost use Rattle.rdump_list.specs.FoundText.{found_text, missing_text, next_range_text, range_text};

use crate::judged_reel::JudgedReel;
use crate::missing::{VolumeRange, missing_of};
use crate::verdict::push_count;
use catalog::{Catalog, CatalogRun};
use dump_run::DumpId;
use std::alloc::{AllocError, Global};

/// Whether a dump of a catalog is finished, and which of its volumes are missing.
#[derive(Drop)]
pub enum CatalogDump {
    /// The last line of the dump does not say that it is finished.
    NotFinished,
    /// The dump is finished.
    Finished {
        /// The volumes that are missing, in order.
        missing: Vec<VolumeRange>,
    },
}

/// Returns which volumes of a dump of a catalog are missing, given these reels of whole volumes.
/// Looks only at the lines after the last one with which the dump began. Returns None if no line
/// says that it began.
///
/// A reel counts as a volume of the dump only if its verdict is `Equal`, and its label is that of
/// the line in force of this volume.
///
/// Fails if an allocation fails.
pub fn dump_in(
    alloc: Global,
    catalog: &Catalog,
    id: &DumpId,
    reels: &[JudgedReel<'_>],
) -> Result<Option<CatalogDump>, AllocError>
    ensures { IfOk result (IsFoundIn catalog.now id.now reels.now) }
{
    match catalog.run(id) {
        Some(run) => Ok(Some(run_found(alloc, &run, reels)?)),
        None => Ok(None),
    }
}

fn run_found(
    alloc: Global,
    run: &CatalogRun<'_>,
    reels: &[JudgedReel<'_>],
) -> Result<CatalogDump, AllocError>
    ensures { IfOk result (IsFoundOf run.now reels.now) }
{
    match run.finished() {
        Some(finished) => {
            let there = numbers_of(alloc, run, reels)?;
            let missing = missing_of(alloc, &there, finished.volumes())?;
            Ok(CatalogDump::Finished { missing })
        }
        None => Ok(CatalogDump::NotFinished),
    }
}

fn numbers_of(
    alloc: Global,
    run: &CatalogRun<'_>,
    reels: &[JudgedReel<'_>],
) -> Result<Vec<u32>, AllocError>
    ensures { IfOk result (λ numbers. AreNumbersOf run.now reels.now numbers.items) }
{
    let mut numbers = Vec::new(alloc);
    for reel in reels {
        if reel.is_of(run) {
            numbers.push(reel.label.volume())?;
        }
    }
    Ok(numbers)
}

impl CatalogDump {
    /// Whether the dump is finished and no volume is missing.
    pub fn is_complete(&self) -> bool
        ensures { IsTrue result ↔ IsAllThere self.now }
    {
        match self {
            CatalogDump::NotFinished => false,
            CatalogDump::Finished { missing } => missing.is_empty(),
        }
    }

    /// Appends what is there, in words: `all volumes`, `not finished`, `missing: volume 2`, or
    /// `missing: volumes 2 to 3, 5`. Fails if an allocation fails.
    pub fn push(&self, text: &mut Vec<u8>) -> Result<(), AllocError>
        ensures { OnOk result (text.new.items ≡ text.old.items ++ found_text self.now) }
    {
        match self {
            CatalogDump::NotFinished => text.extend_from_slice(b"not finished"),
            CatalogDump::Finished { missing } => push_finished(text, missing),
        }
    }
}

fn push_finished(text: &mut Vec<u8>, missing: &[VolumeRange]) -> Result<(), AllocError>
    ensures { OnOk result (text.new.items ≡ text.old.items ++ missing_text missing.now) }
{
    let Some((first, more)) = missing.split_first() else {
        return text.extend_from_slice(b"all volumes");
    };
    if more.is_empty() && first.first == first.last {
        return push_count(text, b"missing: volume ", u64::from(first.first), b"");
    }
    text.extend_from_slice(b"missing: volumes ")?;
    push_range(text, first)?;
    push_more(text, more)
}

fn push_more(text: &mut Vec<u8>, ranges: &[VolumeRange]) -> Result<(), AllocError>
    ensures { OnOk result (text.new.items ≡ text.old.items ++ flat_map next_range_text ranges.now) }
{
    for range in ranges {
        push_next(text, range)?;
    }
    Ok(())
}

fn push_next(text: &mut Vec<u8>, range: &VolumeRange) -> Result<(), AllocError>
    ensures { OnOk result (text.new.items ≡ text.old.items ++ next_range_text range.now) }
{
    text.extend_from_slice(b", ")?;
    push_range(text, range)
}

fn push_range(text: &mut Vec<u8>, range: &VolumeRange) -> Result<(), AllocError>
    ensures { OnOk result (text.new.items ≡ text.old.items ++ range_text range.now) }
{
    push_count(text, b"", u64::from(range.first), b"")?;
    if range.first < range.last {
        return push_count(text, b" to ", u64::from(range.last), b"");
    }
    Ok(())
}
