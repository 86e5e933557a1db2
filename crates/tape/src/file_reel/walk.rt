//! A walk along a reel, past marks or records. `at` is an offset in bytes.

ghost use Rattle.std.specs.Prelude.{◌≡◌, ◌<◌, ◌≤◌, IfOk, IfSome, MatchResult};
ghost use Rattle.tape.specs.RecordFile.{medium_kind_of};
ghost use Rattle.tape.specs.FileSteps.{LooksAlong, HasPassed, HasWalkedMarks, HasWalkedRecords, way_left};
ghost use Rattle.tape.specs.declared.fault.TapeFault.TheVariants.{EndOrMark};
ghost use Rattle.tape.specs.declared.file_reel.walk.Way.TheVariants.{Forward, Back};

use super::image::{entry_size, last_length, next_length};
use crate::{Medium, MediumFailed, TapeFault};

#[derive(Clone, Copy)]
pub(super) enum Way {
    Forward,
    Back,
}

#[derive(Drop)]
struct PassedEntry {
    at: u64,
    is_mark: bool,
}

#[derive(Drop)]
pub(super) struct Walked {
    pub(super) at: u64,
    /// How many marks or records of the count were not met.
    left: u32,
}

impl Walked {
    pub(super) fn answer(&self) -> Result<(), TapeFault>
        ensures { MatchResult result (λ _. self.now.left ≡ 0) (λ fault. (fault ≡ EndOrMark) × (0 < self.now.left)) }
    {
        if self.left > 0 {
            return Err(TapeFault::EndOrMark);
        }
        Ok(())
    }
}

fn pass_next<M: Medium>(medium: &mut M, at: u64) -> Result<Option<PassedEntry>, MediumFailed>
    ensures run { LooksAlong (medium_kind_of M.Medium) at result (HasPassed Forward) medium.old medium.new }
    ensures nearer { IfOk result (λ passed. IfSome passed (λ p. way_left Forward p.at < way_left Forward at)) }
{
    let Some(length) = next_length(medium, at)? else {
        return Ok(None);
    };
    Ok(Some(PassedEntry {
        at: at + entry_size(length),
        is_mark: length == 0,
    }))
}

fn pass_last<M: Medium>(medium: &mut M, at: u64) -> Result<Option<PassedEntry>, MediumFailed>
    ensures run { LooksAlong (medium_kind_of M.Medium) at result (HasPassed Back) medium.old medium.new }
    ensures nearer { IfOk result (λ passed. IfSome passed (λ p. way_left Back p.at < way_left Back at)) }
{
    let Some(length) = last_length(medium, at)? else {
        return Ok(None);
    };
    Ok(Some(PassedEntry {
        at: at - entry_size(length),
        is_mark: length == 0,
    }))
}

fn pass<M: Medium>(medium: &mut M, way: Way, at: u64) -> Result<Option<PassedEntry>, MediumFailed>
    ensures run { LooksAlong (medium_kind_of M.Medium) at result (HasPassed way) medium.old medium.new }
    ensures nearer { IfOk result (λ passed. IfSome passed (λ p. way_left way p.at < way_left way at)) }
{
    match way {
        Way::Forward => pass_next(medium, at),
        Way::Back => pass_last(medium, at),
    }
}

/// Walks past `count` marks, or until no entry is left.
pub(super) fn walk_files<M: Medium>(
    medium: &mut M,
    way: Way,
    offset: u64,
    count: u32,
) -> Result<Walked, MediumFailed>
    ensures run { LooksAlong (medium_kind_of M.Medium) offset result (HasWalkedMarks way count) medium.old medium.new }
    ensures within { MatchResult result (λ walked. walked.left ≤ count) (λ _. 0 < count) }
{
    let mut at = offset;
    let mut left = count;
    while left > 0 {
        let Some(passed) = pass(medium, way, at)? else {
            return Ok(Walked { at, left });
        };
        at = passed.at;
        if passed.is_mark {
            left -= 1;
        }
    }
    Ok(Walked { at, left })
}

/// Walks past `count` records, or past a mark that comes first, or until no entry is left.
pub(super) fn walk_records<M: Medium>(
    medium: &mut M,
    way: Way,
    offset: u64,
    count: u32,
) -> Result<Walked, MediumFailed>
    ensures run { LooksAlong (medium_kind_of M.Medium) offset result (HasWalkedRecords way count) medium.old medium.new }
    ensures within { MatchResult result (λ walked. walked.left ≤ count) (λ _. 0 < count) }
{
    let mut at = offset;
    let mut left = count;
    while left > 0 {
        let Some(passed) = pass(medium, way, at)? else {
            return Ok(Walked { at, left });
        };
        at = passed.at;
        if passed.is_mark {
            return Ok(Walked { at, left });
        }
        left -= 1;
    }
    Ok(Walked { at, left })
}
