//! Reads a record file. `at` is an offset in bytes.

ghost use Rattle.std.specs.Prelude.{◌≡◌, ◌≢◌, ◌+◌, ◌<◌, ◌≤◌, ◌^◌, ℕ, List, [], IfOk, OnErr, OnOk, IsErr, drop, length};
ghost use Rattle.tape.specs.Tape.{PlainEntry};
ghost use Rattle.tape.specs.Failures.{HasRisen, Steps};
ghost use Rattle.tape.specs.RecordFile.{SpellsReel, medium_kind_of};
ghost use Rattle.dump_run.specs.Label.{label_bytes};
ghost use Rattle.tape.specs.FileSteps.{AreMediumCalls};
ghost use Rattle.volume_check.specs.Contents.{IsContents};
ghost use Rattle.volume_check.specs.Finding.{AddsEntry, AddsRecord, IsTallyOfFile};

use crate::{ReelContents, ReelTally};
use dump_run::LABEL_BYTES;
use tape::{LENGTH_BYTES, Medium, MediumFailed, entry_size, next_length};

/// Reads a reel's medium once, entry by entry from front to end, and returns what the reel holds.
/// It does not change the medium.
///
/// The bytes of each record are read in pieces as long as `room`, so that a read error of the disk
/// is noticed. With an empty `room`, only lengths are read, and a first entry that may be a label.
/// Allocates nothing. Fails with `MediumFailed` if a call of the medium failed.
pub fn check_reel<M: Medium>(medium: &mut M, room: &mut [u8]) -> Result<ReelContents, MediumFailed>
    ensures told { (bytes : List ℕ) (entries : List PlainEntry) → M.holds medium.old bytes → SpellsReel bytes entries →
        IfOk result (λ c. IsContents c bytes entries) }
    ensures same { Steps M.holds medium.old medium.new (λ old new. new ≡ old) }
    ensures failed { OnErr result (HasRisen (M.failures medium.old) (M.failures medium.new)) }
    ensures able { OnErr result (M.can_fail medium.old) }
    ensures quiet { OnOk result (M.failures medium.new ≡ M.failures medium.old) }
    ensures steady { M.can_fail medium.new → M.can_fail medium.old }
{
    let bytes = medium.len()?;
    let (tally, end) = add_entries(medium, room)?;
    Ok(ReelContents {
        records: tally.records(),
        marks: tally.marks(),
        bytes,
        tail: bytes.saturating_sub(end),
        holding: tally.into_holding(),
    })
}

fn add_entries<M: Medium>(medium: &mut M, room: &mut [u8]) -> Result<(ReelTally, u64), MediumFailed>
    ensures { AreMediumCalls (medium_kind_of M.Medium)
        (λ old new. (new ≡ old) × IfOk result (λ p. IsTallyOfFile old p.1 p.0)) 0 (IsErr result) medium.old medium.new }
{
    let mut tally = ReelTally::new();
    let mut at: u64 = 0;
    while let Some(length) = next_length(medium, at)? {
        add_entry(medium, at, length, room, &mut tally)?;
        at += entry_size(length);
    }
    Ok((tally, at))
}

fn add_entry<M: Medium>(
    medium: &mut M,
    at: u64,
    length: u32,
    room: &mut [u8],
    tally: &mut ReelTally,
) -> Result<(), MediumFailed>
    requires { at + length + 4 < 2 ^ 64 }
    ensures { AreMediumCalls (medium_kind_of M.Medium)
        (λ old new. (new ≡ old) × IfOk result (λ _. AddsEntry (drop at old) length tally.old tally.new)) 0 (IsErr result)
        medium.old medium.new }
{
    if length == 0 {
        tally.mark();
        return Ok(());
    }
    add_record(medium, at + LENGTH_BYTES, length as usize, room, tally)
}

/// Only the bytes of a first entry that may be a label are given to the tally.
fn add_record<M: Medium>(
    medium: &mut M,
    at: u64,
    length: usize,
    room: &mut [u8],
    tally: &mut ReelTally,
) -> Result<(), MediumFailed>
    requires { at + length < 2 ^ 64 }
    ensures { AreMediumCalls (medium_kind_of M.Medium)
        (λ old new. (new ≡ old) × IfOk result (λ _. AddsRecord (drop at old) length tally.old tally.new)) 0 (IsErr result)
        medium.old medium.new }
{
    if length == LABEL_BYTES && tally.is_empty() {
        return add_label(medium, at, tally);
    }
    pass_bytes(medium, at, length, room)?;
    tally.other_record(length);
    Ok(())
}

fn add_label<M: Medium>(medium: &mut M, at: u64, tally: &mut ReelTally) -> Result<(), MediumFailed>
    ensures { AreMediumCalls (medium_kind_of M.Medium)
        (λ old new. (new ≡ old) × IfOk result (λ _. AddsRecord (drop at old) label_bytes tally.old tally.new)) 0 (IsErr result)
        medium.old medium.new }
{
    let mut label = [0u8; LABEL_BYTES];
    let count = medium.read_at(at, &mut label)?;
    tally.record(&label[..count]);
    Ok(())
}

fn pass_bytes<M: Medium>(
    medium: &mut M,
    at: u64,
    length: usize,
    room: &mut [u8],
) -> Result<(), MediumFailed>
    requires { at + length < 2 ^ 64 }
    ensures { AreMediumCalls (medium_kind_of M.Medium) (λ old new. new ≡ old) 0 (IsErr result) medium.old medium.new }
{
    if room.is_empty() {
        return Ok(());
    }
    let mut passed = 0;
    while passed < length {
        let piece = room.len().min(length - passed);
        medium.read_at(at + passed as u64, &mut room[..piece])?;
        passed += piece;
    }
    Ok(())
}
