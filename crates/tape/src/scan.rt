//! Reading the entries of a record file.

ghost use Rattle.std.specs.Prelude.{◌≡◌, ◌++◌, ◌<◌, ◌^◌, List, ℕ, IfOk, MatchOption, length};
ghost use Rattle.std.specs.List.{slice_get};
ghost use Rattle.tape.specs.Tape.{PlainEntry, IsTapeEntry};
ghost use Rattle.tape.specs.List.{plain_of, plain_entries, bytes_of};
ghost use Rattle.tape.specs.RecordFile.{IsTail, SpellsReel, entries_in, length_bytes};
ghost use Rattle.tape.specs.Scan.{IsFirst, IsNth};

use crate::Entry;
use rmt_wire::RECORD_LIMIT;
use std::alloc::{AllocError, Global};

/// Reads the entries of a record file. Ignores the bytes after the last whole entry. Fails with
/// `AllocError` if an allocation fails.
#[tactic(auto, using(crate::proofs::Scanning::shorter, crate::proofs::Scanning::read_more, crate::proofs::Scanning::read_all))]
pub fn read_entries(alloc: Global, file: &[u8]) -> Result<Vec<Entry>, AllocError>
    ensures { IfOk result (λ entries. SpellsReel file.now (plain_entries entries.items)) }
{
    let mut entries = Vec::new(alloc);
    let mut rest = file;
    while let Some((bytes, behind)) = first_entry(rest) {
        let entry = entry_of(alloc, bytes)?;
        entries.push(entry)?;
        rest = behind;
    }
    Ok(entries)
}

/// Returns the bytes of entry number `i` of a record file, counted from 0. A mark has none.
#[tactic(auto, using(crate::proofs::Scanning::nth_more, crate::proofs::Scanning::nth_some))]
pub(crate) fn nth_entry(file: &[u8], i: usize) -> Option<&[u8]>
    ensures { MatchOption result (slice_get (entries_in file.now) i ≡ None) (λ bytes. IsNth file.now i bytes.now) }
{
    let mut rest = file;
    for _ in 0..i {
        let (_, behind) = first_entry(rest)?;
        rest = behind;
    }
    let (bytes, _) = first_entry(rest)?;
    Some(bytes)
}

fn entry_of(alloc: Global, bytes: &[u8]) -> Result<Entry, AllocError>
    ensures { IfOk result (λ made. (entry : PlainEntry) → IsTapeEntry entry → bytes.now ≡ bytes_of entry → plain_of made ≡ entry) }
{
    if bytes.is_empty() {
        return Ok(Entry::Mark);
    }
    let copy = Vec::from_slice(alloc, bytes)?;
    Ok(Entry::Record(copy))
}

/// Returns the bytes of the first entry and what follows it, or `None` if no whole entry is there.
#[tactic(auto, using(crate::proofs::Spelling::tail_short, crate::proofs::Scanning::first_mark))]
fn first_entry(bytes: &[u8]) -> Option<(&[u8], &[u8])>
    ensures { MatchOption result (IsTail bytes.now) (λ p. IsFirst bytes.now p.0.now p.1.now) }
{
    let (length, rest) = split_length(bytes)?;
    if length == 0 {
        return Some((&[], rest));
    }
    split_record(length, rest)
}

fn split_record(length: usize, rest: &[u8]) -> Option<(&[u8], &[u8])>
    requires some { 0 < length }
    requires small { length < 2 ^ 32 }
    ensures { (bytes : List ℕ) → bytes ≡ length_bytes length ++ rest.now →
        MatchOption result (IsTail bytes) (λ p. IsFirst bytes p.0.now p.1.now) }
{
    if length > RECORD_LIMIT {
        return None;
    }
    let (record, behind) = rest.split_at_checked(length)?;
    let (again, behind) = split_length(behind)?;
    if again != length {
        return None;
    }
    Some((record, behind))
}

#[tactic(auto, using(crate::proofs::Scanning::read_length))]
fn split_length(bytes: &[u8]) -> Option<(usize, &[u8])>
    ensures { MatchOption result (length bytes.now < 4) (λ p. (p.0 < 2 ^ 32) × (bytes.now ≡ length_bytes p.0 ++ p.1.now)) }
{
    let (head, rest) = bytes.split_first_chunk::<4>()?;
    Some((u32::from_le_bytes(*head) as usize, rest))
}
