//! The image of an entry on a medium: how it is read and written. `at` is an offset in bytes.

ghost use Rattle.std.specs.Prelude.{◌≡◌, ◌+◌, ◌*◌, ◌<◌, ◌≤◌, ◌^◌, IfOk, IfSome, IsErr, length, drop, replicate};
ghost use Rattle.tape.specs.Tape.{IsRecord};
ghost use Rattle.tape.specs.Tape.PlainEntry.{Record};
ghost use Rattle.tape.specs.Medium.{MediumStep};
ghost use Rattle.tape.specs.Medium.MediumCall.{Append};
ghost use Rattle.tape.specs.RecordFile.{image_of, length_bytes, medium_kind_of};
ghost use Rattle.tape.specs.FileSteps.{AreMediumCalls, LooksAlong, BeginsWith, IsImageWritten, ahead, first_length, size_by_length};
ghost use Rattle.tape.specs.declared.file_reel.walk.Way.TheVariants.{Back};

use crate::entry::{MARK_SIZE, RECORD_FRAME};
use crate::{Medium, MediumFailed};
use rmt_wire::RECORD_LIMIT;

/// A medium whose bytes are known has fewer, by the law `bounded` of `Medium`.
const OFFSET_LIMIT: u64 = 1 << 63;

const LENGTH_LIMIT: u32 = RECORD_LIMIT as u32;

/// How many zero bytes are written at once.
const ROW: usize = 4096;

/// Returns how many bytes an entry takes in a record file: 4 for a mark, and the length plus 8 for
/// a record. A mark has the length 0.
pub fn entry_size(length: u32) -> u64
    ensures { result ≡ size_by_length length }
{
    if length == 0 {
        MARK_SIZE
    } else {
        u64::from(length) + RECORD_FRAME
    }
}

#[tactic(auto, using(std::proofs::lemmas::Nat::le_bytes_4), unfolding(crate::specs::RecordFile::length_bytes))]
fn length_in(bytes: [u8; 4]) -> u32
    ensures { length_bytes result ≡ bytes }
{
    u32::from_le_bytes(bytes)
}

fn length_at<M: Medium>(medium: &mut M, at: u64) -> Result<Option<u32>, MediumFailed>
    ensures { AreMediumCalls (medium_kind_of M.Medium)
        (λ old new. (new ≡ old) × IfOk result (BeginsWith (drop at old))) 0 (IsErr result) medium.old medium.new }
{
    let mut bytes = [0u8; 4];
    let count = medium.read_at(at, &mut bytes)?;
    if count < bytes.len() {
        return Ok(None);
    }
    Ok(Some(length_in(bytes)))
}

/// Returns the length of the entry that begins at offset `at` of a record file. It is 0 for a mark,
/// and `None` if no whole entry begins there.
///
/// `at` is 0, or the offset at which the entry before it ends. Reads lengths only. Fails with
/// `MediumFailed` if a call of the medium failed.
pub fn next_length<M: Medium>(medium: &mut M, at: u64) -> Result<Option<u32>, MediumFailed>
    ensures run { LooksAlong (medium_kind_of M.Medium) at result
        (λ bytes t length. length ≡ first_length t.after) medium.old medium.new }
    ensures limit { IfOk result (λ length. IfSome length (λ n. (n ≤ RECORD_LIMIT) × (at < 2 ^ 63))) }
{
    if at >= OFFSET_LIMIT {
        return Ok(None);
    }
    let Some(length) = length_at(medium, at)? else {
        return Ok(None);
    };
    if length == 0 {
        return Ok(Some(0));
    }
    if length > LENGTH_LIMIT {
        return Ok(None);
    }
    let Some(behind) = length_at(medium, at + MARK_SIZE + u64::from(length))? else {
        return Ok(None);
    };
    if behind != length {
        return Ok(None);
    }
    Ok(Some(length))
}

/// Returns the length of the entry that ends at an offset, or `None` at the beginning.
pub(super) fn last_length<M: Medium>(medium: &mut M, at: u64) -> Result<Option<u32>, MediumFailed>
    ensures run { LooksAlong (medium_kind_of M.Medium) at result
        (λ bytes t length. length ≡ first_length (ahead Back t)) medium.old medium.new }
    ensures limit { IfOk result (λ length. IfSome length (λ n. (n ≤ RECORD_LIMIT) × (size_by_length n ≤ at))) }
{
    if at < MARK_SIZE {
        return Ok(None);
    }
    let Some(length) = length_at(medium, at - MARK_SIZE)? else {
        return Ok(None);
    };
    if length > LENGTH_LIMIT || entry_size(length) > at {
        return Ok(None);
    }
    Ok(Some(length))
}

fn append_record<M: Medium>(medium: &mut M, bytes: &[u8]) -> Result<(), MediumFailed>
    requires { IsRecord bytes.now }
    ensures { AreMediumCalls (medium_kind_of M.Medium)
        (MediumStep (Append (image_of (Record bytes.now)) result)) (length bytes.now + 8) (IsErr result) medium.old medium.new }
{
    let length = (bytes.len() as u32).to_le_bytes();
    medium.append_framed(&length, bytes)
}

fn append_zeros<M: Medium>(medium: &mut M, row: &[u8], count: u64) -> Result<(), MediumFailed>
    requires zeros { row.now ≡ replicate (length row.now) 0 }
    requires some { 0 < length row.now }
    ensures { AreMediumCalls (medium_kind_of M.Medium)
        (MediumStep (Append (replicate count 0) result)) count (IsErr result) medium.old medium.new }
{
    let mut done: u64 = 0;
    while done < count {
        let size = (count - done).min(row.len() as u64);
        medium.append(&row[..size as usize])?;
        done += size;
    }
    Ok(())
}

pub(super) fn put_record<M: Medium>(
    medium: &mut M,
    at: u64,
    bytes: &[u8],
) -> Result<(), MediumFailed>
    requires { IsRecord bytes.now }
    ensures { AreMediumCalls (medium_kind_of M.Medium)
        (IsImageWritten at (image_of (Record bytes.now)) result) (length bytes.now + 8) (IsErr result) medium.old medium.new }
{
    medium.cut(at)?;
    append_record(medium, bytes)
}

pub(super) fn put_marks<M: Medium>(medium: &mut M, at: u64, count: u32) -> Result<(), MediumFailed>
    ensures { AreMediumCalls (medium_kind_of M.Medium)
        (IsImageWritten at (replicate (4 * count) 0) result) (4 * count) (IsErr result) medium.old medium.new }
{
    medium.cut(at)?;
    append_zeros(medium, &[0; ROW], u64::from(count) * MARK_SIZE)
}
