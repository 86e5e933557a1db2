//! Hashes a medium.

ghost use Rattle.std.specs.Prelude.{◌≡◌, ◌<◌, ◌≤◌, ℕ, List, IfOk, OnErr, OnOk, IsErr, length, take};
ghost use Rattle.tape.specs.Failures.{HasRisen, Steps};
ghost use Rattle.tape.specs.FileSteps.{AreMediumCalls};
ghost use Rattle.tape.specs.RecordFile.{medium_kind_of};
ghost use Rattle.sha2.specs.Sha256.{sha256};
ghost use Rattle.sha2.specs.Hashers.{Holds256};
ghost use Rattle.volume_check.specs.Hashing.{IsPieceHashed};

use sha2::{Digest, Sha256};
use tape::{Medium, MediumFailed};

/// Returns the SHA-256 of all bytes of a medium. Reads the medium once from front to end, in pieces
/// as long as `room`, and does not change it. `room` must not be empty, and is overwritten.
/// Allocates nothing.
///
/// Fails with `MediumFailed` if a call of the medium failed.
pub fn medium_sum<M: Medium>(medium: &mut M, room: &mut [u8]) -> Result<[u8; 32], MediumFailed>
    requires { 0 < length room.old }
    ensures hashed { (bytes : List ℕ) → M.holds medium.old bytes → IfOk result (λ sum. sum ≡ sha256 bytes) }
    ensures same { Steps M.holds medium.old medium.new (λ old new. new ≡ old) }
    ensures failed { OnErr result (HasRisen (M.failures medium.old) (M.failures medium.new)) }
    ensures able { OnErr result (M.can_fail medium.old) }
    ensures quiet { OnOk result (M.failures medium.new ≡ M.failures medium.old) }
{
    let len = medium.len()?;
    let hasher = hash_bytes(medium, len, room)?;
    Ok(hasher.finalize())
}

fn hash_bytes<M: Medium>(medium: &mut M, len: u64, room: &mut [u8]) -> Result<Sha256, MediumFailed>
    requires { 0 < length room.old }
    ensures { AreMediumCalls (medium_kind_of M.Medium)
        (λ old new. (new ≡ old) × IfOk result (λ hasher. Holds256 hasher (take len old))) 0 (IsErr result) medium.old medium.new }
{
    let mut hasher = Sha256::new();
    let mut at: u64 = 0;
    while at < len {
        let piece = (room.len() as u64).min(len - at) as usize;
        let count = hash_piece(medium, at, &mut room[..piece], &mut hasher)?;
        if count == 0 {
            break;
        }
        at += count as u64;
    }
    Ok(hasher)
}

fn hash_piece<M: Medium>(
    medium: &mut M,
    at: u64,
    room: &mut [u8],
    hasher: &mut Sha256,
) -> Result<usize, MediumFailed>
    ensures run { AreMediumCalls (medium_kind_of M.Medium)
        (λ old new. (new ≡ old) × IfOk result (λ count. IsPieceHashed old at (length room.old) count hasher.old hasher.new)) 0 (IsErr result)
        medium.old medium.new }
    ensures limit { IfOk result (λ count. count ≤ length room.old) }
{
    let count = medium.read_at(at, room)?;
    hasher.update(&room[..count]);
    Ok(count)
}
