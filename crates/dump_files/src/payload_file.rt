//! A payload on a medium, read block by block.
ghost use Rattle.std.specs.Prelude.{◌≡◌, ℕ, ◌-◌, ◌≤◌, ◌++◌, List, IfOk, length, take, replicate};
ghost use Rattle.tape.specs.Medium.{medium_kind};
ghost use Rattle.dump_files.specs.Payload.{HasPayloadBlocks, IsOpened, IsPayloadRead, PayloadCanFail, payload_blocks};

use dump_client::{Blocks, SourceFailed};
use std::marker::Model;
use tape::{Medium, MediumFailed};

/// A payload on a medium, in blocks of one size, the last padded with zero bytes. Each call reads
/// its block from the medium, and no block is kept.
///
/// The medium must stay as it was when it was opened. If it has fewer bytes later, a read of the
/// missing bytes fails.
#[derive(Drop)]
pub struct PayloadFile<M: Medium> {
    medium: M,
    len: u64,
    block_bytes: u64,
    failures: u64,
}

impl<M: Medium> Model for PayloadFile<M> {
    ghost use Rattle.dump_files.specs.Payload.{FiledPayload, filed_code};

    ghost Value = { FiledPayload M };

    ghost coded = { filed_code M.code };

    ghost view = { λ p. record { medium = p.medium; len = p.len; size = p.block_bytes; failures = p.failures } };
}

impl<M: Medium + Drop> PayloadFile<M> {
    /// Opens the payload on this medium, in blocks of `block_bytes` bytes, or with no blocks if
    /// that is 0. It makes one call of the medium, for its length.
    pub fn open(mut medium: M, block_bytes: u64) -> Result<PayloadFile<M>, MediumFailed>
        ensures opened { IsOpened (medium_kind M.holds M.failures M.can_fail M.spare) medium block_bytes result }
        ensures told { (bytes : List ℕ) → M.holds medium bytes →
            IfOk result (λ p. HasPayloadBlocks M.holds p (payload_blocks block_bytes bytes)) }
    {
        let len = medium.len()?;
        Ok(PayloadFile {
            medium,
            len,
            block_bytes,
            failures: 0,
        })
    }
}

impl<M: Medium> PayloadFile<M> {
    /// Returns how many bytes the payload had when it was opened.
    pub fn len(&self) -> u64
        ensures { result ≡ self.now.len }
    {
        self.len
    }
}

impl<M: Medium> Blocks for PayloadFile<M> {
    ghost use Rattle.std.proofs.Common.{sym, ap, ◌∙◌};

    ghost holds = { HasPayloadBlocks M.holds };

    ghost failures = { λ p. p.failures };

    ghost can_fail = { PayloadCanFail (medium_kind M.holds M.failures M.can_fail M.spare) };

    ghost reads = { IsPayloadRead (medium_kind M.holds M.failures M.can_fail M.spare) };

    fn read(&mut self, block: u32, into: &mut [u8]) -> Result<(), SourceFailed> {
        let at = u64::from(block)
            .saturating_mul(self.block_bytes)
            .min(self.len);
        let count = (self.len - at).min(into.len() as u64) as usize;
        match self.medium.read_at(at, &mut into[..count]) {
            Ok(n) if n == count => {
                clear_from(into, count);
                Ok(())
            }
            _ => {
                self.failures = self.failures.saturating_add(1);
                Err(SourceFailed)
            }
        }
    }

    fn failures(&self) -> u64 {
        self.failures
    }

    ghost single = { λ source blocks others told other.
        told.3 ∙ ap (payload_blocks source.size) (M.single source.medium told.0 other.0 told.1 other.1) ∙ sym other.3 };
}

fn clear_from(block: &mut [u8], first: usize)
    requires { first ≤ length block.old }
    ensures { block.new ≡ take first block.old ++ replicate (length block.old - first) 0 }
{
    block[first..].fill(0);
}
