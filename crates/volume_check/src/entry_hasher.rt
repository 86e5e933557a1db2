//! Hashes entries.

ghost use Rattle.std.specs.Prelude.{◌≡◌, List, [], ◌∷◌, ◌++◌, ⊤};
ghost use Rattle.tape.specs.Tape.{PlainEntry, IsRecord};
ghost use Rattle.tape.specs.Tape.PlainEntry.{Record, Mark};
ghost use Rattle.volume_check.specs.Volume.{file_sum};
ghost use Rattle.volume_check.specs.Hashing.{HoldsEntries};

use sha2::{Digest, Sha256};
use std::alloc::AllocError;

const MARK_LENGTH: u32 = 0;

/// A hasher of a record file. It allocates nothing.
#[derive(Drop)]
pub struct EntryHasher {
    hasher: Sha256,
}

impl EntryHasher {
    /// Makes a hasher that holds no entries.
    pub fn new() -> EntryHasher
        ensures { HoldsEntries result [] }
    {
        EntryHasher {
            hasher: Sha256::new(),
        }
    }

    /// Adds a record with the given bytes, at least 1 and at most 262,144.
    pub fn record(&mut self, bytes: &[u8])
        requires { IsRecord bytes.now }
        ensures { (entries : List PlainEntry) → HoldsEntries self.old entries →
            HoldsEntries self.new (entries ++ Record bytes.now ∷ []) }
    {
        let length = (bytes.len() as u32).to_le_bytes();
        self.hasher.update(&length);
        self.hasher.update(bytes);
        self.hasher.update(&length);
    }

    /// Adds a mark.
    pub fn mark(&mut self)
        ensures { (entries : List PlainEntry) → HoldsEntries self.old entries →
            HoldsEntries self.new (entries ++ Mark ∷ []) }
    {
        let length = MARK_LENGTH.to_le_bytes();
        self.hasher.update(&length);
    }

    /// Returns the SHA-256 of the record file that has the added entries and nothing else.
    pub fn sum(self) -> [u8; 32]
        ensures { (entries : List PlainEntry) → HoldsEntries self entries → result ≡ file_sum entries }
    {
        self.hasher.finalize()
    }
}

impl Clone for EntryHasher {
    ghost is_clone = { λ x y. y ≡ x };

    ghost is_infallible = { λ _. ⊤ };

    fn clone(&self) -> Result<EntryHasher, AllocError> {
        Ok(EntryHasher {
            hasher: self.hasher.clone()?,
        })
    }
}
