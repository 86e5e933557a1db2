//! Hashes a volume.

ghost use Rattle.std.specs.Prelude.{◌≡◌, ◌+◌, ℕ, List, [], ◌∷◌, ◌++◌, IfSome, IsTrue, true, get_or};
ghost use Rattle.tape.specs.Tape.PlainEntry.{Record, Mark};
ghost use Rattle.volume_check.specs.Volume.{block_records, file_sum};
ghost use Rattle.volume_check.specs.Hashing.{HoldsEntries};
ghost use Rattle.volume_check.specs.Summing.{AreHashed};

use crate::EntryHasher;
use dump_run::LABEL_BYTES;
use tape::is_record;

/// The hash of a volume: of its label, and of its blocks as far as they were sent. A reel may
/// refuse the last block that was sent, so the hash without this block is kept too.
#[derive(Drop)]
pub(crate) struct VolumeHasher {
    // Whether volumes are hashed.
    is_on: bool,
    label: [u8; LABEL_BYTES],
    first: u32,
    count: u64,
    // Whether a volume was begun, and each block since then was added in its turn.
    is_known: bool,
    all: EntryHasher,
    but_last: EntryHasher,
}

impl VolumeHasher {
    pub(crate) fn empty(is_on: bool) -> VolumeHasher
        ensures { (payload : List (List ℕ)) → AreHashed result payload }
    {
        VolumeHasher {
            is_on,
            label: [0; LABEL_BYTES],
            first: 0,
            count: 0,
            is_known: false,
            all: EntryHasher::new(),
            but_last: EntryHasher::new(),
        }
    }

    pub(crate) fn begin(&mut self, label: &[u8; LABEL_BYTES], first: u32)
        ensures { (payload : List (List ℕ)) → AreHashed self.old payload → AreHashed self.new payload }
    {
        if !self.is_on {
            return;
        }
        let mut all = EntryHasher::new();
        all.record(label);
        self.label = *label;
        self.first = first;
        self.count = 0;
        self.is_known = true;
        self.all = all;
    }

    /// A block that is not the next one, or that cannot be a record, makes the hash unknown until
    /// the next volume begins.
    pub(crate) fn add_block(&mut self, number: u32, bytes: &[u8])
        ensures { (payload : List (List ℕ)) → bytes.now ≡ get_or payload number [] →
            AreHashed self.old payload → AreHashed self.new payload }
    {
        if !self.is_known || !self.is_next(number) || !is_record(bytes) {
            self.is_known = false;
            return;
        }
        let Ok(but_last) = self.all.clone() else {
            self.is_known = false;
            return;
        };
        self.but_last = but_last;
        self.all.record(bytes);
        self.count = u64::from(number - self.first) + 1;
    }

    fn is_next(&self, number: u32) -> bool
        ensures { IsTrue result → number ≡ self.now.first + self.now.count }
    {
        number >= self.first && u64::from(number - self.first) == self.count
    }

    pub(crate) fn sum(&self, label: &[u8; LABEL_BYTES], first: u32, count: u32) -> Option<[u8; 32]>
        ensures { IfSome result (λ sum. (payload : List (List ℕ)) → AreHashed self.now payload →
            sum ≡ file_sum (Record label.now ∷ (block_records payload first count ++ Mark ∷ []))) }
    {
        if !self.is_known || self.first != first || self.label != *label {
            return None;
        }
        let mut hasher = self.with_blocks(count)?;
        hasher.mark();
        Some(hasher.sum())
    }

    fn with_blocks(&self, count: u32) -> Option<EntryHasher>
        ensures { IfSome result (λ hasher. (payload : List (List ℕ)) → self.now.is_known ≡ true → AreHashed self.now payload →
            HoldsEntries hasher (Record self.now.label ∷ block_records payload self.now.first count)) }
    {
        let count = u64::from(count);
        if count == self.count {
            return self.all.clone().ok();
        }
        if self.count > 0 && count == self.count - 1 {
            return self.but_last.clone().ok();
        }
        None
    }
}
