//! A record file that ends after too many marks in a row.
ghost use Rattle.std.specs.Prelude.{◌≡◌};

use file_medium::FileMedium;
use std::marker::Model;
use tape::{LENGTH_BYTES, Medium, MediumFailed};

/// A file of zeros is nothing but marks, and a sparse one may have more than can be read in a day.
const MOST_MARKS: u32 = 1_000_000;

const MARK: [u8; LENGTH_BYTES as usize] = [0; LENGTH_BYTES as usize];

/// A record file with at most 1,000,000 marks in a row: after these, a read of a length returns no
/// bytes, as at the end. Its contracts do not say which bytes it contains.
#[derive(Drop)]
pub struct MarkLimit {
    medium: FileMedium,
    next: u64,
    marks: u32,
    is_over: bool,
}

impl MarkLimit {
    /// Limits the marks in a row of this medium.
    pub fn new(medium: FileMedium) -> Self {
        MarkLimit {
            medium,
            next: 0,
            marks: 0,
            is_over: false,
        }
    }

    /// Whether there were too many marks in a row, so that the reads ended before the medium did.
    pub fn is_over(&self) -> bool {
        self.is_over
    }

    /// Counts the length read at this offset, if it is a mark. Returns whether there are too many
    /// in a row.
    fn counts_too_many(&mut self, at: u64, length: &[u8]) -> bool
        ensures { self.new ≡ self.old }
    {
        if length != MARK.as_slice() {
            return false;
        }
        let is_in_row = at == self.next && at > 0;
        self.marks = if is_in_row {
            self.marks.saturating_add(1)
        } else {
            1
        };
        self.next = at.saturating_add(LENGTH_BYTES);
        self.marks > MOST_MARKS
    }
}

impl Model for MarkLimit {
    ghost use Rattle.file_medium.specs.Files.{FileCount};

    ghost Value = { FileCount };

    ghost view = { λ s. s.medium };
}

impl Medium for MarkLimit {
    ghost holds = { λ _ _. ⊥ };

    ghost failures = { λ m. m.failures };

    ghost can_fail = { λ _. Unit {0} };

    ghost spare = { λ _. 0 };

    ghost single = { λ _ _ _ told _. absurd told };

    ghost bounded = { λ _ _ told. absurd told };

    fn len(&mut self) -> Result<u64, MediumFailed> {
        self.medium.len()
    }

    fn read_at(&mut self, at: u64, into: &mut [u8]) -> Result<usize, MediumFailed> {
        let count = self.medium.read_at(at, into)?;
        if self.counts_too_many(at, &into[..count]) {
            self.is_over = true;
            return Ok(0);
        }
        Ok(count)
    }

    fn append(&mut self, bytes: &[u8]) -> Result<(), MediumFailed> {
        self.medium.append(bytes)
    }

    fn cut(&mut self, len: u64) -> Result<(), MediumFailed> {
        self.medium.cut(len)
    }

    fn failures(&self) -> u64 {
        self.medium.failures()
    }
}
