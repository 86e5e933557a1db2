//! Bytes of a file that were read with a length. `at` is an offset in bytes.

ghost use Rattle.std.specs.Prelude.{◌≤◌};
ghost use Rattle.file_medium.specs.declared.file_medium.window.TheConstants.{WINDOW_SIZE};

use super::fill;
use std::fs::File;
use std::io;

/// The size of a length in a record file.
pub(super) const LENGTH_SIZE: usize = 4;

/// How many bytes are read for a length beside a mark, which may be one of many.
pub(super) const WINDOW_SIZE: usize = 4096;

/// How many bytes are read for any other length: that after a record, and that of the next entry.
const PAIR_SIZE: usize = 2 * LENGTH_SIZE;

const MARK: [u8; LENGTH_SIZE] = [0; LENGTH_SIZE];

#[derive(Drop)]
pub(super) struct Window {
    at: u64,
    filled: usize,
    /// Only the first `filled` were read.
    bytes: [u8; WINDOW_SIZE],
}

#[derive(Clone, Copy)]
pub(super) struct Piece {
    pub(super) at: u64,
    pub(super) size: usize,
    pub(super) ghost fits: { size ≤ WINDOW_SIZE },
}

impl Window {
    ghost use Rattle.std.specs.Prelude.{◌≡◌, ◌<◌, ◌+◌, ◌-◌, length, take, drop};

    pub(super) fn new() -> Window {
        Window {
            at: 0,
            filled: 0,
            bytes: [0; WINDOW_SIZE],
        }
    }

    pub(super) fn clear(&mut self) {
        self.filled = 0;
    }

    /// Reads a piece of a file in place of the bytes of before: at least `least` bytes if the file
    /// has them. If this fails, no bytes are left.
    pub(super) fn read(&mut self, file: &File, piece: Piece, least: usize) -> io::Result<()> {
        self.filled = 0;
        let filled = fill(file, piece.at, &mut self.bytes[..piece.size], least)?;
        self.at = piece.at;
        self.filled = filled;
        Ok(())
    }

    /// Returns the bytes from offset `at` on, if `at` is in the window.
    pub(super) fn rest(&self, at: u64) -> &[u8]
        ensures within { 0 < length result.now → (self.now.at ≤ at) × (at + length result.now ≤ self.now.at + self.now.filled) }
        ensures bytes { 0 < length result.now → result.now ≡ take (length result.now) (drop (at - self.now.at) self.now.bytes) }
    {
        let Some(passed) = at.checked_sub(self.at) else {
            return &[];
        };
        self.bytes.get(passed as usize..self.filled).unwrap_or(&[])
    }

    /// Returns which bytes to read for the length at offset `at`: many if the window has a mark
    /// beside it.
    pub(super) fn piece_for(&self, at: u64) -> Piece {
        let behind = at.saturating_add(LENGTH_SIZE as u64);
        if self.ends_in_mark(at) {
            return Piece {
                at,
                size: WINDOW_SIZE,
            };
        }
        if self.begins_with_mark(behind) {
            let from = behind.saturating_sub(WINDOW_SIZE as u64);
            return Piece {
                at: from,
                size: (behind - from) as usize,
            };
        }
        Piece {
            at,
            size: PAIR_SIZE,
        }
    }

    fn ends_in_mark(&self, end: u64) -> bool {
        match end.checked_sub(LENGTH_SIZE as u64) {
            Some(at) => self.rest(at) == MARK.as_slice(),
            None => false,
        }
    }

    fn begins_with_mark(&self, at: u64) -> bool {
        self.at == at && self.rest(at).starts_with(&MARK)
    }
}
