//! A shelf in memory.
ghost use Rattle.std.specs.Prelude.{◌≡◌, map};
ghost use Rattle.restore.specs.Restored.{bytes_of};

use crate::{OpenFailed, Shelf};
use catalog::SumVerdict;
use std::alloc::Global;
use std::marker::Model;
use tape::MemoryMedium;

/// A shelf whose reels are in memory. Contracts always know the bytes of its reels.
#[derive(Drop)]
pub struct ListShelf {
    alloc: Global,
    reels: Vec<Vec<u8>>,
}

impl Model for ListShelf {
    ghost use Rattle.std.specs.Prelude.{ℕ, List};
    ghost use Rattle.restore.specs.Restored.{bytes_of};

    ghost Value = { List (List ℕ) };

    ghost view = { λ s. bytes_of s.reels };
}

impl ListShelf {
    /// Makes a shelf with the given reels: the bytes of each one's record file. Allocates nothing.
    pub fn new(alloc: Global, reels: Vec<Vec<u8>>) -> ListShelf
        ensures { result ≡ bytes_of reels }
    {
        ListShelf { alloc, reels }
    }
}

impl Shelf for ListShelf {
    type Reel = MemoryMedium;

    ghost holds = { λ s reels. reels ≡ s };

    fn count(&self) -> usize {
        self.reels.len()
    }

    /// Copies the bytes of the reel.
    fn open(&mut self, number: usize) -> Result<MemoryMedium, OpenFailed> {
        let Some(bytes) = self.reels.get(number) else {
            return Err(OpenFailed);
        };
        match Vec::from_slice(self.alloc, bytes.as_slice()) {
            Ok(copy) => Ok(MemoryMedium::from_bytes(copy)),
            Err(_) => Err(OpenFailed),
        }
    }

    fn close(&mut self, reel: MemoryMedium) {
        let _ = reel;
    }

    /// Does nothing.
    fn set_aside(&mut self, number: usize, verdict: SumVerdict) {
        let _ = (number, verdict);
    }
}
