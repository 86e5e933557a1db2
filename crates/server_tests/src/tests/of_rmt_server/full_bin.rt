//! A drive with one reel, and a bin that accepts none. Its contracts say nothing about the reel.

use drives::{DriveFault, Stacks};
use std::alloc::Global;
use tape::ListReel;

/// The drive `/dev/st0` with one reel, on its stack unless it is latched.
#[derive(Drop)]
pub(crate) struct FullBin {
    reel: Option<ListReel>,
    has_refused: bool,
}

impl FullBin {
    /// Makes the drive with an empty reel of 100 bytes.
    pub(crate) fn new(alloc: Global) -> FullBin {
        FullBin {
            reel: Some(ListReel::new(alloc, 100)),
            has_refused: false,
        }
    }
}

impl Stacks for FullBin {
    type Reel = ListReel;

    ghost holds = { λ _ _. ⊥ };

    ghost drives = { λ _. 1 };

    ghost failures = { λ _. 0 };

    ghost can_fail = { λ _. ⊥ };

    ghost makes = { λ _ _ _. Unit {0} };

    fn drive(&self, name: &[u8]) -> Option<usize> {
        if name == b"/dev/st0".as_slice() {
            Some(0)
        } else {
            None
        }
    }

    fn latch(&mut self, drive: usize) -> Result<ListReel, DriveFault> {
        self.reel.take().ok_or(DriveFault::NoReel)
    }

    fn unlatch(&mut self, drive: usize, reel: ListReel) {
        self.reel = Some(reel);
    }

    // The first call fails with `OutOfMemory`, later calls with `NameTaken`.
    fn offline(&mut self, drive: usize, reel: ListReel) -> Result<(), (ListReel, DriveFault)> {
        let fault = if self.has_refused {
            DriveFault::NameTaken
        } else {
            DriveFault::OutOfMemory
        };
        self.has_refused = true;
        Err((reel, fault))
    }

    fn failures(&self) -> u64 {
        0
    }

    ghost single = { λ stacks s t h k. absurd h };

    ghost once = { λ stacks s h. absurd h };

    ghost sized = { λ stacks s h. absurd h };
}
