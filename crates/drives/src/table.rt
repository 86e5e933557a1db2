//! The table of drives.

ghost use Rattle.std.specs.Prelude.{◌≡◌, ◌<◌, ◌≤◌, IfOk, OnErr};
ghost use Rattle.drives.specs.Opening.{kinds, IsOpening};

use crate::{DriveFault, Holds, Stacks, Taken};

/// Drives with their holders and their reels.
#[derive(Drop)]
pub struct DriveTable<H: Holds, S: Stacks> {
    /// Which seat holds which drive.
    pub holds: H,
    /// The reels of the drives.
    pub stacks: S,
}

impl<H: Holds, S: Stacks> DriveTable<H, S> {
    /// Takes the drive with the given name for the given seat, and latches the first reel of the
    /// drive's stack. Returns the drive's number and the reel, which is at its beginning. The seat
    /// must belong to `holds`, and `stacks` must not have more drives than `holds`.
    ///
    /// Fails with the first error that applies: `NoSuchDrive`, `Busy` with the number of the
    /// holder, `NoReel`, or `Device` or `OutOfMemory` if the reel could not be latched. After an
    /// error the seat holds what it held before, and no reel has moved.
    pub fn open(&mut self, seat: &mut H::Seat, name: &[u8]) -> Result<(usize, S::Reel), DriveFault>
        requires seat { H.belongs self.old.holds seat.old }
        requires drives { S.drives self.old.stacks ≤ H.drives self.old.holds }
        ensures opens { IsOpening (kinds H.Holds S.Stacks S.Reel.Reel) self.old seat.old name.now result self.new seat.new }
        ensures held { OnErr result ((H.shows seat.new).held ≡ (H.shows seat.old).held) }
        ensures below { IfOk result (λ opened. opened.0 < S.drives self.new.stacks) }
    {
        let Some(drive) = self.stacks.drive(name) else {
            return Err(DriveFault::NoSuchDrive);
        };
        if let Taken::Busy(holder) = self.holds.take(seat, drive) {
            return Err(DriveFault::Busy(holder));
        }
        match self.stacks.latch(drive) {
            Ok(reel) => Ok((drive, reel)),
            Err(fault) => {
                self.holds.give(seat, drive);
                Err(fault)
            }
        }
    }
}
