//! The contract of stacks.

ghost use Rattle.std.specs.Prelude.{◌≡◌, ℕ, ◌<◌, IfSome, IfErr, length};
ghost use Rattle.drives.specs.TapeLibrary.{TapeLibrary, IsDriveNamed, EachReelOnce};
ghost use Rattle.drives.specs.Calls.{StacksCall, stacks_kind};
ghost use Rattle.drives.specs.Calls.StacksCall.{Latch, LayBack};
ghost use Rattle.drives.specs.Stacking.{HasLatched, IsStacksCall, IsMoveCall};

use crate::{DriveFault, OpenRefusal};
use tape::Reel;

/// Drives, each with a stack of reels, and one bin. Drives are numbered from 0.
///
/// Clauses about a `TapeLibrary` apply only if the implementation specifies its contents.
pub trait Stacks {
    /// A latched reel.
    type Reel: Reel + Drop;

    /// The contents, if they are specified.
    ghost holds: { Self → TapeLibrary → Type 0 };

    /// The number of drives.
    ghost drives: { Self → ℕ };

    /// The count of device failures, up to the greatest `u64`.
    ghost failures: { Self → ℕ };

    /// A device can fail in the next call: that of the stacks, or that of a reel on them or in the
    /// bin.
    ghost can_fail: { Self → Type 0 };

    /// The further promises of this implementation for a call.
    ghost makes: { Self → Self → StacksCall Self.Reel → Type 0 };

    /// Returns the number of the first drive with the given name, if there is one. It allocates
    /// nothing.
    fn drive(&self, name: &[u8]) -> Option<usize>
        ensures below { IfSome result (λ d. d < drives self.now) }
        ensures named { (s : TapeLibrary) → holds self.now s → IsDriveNamed name.now s result };

    /// Latches (mounts) the first reel of the given drive's stack and returns it, positioned at its
    /// beginning. Until `unlatch` or `offline` gets the reel back, it cannot be latched again.
    ///
    /// Fails with `NoReel` if the stack has no reel or its first reel is already latched. Fails
    /// with `Device` if the device that stores the reels fails, and with `OutOfMemory` if an
    /// allocation fails. No reel is moved then.
    fn latch(&mut self, drive: usize) -> Result<Self::Reel, DriveFault>
        requires { drive < drives self.old }
        ensures { IsStacksCall (stacks_kind holds drives failures can_fail makes) Self.Reel.Reel self.old (Latch drive result) self.new };

    /// Lays `reel`, the given drive's latched reel, back on the drive's stack. It allocates
    /// nothing, counts no failure and never fails. Stacks in folders sync the file here.
    fn unlatch(&mut self, drive: usize, reel: Self::Reel)
        requires drive { drive < drives self.old }
        requires latched { HasLatched holds self.old drive }
        ensures { IsStacksCall (stacks_kind holds drives failures can_fail makes) Self.Reel.Reel self.old (LayBack drive reel) self.new };

    /// Moves `reel`, the given drive's latched reel, to the end of the bin.
    ///
    /// Fails with `Device`, with `OutOfMemory`, and with `NameTaken` if the bin has a reel with
    /// that name. The error contains the reel, and no reel has moved.
    fn offline(&mut self, drive: usize, reel: Self::Reel) -> Result<(), (Self::Reel, DriveFault)>
        requires drive { drive < drives self.old }
        requires latched { HasLatched holds self.old drive }
        ensures call { IsMoveCall (stacks_kind holds drives failures can_fail makes) Self.Reel.Reel self.old drive reel result self.new }
        ensures back { IfErr result (λ refused. refused.0 ≡ reel) };

    /// Returns how many times the device that stores the reels has failed, up to the greatest
    /// `u64`.
    fn failures(&self) -> u64
        ensures { result ≡ failures self.now };

    /// Adds a line to the log of the stacks, if they keep one.
    fn note(&self, _line: &str) {}

    /// Logs that an open of the drive with the given name was refused, if the stacks keep a log.
    fn note_refused(&self, _name: &[u8], _why: OpenRefusal) {}

    ghost single: { (stacks : Self) (s t : TapeLibrary) → holds stacks s → holds stacks t → s ≡ t };

    ghost once: { (stacks : Self) (s : TapeLibrary) → holds stacks s → EachReelOnce s };

    ghost sized: { (stacks : Self) (s : TapeLibrary) → holds stacks s → length s.drives ≡ drives stacks };
}
