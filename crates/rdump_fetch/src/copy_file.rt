//! The file of a copy.
ghost use Rattle.std.specs.Prelude.{◌++◌, IsOk, Some, is_ok};
ghost use Rattle.tape.specs.Failures.{Steps};
ghost use Rattle.rdump_fetch.specs.Copy.{IsCopyAdded, IsCopyBegun, PlainCopy};

use dump_run::VolumeLabel;
use std::io;

/// A file into which a reel is copied: one reel after the other, each into a file of its own. Its
/// calls fail with the system's error.
///
/// If nothing is known of the disk, `holds` and the others relate the file to nothing, and the
/// clauses say nothing.
pub trait CopyFile {
    ghost use Rattle.std.specs.Prelude.{Option};
    ghost use Rattle.rdump_fetch.specs.Copy.{PlainCopy};

    /// Relates the file to the copy that is made, if that is known. None is no copy.
    ghost holds: { Self → Option PlainCopy → Type 0 };

    /// Relates the file to a copy that is synced.
    ghost synced: { Self → PlainCopy → Type 0 };

    /// Relates the file to a copy that is placed.
    ghost placed: { Self → PlainCopy → Type 0 };

    /// Relates the file to a copy that is kept.
    ghost kept: { Self → PlainCopy → Type 0 };

    /// Begins the copy of the volume that has this label. Also fails if the copy cannot have a
    /// name.
    fn begin(&mut self, label: &VolumeLabel) -> io::Result<()>
        ensures { Steps holds self.old self.new (IsCopyBegun label.now (is_ok result)) };

    /// Appends `frame`, `bytes` and `frame` again to the copy. If it fails, a beginning of these
    /// bytes may have been appended.
    fn append_framed(&mut self, frame: &[u8], bytes: &[u8]) -> io::Result<()>
        ensures { Steps holds self.old self.new (IsCopyAdded (frame.now ++ (bytes.now ++ frame.now)) (is_ok result)) };

    /// Waits until the bytes of the copy are on the disk.
    fn sync(&mut self) -> io::Result<()>
        ensures { IsOk result → (copy : PlainCopy) → holds self.old (Some copy) → synced self.new copy };

    /// Gives the copy its name. A file of that name that exists already stays as it is. If it has
    /// other bytes, the call fails.
    fn place(&mut self) -> io::Result<()>
        ensures { IsOk result → (copy : PlainCopy) → synced self.old copy → placed self.new copy };

    /// Waits until the name of the copy is on the disk.
    fn sync_name(&mut self) -> io::Result<()>
        ensures { IsOk result → (copy : PlainCopy) → placed self.old copy → kept self.new copy };

    /// Ends the work on the copy, whether it is kept or not: another run may write it from now on.
    fn leave(&mut self)
        ensures { (copy : PlainCopy) → kept self.old copy → kept self.new copy };
}
