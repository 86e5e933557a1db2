//! A file that is read whole and replaced whole.
ghost use Rattle.whole_files.specs.WholeFile.{plain_read};

use std::alloc::Global;
use thiserror::Error;

/// A file could not be read or replaced.
#[derive(Clone, Copy, Debug, PartialEq, Eq, Error)]
#[error("FileFailed")]
pub struct FileFailed;

/// A file that is read as a whole and replaced as a whole.
pub trait WholeFile {
    ghost use Rattle.std.specs.Prelude.{List, Option, Result, ℕ};
    ghost use Rattle.whole_files.specs.declared.whole_file.FileFailed.{FileFailed};

    /// The result of a read: none if the file does not exist.
    ghost gives: { Self → Result (Option (List ℕ)) FileFailed → Self → Type 0 };

    /// The result of putting a text in place.
    ghost takes: { Self → List ℕ → Result Unit FileFailed → Self → Type 0 };

    /// Reads the whole file. Returns none if it does not exist.
    fn read(&mut self, alloc: Global) -> Result<Option<Vec<u8>>, FileFailed>
        // The contract of `ReplacedFile` says nothing here, nor at `replace`. Tests:
        // `tests/checks/updates.py`, and `what_takes_the_name_of_a_lock` in `client_tests`.
        ensures { gives self.old (plain_read result) self.new };

    /// Replaces the whole file with this text. The file need not exist. If this fails, it is
    /// unchanged.
    fn replace(&mut self, text: &[u8]) -> Result<(), FileFailed>
        ensures { takes self.old text.now result self.new };
}
