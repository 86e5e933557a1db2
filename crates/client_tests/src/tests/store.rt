//! A dumpdates file in memory, and its texts.

use std::alloc::Global;
use whole_files::{FileFailed, WholeFile};

pub(super) const OLD: &[u8] = b"/usr                             0 Tue Feb 29 00:00:00 2000
/usr                             1 Tue Feb 29 00:00:00 2000
/home                            0 Thu Jan  1 00:00:00 1970
";

/// The same file with a later dump of `/usr` at level 1.
pub(super) const ENTERED: &[u8] = b"/usr                             0 Tue Feb 29 00:00:00 2000
/usr                             1 Wed Mar  1 00:00:00 2000
/home                            0 Thu Jan  1 00:00:00 1970
";

/// A file with that dump alone.
pub(super) const FIRST: &[u8] = b"/usr                             1 Wed Mar  1 00:00:00 2000\n";

/// The result of reading a file in memory.
pub(super) type Held = Result<Option<&'static [u8]>, FileFailed>;

/// A file in memory, which cannot be replaced if `takes` is false. It keeps the text that replaces
/// it.
#[derive(Drop)]
pub(super) struct Kept {
    pub(super) put: Vec<u8>,
    held: Held,
    takes: bool,
}

impl Kept {
    /// Makes a file whose reads return `held`.
    pub(super) fn new(alloc: Global, held: Held, takes: bool) -> Kept {
        Kept {
            put: Vec::new(alloc),
            held,
            takes,
        }
    }
}

impl WholeFile for Kept {
    ghost gives = { λ _ _ _. Unit {0} };

    ghost takes = { λ _ _ _ _. Unit {0} };

    fn read(&mut self, alloc: Global) -> Result<Option<Vec<u8>>, FileFailed> {
        let Some(text) = self.held? else {
            return Ok(None);
        };
        match Vec::from_slice(alloc, text) {
            Ok(bytes) => Ok(Some(bytes)),
            Err(_) => Err(FileFailed),
        }
    }

    fn replace(&mut self, text: &[u8]) -> Result<(), FileFailed> {
        if self.takes && self.put.extend_from_slice(text).is_ok() {
            Ok(())
        } else {
            Err(FileFailed)
        }
    }
}
