//! Enters a dump in a dumpdates file.
ghost use Rattle.std.specs.Prelude.{◌≡◌, ◌⊎◌, List, IfErr, IfOk};
ghost use Rattle.dumpdates.specs.Dates.{entered};
ghost use Rattle.dumpdates.specs.Entry.{DatesEntry};
ghost use Rattle.dumpdates.specs.Lines.{HasDatesFault, SpellsDates};
ghost use Rattle.dumpdates.specs.Stored.{plain_entry};
ghost use Rattle.dumpdates.specs.Text.{written};
ghost use Rattle.dumpdates.specs.declared.fault.DatesFault.TheVariants.{OutOfMemory};
ghost use Rattle.dump_files.specs.Updating.{IsUpdated};
ghost use Rattle.whole_files.specs.WholeFile.{whole_file};

use dumpdates::{Dates, DatesFault, Entry};
use std::alloc::Global;
use whole_files::{FileFailed, WholeFile};

/// Why a dump was not entered. Only with `Unwritten` was a replacement tried.
#[derive(Clone, Copy, Debug, PartialEq, Eq)]
pub enum UpdateFault {
    /// The file could not be read.
    Unread,
    /// The file is not a dumpdates file, or an allocation failed.
    Dates(DatesFault),
    /// The file could not be replaced.
    Unwritten,
}

/// Enters a dump in a dumpdates file, and replaces the file with the new text. A file that does not
/// exist counts as empty.
pub fn update<F: WholeFile>(
    alloc: Global,
    file: &mut F,
    entry: Entry<'_>,
) -> Result<(), UpdateFault>
    ensures { IsUpdated (whole_file F.gives F.takes) (plain_entry entry.entry) file.old file.new result }
{
    let Ok(bytes) = file.read(alloc) else {
        return Err(UpdateFault::Unread);
    };
    let bytes = bytes.unwrap_or(Vec::new(alloc));
    let text = match text_with(alloc, &bytes, entry) {
        Ok(text) => text,
        Err(fault) => return Err(UpdateFault::Dates(fault)),
    };
    match file.replace(&text) {
        Ok(()) => Ok(()),
        Err(FileFailed) => Err(UpdateFault::Unwritten),
    }
}

fn text_with(alloc: Global, file: &[u8], entry: Entry<'_>) -> Result<Vec<u8>, DatesFault>
    ensures text { IfOk result (λ text. (entries : List DatesEntry) × SpellsDates file.now entries
        × (text.items ≡ written (entered entries (plain_entry entry.entry)))) }
    ensures fault { IfErr result (λ fault. HasDatesFault file.now fault ⊎ (fault ≡ OutOfMemory)) }
{
    let mut dates = Dates::read(alloc, file)?;
    dates.enter(entry)?;
    dates.text()
}
