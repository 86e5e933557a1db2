//! Reads a file line by line.

ghost use Rattle.std.specs.Prelude.{◌≡◌, ◌==◌, ◌≤◌, length, OnOk, IfErr};
ghost use Rattle.std.specs.List.{position_or_len};
ghost use Rattle.dumpdates.specs.FoundLine.{IsAdded, IsLineRefused};
ghost use Rattle.dumpdates.specs.Stored.{plain_all};
ghost use Rattle.dumpdates.specs.Text.{line_feed};

use crate::DatesFault;
use crate::line::{EntryFault, line_of};
use crate::list::append;
use crate::stored::Stored;
use std::alloc::Global;

pub(crate) fn line_len(bytes: &[u8]) -> usize
    ensures value { result ≡ position_or_len (λ b. b == line_feed) bytes.now }
    ensures within { result ≤ length bytes.now }
{
    for (at, byte) in bytes.iter().enumerate() {
        if *byte == b'\n' {
            return at;
        }
    }
    bytes.len()
}

/// Appends the entry on line `number`, unless the line is blank.
pub(crate) fn read_line(
    alloc: Global,
    entries: &mut Vec<Stored>,
    line: &[u8],
    number: usize,
) -> Result<(), DatesFault>
    ensures added { OnOk result (IsAdded line.now (plain_all entries.old.items) (plain_all entries.new.items)) }
    ensures refused { IfErr result (IsLineRefused line.now number) }
{
    match line_of(line) {
        Ok(None) => Ok(()),
        Ok(Some(entry)) => Ok(append(alloc, entries, entry)?),
        Err(EntryFault::BadShape) => Err(DatesFault::BadLine(number)),
        Err(EntryFault::NoDate) => Err(DatesFault::BadDate(number)),
    }
}
