//! Reads a line of the file.

ghost use Rattle.dumpdates.specs.FoundLine.{IsLineFound};

use crate::Entry;
use crate::fields::fields_of;
use crate::moment::seconds_of;
use crate::words::{is_blank, words_of};

/// Why a line is neither blank nor an entry.
#[derive(Clone, Copy)]
pub(crate) enum EntryFault {
    /// It does not have the shape of an entry.
    BadShape,
    /// It has the shape of an entry, but its date or time is not valid.
    NoDate,
}

/// Returns the entry on a line, or None if the line is blank. Fails if the line is neither.
pub(crate) fn line_of(line: &[u8]) -> Result<Option<Entry<'_>>, EntryFault>
    ensures { IsLineFound line.now result }
{
    if is_blank(line) {
        return Ok(None);
    }
    let Some(words) = words_of(line) else {
        return Err(EntryFault::BadShape);
    };
    let Some(fields) = fields_of(words) else {
        return Err(EntryFault::BadShape);
    };
    let Some(date) = seconds_of(fields.moment) else {
        return Err(EntryFault::NoDate);
    };
    Ok(Some(Entry {
        name: fields.name,
        level: fields.level,
        date,
    }))
}
