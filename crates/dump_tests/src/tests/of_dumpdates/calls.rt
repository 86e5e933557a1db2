//! Calls that the tests share.

use dumpdates::{Dates, DatesFault, Entry};
use std::alloc::Global;
use std::process::Abort;

/// An entry: its name, its level and its date.
pub(crate) type Row = (&'static str, u8, u64);

/// Fails the test with this message if `is_so` is false.
pub(crate) fn expect(rt: &impl Abort, is_so: bool, what: &str) {
    assert!(rt; is_so, "{what}");
}

/// Enters a dump into a list. Returns whether it is a valid entry and was entered.
pub(crate) fn enter(dates: &mut Dates, (name, level, date): Row) -> bool {
    match Entry::new(name, level, date) {
        Some(entry) => dates.enter(entry).is_ok(),
        None => false,
    }
}

/// Returns a list in which these entries were entered in turn.
pub(crate) fn dates_of(alloc: Global, entries: &[Row]) -> Option<Dates> {
    let mut dates = Dates::new(alloc);
    for entry in entries {
        if !enter(&mut dates, *entry) {
            return None;
        }
    }
    Some(dates)
}

/// Whether there is an entry, and it has these fields.
pub(crate) fn is_entry(entry: Option<Entry<'_>>, fields: Row) -> bool {
    match entry {
        Some(entry) => (entry.name, entry.level, entry.date) == fields,
        None => false,
    }
}

/// Whether a list has exactly these entries, in this order.
pub(crate) fn holds(dates: &Dates, entries: &[Row]) -> bool {
    for (at, entry) in entries.iter().enumerate() {
        if !is_entry(dates.get(at), *entry) {
            return false;
        }
    }
    dates.len() == entries.len() && dates.get(entries.len()).is_none()
}

/// Whether a list is written as this text.
pub(crate) fn has_text(dates: &Dates, wanted: &[u8]) -> bool {
    match dates.text() {
        Ok(text) => text.as_slice() == wanted,
        Err(_) => false,
    }
}

/// Whether reading the bytes fails with this fault.
pub(crate) fn has_fault(alloc: Global, bytes: &[u8], fault: DatesFault) -> bool {
    Dates::read(alloc, bytes).err() == Some(fault)
}
