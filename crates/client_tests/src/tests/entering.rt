//! Dumps that are entered in dumpdates, a date as text, and files that are replaced.

use super::check_row;
use super::store::{ENTERED, FIRST, Held, Kept, OLD};
use dump_files::{UpdateFault, date_text, update};
use dumpdates::{DatesFault, Entry};
use rmt_wire::Counted;
use std::alloc::Global;
use std::fs;
use std::test::Fail;
use whole_files::{FileFailed, ReplacedFile, WholeFile};

/// The result of reading the file, whether it can be replaced, the result of entering a dump, and
/// the text that replaces the file.
type Row = (Held, bool, Result<(), UpdateFault>, &'static [u8]);

/// A dump that is entered, and the same dump entered again. Then a missing file, one that cannot be
/// read, one that cannot be replaced, and a bad one.
static ROWS: [Row; 6] = [
    (Ok(Some(OLD)), true, Ok(()), ENTERED),
    (Ok(Some(ENTERED)), true, Ok(()), ENTERED),
    (Ok(None), true, Ok(()), FIRST),
    (Err(FileFailed), true, Err(UpdateFault::Unread), b""),
    (Ok(Some(OLD)), false, Err(UpdateFault::Unwritten), b""),
    (
        Ok(Some(b"\n/usr")),
        true,
        Err(UpdateFault::Dates(DatesFault::BadLine(2))),
        b"",
    ),
];

/// Whether entering a dump in such a file goes as the row says.
fn goes(alloc: Global, entry: Entry<'_>, row: &Row) -> bool {
    let (held, takes, wanted, put) = *row;
    let mut store = Kept::new(alloc, held, takes);
    update(alloc, &mut store, entry) == wanted && store.put.as_slice() == put
}

/// Runs `goes` with a dump of `/usr`.
fn enters(alloc: Global, row: &Row) -> bool {
    match Entry::new("/usr", 1, 951868800) {
        Some(entry) => goes(alloc, entry, row),
        None => false,
    }
}

#[test]
fn dumps_that_are_entered_or_not(rt: HostRuntime) {
    for (at, row) in ROWS.iter().enumerate() {
        check_row(&rt, at, enters(rt.alloc(), row));
    }
}

#[test]
fn a_date_as_text(rt: HostRuntime) {
    let Some(text) = date_text(rt.alloc(), 951782400) else {
        panic!(rt; "no text");
    };
    assert!(rt; text.as_str() == "Tue Feb 29 00:00:00 2000");
}

/// A file in place of the lock that is not empty stays, and nothing is read or replaced.
#[test]
fn what_lies_in_place_of_a_lock(rt: HostRuntime) -> Result<(), Fail> {
    fs::write(&rt, "kept.new", OLD)?;
    let mut file = ReplacedFile::new(&rt, rt.alloc(), "kept");
    assert!(rt; file.find_fault().is_some());
    assert!(rt; file.read(rt.alloc()).is_err());
    assert!(rt; file.replace(ENTERED).is_err());
    let unknown = file.find_unknown_new()?;
    assert!(rt; unknown.as_deref() == Some("kept.new"));
    let left = fs::read(&rt, "kept.new")?;
    fs::remove_file(&rt, "kept.new")?;
    assert!(rt; left.as_slice() == OLD);
    Ok(())
}

/// The text of a catalog is replaced, and the lock is gone then.
#[test]
fn a_catalog_that_is_replaced(rt: HostRuntime) -> Result<(), Fail> {
    assert!(rt; is_made_and_gone(&rt));
    let kept = fs::read(&rt, "catalog")?;
    fs::remove_file(&rt, "catalog")?;
    assert!(rt; kept.as_slice() == b"a line\n".as_slice());
    Ok(())
}

/// Whether the lock is there after a read of the catalog, and gone after a replacement.
fn is_made_and_gone(rt: &HostRuntime) -> bool {
    let mut file = ReplacedFile::new(rt, rt.alloc(), "catalog");
    let is_made = file.read(rt.alloc()) == Ok(None)
        && fs::exists(rt, "catalog.new").unwrap_or(false);
    let is_gone = file.replace(b"a line\n").is_ok()
        && !fs::exists(rt, "catalog.new").unwrap_or(true);
    is_made && is_gone
}

/// If something else has taken the place of this run's lock, it stays.
#[test]
fn what_takes_the_name_of_a_lock(rt: HostRuntime) -> Result<(), Fail> {
    fs::write(&rt, "taken", OLD)?;
    let mut file = ReplacedFile::new(&rt, rt.alloc(), "taken");
    assert!(rt; file.read(rt.alloc()).is_ok());
    fs::remove_file(&rt, "taken.new")?;
    fs::write(&rt, "taken.new", ENTERED)?;
    drop(file);
    fs::remove_file(&rt, "taken")?;
    assert!(rt; fs::remove_file(&rt, "taken.new").is_ok());
    Ok(())
}

#[test]
fn a_file_that_can_be_replaced_or_not(rt: HostRuntime) {
    let file = ReplacedFile::new(&rt, rt.alloc(), "dumpdates");
    assert!(rt; file.find_fault().is_none());
    assert!(rt; !fs::exists(&rt, "dumpdates.new").unwrap_or(true));
    let file = ReplacedFile::new(&rt, rt.alloc(), "none/dumpdates");
    assert!(rt; file.find_fault().is_some());
}
