//! Entries of record files.

use std::test::Fail;
use tape::{Entry, read_entries};

/// A record `abc`, a mark, a record of one zero byte, and a record whose end was never written.
static FILE: &[u8] = b"\x03\0\0\0abc\x03\0\0\0\0\0\0\0\x01\0\0\0\0\x01\0\0\0\x02\0\0\0de\x02\0\0";

/// Whether these are the entries of the file.
fn are_all(entries: &[Entry]) -> bool {
    match entries {
        [Entry::Record(first), Entry::Mark, Entry::Record(last)] => {
            first.as_slice() == b"abc".as_slice() && last.as_slice() == b"\0".as_slice()
        }
        _ => false,
    }
}

#[test]
fn reads_each_whole_entry(rt: HostRuntime) -> Result<(), Fail> {
    let entries = read_entries(rt.alloc(), FILE)?;
    assert!(&rt; are_all(&entries));
    Ok(())
}
