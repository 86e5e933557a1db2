//! A payload from its reels, in any order. The labels and the records were written by hand.

use restore::{Gap, ListShelf, Refusal, RestoreFault, Wanted, restore, restore_partial};
use rmt_wire::Counted;
use std::alloc::{AllocError, Global};
use std::test::Fail;

/// The length of a label in a record file.
const LABEL_FRAME: &[u8] = b"\0\x04\0\0";

/// The offset behind a label's bytes in a record file.
const LABEL_END: usize = 4 + 1024;

/// The text at the beginning of a label, and the records of the blocks with the mark.
type Reel = (&'static [u8], &'static [u8]);

/// The blocks `abc` and `def`.
const FIRST: Reel = (
    b"name /usr\nlevel 0\ndate 951782400\nsince 0\nvolume 1\nfirst 0\n",
    b"\x03\0\0\0abc\x03\0\0\0\x03\0\0\0def\x03\0\0\0\0\0\0\0",
);

/// The block `ghi`.
const SECOND: Reel = (
    b"name /usr\nlevel 0\ndate 951782400\nsince 0\nvolume 2\nfirst 2\n",
    b"\x03\0\0\0ghi\x03\0\0\0\0\0\0\0",
);

/// The block `jk` and a zero that does not belong to the payload.
const THIRD: Reel = (
    b"name /usr\nlevel 0\ndate 951782400\nsince 0\nvolume 3\nfirst 3\n",
    b"\x03\0\0\0jk\0\x03\0\0\0\0\0\0\0",
);

/// A volume of another file system.
const OTHER: Reel = (
    b"name /var\nlevel 0\ndate 951782400\nsince 0\nvolume 1\nfirst 0\n",
    b"\x03\0\0\0xyz\x03\0\0\0\0\0\0\0",
);

/// Returns the record file of a reel.
fn record_file(alloc: Global, reel: &Reel) -> Result<Vec<u8>, AllocError> {
    let (text, records) = *reel;
    let mut bytes = Vec::from_slice(alloc, LABEL_FRAME)?;
    bytes.extend_from_slice(text)?;
    bytes.resize(LABEL_END, 0)?;
    bytes.extend_from_slice(LABEL_FRAME)?;
    bytes.extend_from_slice(records)?;
    Ok(bytes)
}

/// The reels, how the restore of 11 bytes ends, and what it writes.
type Row = (&'static [Reel], Result<(), RestoreFault>, &'static [u8]);

/// All volumes in another order; the same, with one of them twice and another dump; a volume is
/// missing.
static ROWS: [Row; 3] = [
    (&[THIRD, FIRST, SECOND], Ok(()), b"abcdefghijk"),
    (
        &[SECOND, OTHER, FIRST, THIRD, SECOND],
        Ok(()),
        b"abcdefghijk",
    ),
    (
        &[THIRD, FIRST],
        Err(RestoreFault::Refused(Refusal::Missing { volume: 2 })),
        b"",
    ),
];

/// The dump that is wanted, of 11 bytes.
const WANTED: Wanted<'static> = Wanted {
    name: Some("/usr"),
    level: Some(0),
    date: None,
    length: 11,
    volumes: None,
    lines: None,
};

/// Returns a shelf of these reels.
fn shelf_of(alloc: Global, reels: &[Reel]) -> Result<ListShelf, AllocError> {
    let mut list = Vec::new(alloc);
    for reel in reels {
        list.push(record_file(alloc, reel)?)?;
    }
    Ok(ListShelf::new(alloc, list))
}

/// Whether a restore goes as the row says.
fn goes(alloc: Global, row: &Row) -> Result<bool, AllocError> {
    let (reels, end, written) = *row;
    let mut shelf = shelf_of(alloc, reels)?;
    let mut bytes = Vec::new(alloc);
    let restored = restore(alloc, &mut shelf, &WANTED, &mut Counted::new(&mut bytes));
    Ok(restored == end && bytes.as_slice() == written)
}

#[test]
fn restores_a_payload(rt: HostRuntime) -> Result<(), Fail> {
    for (at, row) in ROWS.iter().enumerate() {
        let goes_so = goes(rt.alloc(), row)?;
        assert!(&rt; goes_so, "row {at}");
    }
    Ok(())
}

#[test]
fn restores_the_parts_of_a_payload(rt: HostRuntime) -> Result<(), Fail> {
    let alloc = rt.alloc();
    let mut shelf = shelf_of(alloc, &[THIRD, FIRST])?;
    let mut bytes = Vec::new(alloc);
    let mut out = Counted::new(&mut bytes);
    let restored = restore_partial(alloc, &mut shelf, &WANTED, Some(11), &mut out);
    let Ok(gaps) = restored else {
        return Err(Fail::new("the reels were refused"));
    };
    assert!(&rt;
        gaps.as_slice() == [Gap { first: 2, end: 3 }].as_slice(),
        "the gaps"
    );
    assert!(&rt;
        bytes.as_slice() == b"abcdef\0\0\0jk".as_slice(),
        "the bytes"
    );
    Ok(())
}
