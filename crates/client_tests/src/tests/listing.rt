//! Descriptions of record files, and the exit statuses of `rdump ls`, against values worked out by
//! hand.

use super::check_row;
use rdump_args::{ListLine, ListedReels};
use rdump_list::{is_whole, push_verdict, run_ls};
use std::alloc::{AllocError, Global};
use std::fs;
use std::io::Stderr;
use std::test::Fail;
use tape::MemoryMedium;
use volume_check::check_reel;

/// No terminal, so no progress is shown.
const NO_TERMINAL: Option<Stderr> = None;

/// The lines of a label. Zero bytes follow them, up to 1,024 bytes.
const LINES: &[u8] = b"name /usr\nlevel 0\ndate 951782400\nsince 0\nvolume 1\nfirst 0\n";

/// The length of a label, as it is framed in a record file.
const LABEL_LENGTH: &[u8] = &[0, 4, 0, 0];

/// Whether a record file begins with the label, its other bytes, its description, and whether it is
/// whole.
type Row = (bool, &'static [u8], &'static str, bool);

static ROWS: [Row; 10] = [
    (false, b"", "empty", false),
    (false, b"\0", "tail of 1 bytes", false),
    (
        false,
        b"\x03\0\0\0abc\x03\0\0\0\0\0\0\0",
        "not a volume of rdump",
        false,
    ),
    (true, b"", "no mark: 0 whole blocks", false),
    (
        true,
        b"\x02\0\0\0ab\x02\0\0\0\x02\0\0\0a",
        "no mark: 1 whole blocks, tail of 5 bytes",
        false,
    ),
    (true, b"\0\0\0\0", "whole", true),
    (true, b"\x02\0\0\0ab\x02\0\0\0\0\0\0\0", "whole", true),
    (true, b"\0\0\0\0\0\0\0\0", "more after the mark", false),
    (
        true,
        b"\0\0\0\0\0\0\0\0\x09",
        "more after the mark, tail of 1 bytes",
        false,
    ),
    (true, b"\0\0\0\0\x09", "tail of 1 bytes", false),
];

/// The bytes of a record file.
fn file_of(alloc: Global, row: &Row) -> Result<Vec<u8>, AllocError> {
    let mut bytes = Vec::new(alloc);
    if row.0 {
        bytes.extend_from_slice(LABEL_LENGTH)?;
        bytes.extend_from_slice(LINES)?;
        bytes.resize(1028, 0)?;
        bytes.extend_from_slice(LABEL_LENGTH)?;
    }
    bytes.extend_from_slice(row.1)?;
    Ok(bytes)
}

/// Whether a record file has this description.
fn is_said(alloc: Global, row: &Row) -> Result<bool, AllocError> {
    let mut medium = MemoryMedium::from_bytes(file_of(alloc, row)?);
    let Ok(contents) = check_reel(&mut medium, &mut [0; 100]) else {
        return Ok(false);
    };
    let mut arguments = Vec::new(alloc);
    push_verdict(&mut arguments, &contents)?;
    Ok(arguments.as_slice() == row.2.as_bytes() && is_whole(&contents) == row.3)
}

#[test]
fn what_is_said_of_reels(rt: HostRuntime) -> Result<(), Fail> {
    for (at, row) in ROWS.iter().enumerate() {
        let right = is_said(rt.alloc(), row)?;
        check_row(&rt, at, right);
    }
    Ok(())
}

/// Returns the exit status of `rdump ls` for one record file.
fn listed(rt: &HostRuntime, path: &'static str) -> Result<u8, AllocError> {
    let mut paths = Vec::new(rt.alloc());
    paths.push(path)?;
    let line = ListLine {
        reels: ListedReels::Paths(paths),
        dumpdates: None,
        blocks: None,
        catalog: None,
        wanted: None,
    };
    Ok(run_ls(rt, line, NO_TERMINAL).code())
}

/// `rdump ls` returns 0 for a whole volume, 3 for one that has only a label, and 1 for a missing
/// file.
#[test]
fn a_reel_is_listed(rt: HostRuntime) -> Result<(), Fail> {
    for (row, status) in [(5, 0), (3, 3)] {
        let bytes = file_of(rt.alloc(), &ROWS[row])?;
        fs::write(&rt, "reel", bytes.as_slice())?;
        let found = listed(&rt, "reel")?;
        fs::remove_file(&rt, "reel")?;
        assert!(&rt; found == status, "row {row}");
    }
    let missing = listed(&rt, "reel")?;
    assert!(rt; missing == 1);
    Ok(())
}
