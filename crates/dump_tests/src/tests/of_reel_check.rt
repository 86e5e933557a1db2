//! Reels that were written by hand, and what a check of them returns.

use dump_run::{Run, label};
use std::alloc::{AllocError, Global};
use std::test::Fail;
use tape::{FuseMedium, Medium, MediumFailed, MemoryMedium};
use volume_check::{
    Holding, ReelContents, ReelTally, VolumeEnd, check_reel, one_holding, one_volume,
};

/// One part of a reel.
#[derive(Clone, Copy)]
enum Part {
    /// The label of the run's volume 2, from block 5 on.
    Label,
    Record(&'static [u8]),
    Mark,
    /// The first bytes of a record whose end is missing.
    Torn,
}

/// The expected contents of a reel.
#[derive(Clone, Copy)]
enum Expected {
    Empty,
    /// A volume: its number of blocks, their length in bytes, and how it ends.
    Volume(u64, usize, VolumeEnd),
    Foreign,
}

/// The parts of a reel, the expected contents, and the number of records and of marks.
type Row = (&'static [Part], Expected, u64, u64);

const LABEL: Part = Part::Label;

const BLOCK: Part = Part::Record(b"block");

const OTHER: Part = Part::Record(b"other block");

const MARK: Part = Part::Mark;

static ROWS: [Row; 10] = [
    (&[], Expected::Empty, 0, 0),
    (&[LABEL], Expected::Volume(0, 0, VolumeEnd::NoMark), 1, 0),
    (
        &[LABEL, BLOCK, BLOCK],
        Expected::Volume(2, 5, VolumeEnd::NoMark),
        3,
        0,
    ),
    (
        &[LABEL, BLOCK, BLOCK, MARK],
        Expected::Volume(2, 5, VolumeEnd::OneMark),
        3,
        1,
    ),
    (
        &[LABEL, OTHER, MARK, MARK],
        Expected::Volume(1, 11, VolumeEnd::MoreAfterMark),
        2,
        2,
    ),
    (
        &[LABEL, OTHER, MARK, BLOCK],
        Expected::Volume(1, 11, VolumeEnd::MoreAfterMark),
        3,
        1,
    ),
    (&[LABEL, BLOCK, OTHER, MARK], Expected::Foreign, 3, 1),
    (&[BLOCK, MARK], Expected::Foreign, 1, 1),
    (&[MARK, LABEL, BLOCK, MARK], Expected::Foreign, 2, 2),
    (
        &[LABEL, LABEL, MARK],
        Expected::Volume(1, 1024, VolumeEnd::OneMark),
        2,
        1,
    ),
];

/// Returns the run of the labels.
fn dumped() -> Option<Run> {
    Run::new(b"/dev/st0", "/usr", 0, 951782400, 0, 5, 9).ok()
}

/// Whether a holding is as expected. A volume must have the label of volume 2, from block 5 on.
fn is_met(holding: &Holding, wanted: Expected) -> bool {
    match (holding, wanted) {
        (Holding::Empty, Expected::Empty) | (Holding::Foreign, Expected::Foreign) => true,
        (Holding::Volume(volume), Expected::Volume(blocks, block_bytes, end)) => {
            let label = &volume.label;
            label.name() == "/usr"
                && (label.volume(), label.first()) == (2, 5)
                && (volume.blocks, volume.block_bytes) == (blocks, block_bytes)
                && volume.end == end
        }
        _ => false,
    }
}

/// Passes a part to a tally. A torn record is left out.
fn tell(tally: &mut ReelTally, run: &Run, part: Part) {
    match part {
        Part::Label => tally.record(&label(run, 2, 5)),
        Part::Record(bytes) => tally.record(bytes),
        Part::Mark => tally.mark(),
        Part::Torn => {}
    }
}

/// Whether a tally of the parts gives the expected result.
fn tallies(run: &Run, row: &Row) -> bool {
    let (parts, wanted, records, marks) = *row;
    let mut tally = ReelTally::new();
    for part in parts {
        tell(&mut tally, run, *part);
    }
    (tally.records(), tally.marks()) == (records, marks)
        && is_met(tally.holding(), wanted)
        && is_met(&tally.into_holding(), wanted)
}

#[test]
fn a_tally_says_what_a_reel_holds(rt: HostRuntime) {
    one_holding();
    one_volume();
    let run = dumped().expect(&rt, "a run");
    for row in &ROWS {
        assert!(rt; tallies(&run, row));
    }
}

/// Appends a record to a record file.
fn put_record(medium: &mut MemoryMedium, bytes: &[u8]) -> Result<(), MediumFailed> {
    let Ok(length) = u32::try_from(bytes.len()) else {
        return Err(MediumFailed);
    };
    medium.append_framed(&length.to_le_bytes(), bytes)
}

/// Appends a part to a record file.
fn put(medium: &mut MemoryMedium, run: &Run, part: Part) -> Result<(), MediumFailed> {
    match part {
        Part::Label => put_record(medium, &label(run, 2, 5)),
        Part::Record(bytes) => put_record(medium, bytes),
        Part::Mark => medium.append(&[0; 4]),
        Part::Torn => medium.append(b"\x05\0\0\0blo"),
    }
}

/// Returns a record file of the parts, or `None` if they take more than 4096 bytes.
fn file_of(alloc: Global, run: &Run, parts: &[Part]) -> Result<Option<MemoryMedium>, AllocError> {
    let mut medium = MemoryMedium::new(alloc);
    medium.reserve(4096)?;
    for part in parts {
        if put(&mut medium, run, *part).is_err() {
            return Ok(None);
        }
    }
    Ok(Some(medium))
}

/// Whether the contents are as expected, for a file of `bytes` bytes of which `tail` are a torn
/// end.
fn are_met(contents: &ReelContents, row: &Row, bytes: usize, tail: u64) -> bool {
    is_met(&contents.holding, row.1)
        && (contents.records, contents.marks) == (row.2, row.3)
        && (contents.bytes, contents.tail) == (bytes as u64, tail)
}

/// Whether a check of the file gives the expected contents. Records are read in pieces as long as
/// `room`.
fn is_checked(medium: &mut MemoryMedium, row: &Row, room: &mut [u8], tail: u64) -> bool {
    let bytes = medium.bytes().len();
    match check_reel(medium, room) {
        Ok(contents) => are_met(&contents, row, bytes, tail),
        Err(_) => false,
    }
}

/// Whether a file of the row's parts gives the expected contents, whole and with a torn record
/// after its last.
fn checks(alloc: Global, run: &Run, row: &Row) -> Result<bool, AllocError> {
    let Some(mut medium) = file_of(alloc, run, row.0)? else {
        return Ok(false);
    };
    let whole = is_checked(&mut medium, row, &mut [0; 3], 0)
        && is_checked(&mut medium, row, &mut [0; 100], 0)
        && is_checked(&mut medium, row, &mut [], 0);
    let torn = put(&mut medium, run, Part::Torn).is_ok();
    Ok(whole && torn && is_checked(&mut medium, row, &mut [0; 3], 7))
}

#[test]
fn a_record_file_is_read_once(rt: HostRuntime) -> Result<(), Fail> {
    let run = dumped().expect(&rt, "a run");
    for row in &ROWS {
        assert!(&rt; checks(rt.alloc(), &run, row)?);
    }
    Ok(())
}

/// Whether a check fails if the medium fails at call `at`, counted from 0.
fn fails_at(alloc: Global, run: &Run, at: u64) -> Result<bool, AllocError> {
    let Some(medium) = file_of(alloc, run, &[BLOCK, MARK])? else {
        return Ok(false);
    };
    let mut medium = FuseMedium::new(medium, at, 0, true);
    Ok(check_reel(&mut medium, &mut [0; 2]).is_err() && medium.failures() == 1)
}

/// A check makes eight calls of the medium, and fails if one of them does. They read the size of
/// the file, the length before the block, its three pieces, the length after it, the mark, and the
/// end.
#[test]
fn a_failure_of_the_medium_is_told(rt: HostRuntime) -> Result<(), Fail> {
    let run = dumped().expect(&rt, "a run");
    for at in 0..8 {
        assert!(&rt; fails_at(rt.alloc(), &run, at)?);
    }
    assert!(&rt; !fails_at(rt.alloc(), &run, 8)?);
    Ok(())
}
