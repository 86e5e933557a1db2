//! The volumes that are missing of a dump of a catalog, and dates with their text in UTC, against
//! values worked out by hand.

use super::check_row;
use catalog::{Catalog, SumVerdict};
use dump_run::{DumpId, VolumeLabel};
use rdump_list::{JudgedReel, dump_in, push_date, push_dated_id, push_dated_volume};
use std::alloc::{AllocError, Global};
use std::test::Fail;

/// The date of the dump.
const DATE: u64 = 951782400;

/// The catalog of a dump of three volumes, without its last line.
const TEXT: &[u8] = b"\
begun     /usr level 0 date 951782400 since 0: 3 bytes\n\
1111111111111111111111111111111111111111111111111111111111111111  /usr level 0 date 951782400 since 0 volume 1 first 0, 1 blocks of 1 bytes, 1045 bytes\n\
2222222222222222222222222222222222222222222222222222222222222222  /usr level 0 date 951782400 since 0 volume 2 first 1, 1 blocks of 1 bytes, 1045 bytes\n\
3333333333333333333333333333333333333333333333333333333333333333  /usr level 0 date 951782400 since 0 volume 3 first 2, 1 blocks of 1 bytes, 1045 bytes\n";

/// Its last line.
const FINISHED: &[u8] =
    b"finished  /usr level 0 date 951782400 since 0: 3 volumes, 3 blocks of 1 bytes, 3 bytes\n";

/// Whether the catalog has its last line, the volumes of the reels, the verdict on them, and what is
/// there of the dump.
type Row = (bool, &'static [u32], SumVerdict, &'static str);

static ROWS: [Row; 8] = [
    (true, &[1, 2, 3], SumVerdict::Equal, "all volumes"),
    (true, &[3, 1, 2, 2], SumVerdict::Equal, "all volumes"),
    (true, &[1, 3], SumVerdict::Equal, "missing: volume 2"),
    (true, &[1], SumVerdict::Equal, "missing: volumes 2 to 3"),
    (true, &[2], SumVerdict::Equal, "missing: volumes 1, 3"),
    (true, &[], SumVerdict::Equal, "missing: volumes 1 to 3"),
    (
        true,
        &[1, 2, 3],
        SumVerdict::Differs,
        "missing: volumes 1 to 3",
    ),
    (false, &[1, 2, 3], SumVerdict::Equal, "not finished"),
];

/// Returns the label of a volume of the dump.
fn label(volume: u32) -> Option<VolumeLabel> {
    VolumeLabel::new("/usr", 0, DATE, 0, volume, volume.saturating_sub(1))
}

/// Whether the row says what is there.
fn is_found(alloc: Global, row: &Row) -> Result<bool, Fail> {
    let (is_finished, volumes, verdict, wanted) = row;
    let mut text = Vec::from_slice(alloc, TEXT)?;
    if *is_finished {
        text.extend_from_slice(FINISHED)?;
    }
    let mut labels = Vec::new(alloc);
    for volume in *volumes {
        if let Some(label) = label(*volume) {
            labels.push(label)?;
        }
    }
    let mut reels = Vec::new(alloc);
    for label in &labels {
        reels.push(JudgedReel {
            label,
            verdict: *verdict,
        })?;
    }
    let (Ok(catalog), Some(id)) = (Catalog::read(alloc, &text), DumpId::new("/usr", 0, DATE, 0))
    else {
        return Ok(false);
    };
    let Some(found) = dump_in(alloc, &catalog, &id, &reels)? else {
        return Ok(false);
    };
    let mut words = Vec::new(alloc);
    found.push(&mut words)?;
    Ok(words.as_slice() == wanted.as_bytes() && found.is_complete() == (*wanted == "all volumes"))
}

#[test]
fn what_is_there_of_a_dump(rt: HostRuntime) -> Result<(), Fail> {
    for (at, row) in ROWS.iter().enumerate() {
        check_row(&rt, at, is_found(rt.alloc(), row)?);
    }
    Ok(())
}

/// Returns a date, a dump and a volume, with their texts in UTC.
fn dated(alloc: Global) -> Result<Vec<u8>, AllocError> {
    let mut text = Vec::new(alloc);
    push_date(&mut text, b"at ", 0)?;
    text.extend_from_slice(b"; ")?;
    if let Some(id) = DumpId::new("/", 9, DATE, 86400) {
        push_dated_id(&mut text, &id)?;
    }
    text.extend_from_slice(b"; ")?;
    if let Some(label) = label(2) {
        push_dated_volume(&mut text, &label, 3, 1024)?;
    }
    Ok(text)
}

#[test]
fn dates_with_their_text(rt: HostRuntime) -> Result<(), Fail> {
    let text = dated(rt.alloc())?;
    let wanted = b"at 0 (1970-01-01 00:00:00); \
/ level 9 date 951782400 (2000-02-29 00:00:00) since 86400 (1970-01-02 00:00:00); \
/usr level 0 date 951782400 (2000-02-29 00:00:00) since 0 volume 2 first 1, 3 blocks of 1024 bytes";
    assert!(rt; text.as_slice() == wanted.as_slice());
    Ok(())
}
