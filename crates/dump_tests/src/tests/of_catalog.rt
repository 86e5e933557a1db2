//! The lines of catalogs that were written by hand.

use catalog::{
    BegunLine, Catalog, CatalogFault, CatalogLine, CatalogRun, FinishedLine, SumLine, SumVerdict,
    one_catalog, push_line, push_volume,
};
use dump_run::{DumpId, VolumeLabel};
use std::alloc::{AllocError, Global};
use std::test::Fail;

/// The number of bytes of a sum.
const SUM_BYTES: usize = 32;

/// A dump begins, two volumes are counted, and the dump is finished. The first sum is the bytes 0 to
/// 31, the second 32 times the byte 255.
const TEXT: &[u8] = b"\
begun     /usr level 0 date 951782400 since 0: 29537280 bytes\n\
000102030405060708090a0b0c0d0e0f101112131415161718191a1b1c1d1e1f\
\x20\x20/usr level 0 date 951782400 since 0 volume 1 first 0, 57690 blocks of 512 bytes, 29999836 bytes\n\
ffffffffffffffffffffffffffffffffffffffffffffffffffffffffffffffff\
\x20\x20/usr level 0 date 951782400 since 0 volume 2 first 57690, 0 blocks of 0 bytes, 1036 bytes\n\
finished  /usr level 0 date 951782400 since 0: 2 volumes, 57690 blocks of 512 bytes, 29537280 bytes\n";

/// The same dump begins anew.
const ANEW: &[u8] = b"begun     /usr level 0 date 951782400 since 0: 7 bytes\n";

/// The second volume is written again, with another sum.
const AGAIN: &[u8] = b"\
000102030405060708090a0b0c0d0e0f101112131415161718191a1b1c1d1e1f\
\x20\x20/usr level 0 date 951782400 since 0 volume 2 first 57690, 0 blocks of 0 bytes, 1036 bytes\n";

/// The line of the first volume after its sum, without its line feed.
const VOLUME: &[u8] =
    b"/usr level 0 date 951782400 since 0 volume 1 first 0, 57690 blocks of 512 bytes";

/// Texts that are no line after a sum.
static BAD_LINES: [&[u8]; 14] = [
    b"\n",
    b"  /usr level 0 date 1 since 0 volume 1 first 0, 0 blocks of 0 bytes, 1036 bytes",
    b" /usr level 0 date 1 since 0 volume 1 first 0, 0 blocks of 0 bytes, 1036 bytes\n",
    b"   /usr level 0 date 1 since 0 volume 1 first 0, 0 blocks of 0 bytes, 1036 bytes\n",
    b"  /usr level 00 date 1 since 0 volume 1 first 0, 0 blocks of 0 bytes, 1036 bytes\n",
    b"  /usr level 10 date 1 since 0 volume 1 first 0, 0 blocks of 0 bytes, 1036 bytes\n",
    b"  /usr level 0 date 1 since 0 volume 0 first 0, 0 blocks of 0 bytes, 1036 bytes\n",
    b"  /usr level 0 date 1 since 0 volume 257 first , 0 blocks of 0 bytes, 1036 bytes\n",
    b"  /usr level 0 date 1 since 0 volume 1 first 0, 0 blocks of 1 bytes, 1036 bytes\n",
    b"  /usr level 0 date 1 since 0 volume 1 first 0, 1 blocks of 0 bytes, 1044 bytes\n",
    b"  /usr level 0 date 1 since 0 volume 1 first 0, 0 blocks of 0 bytes, 1037 bytes\n",
    b"  /usr level 0 date 1 since 0 volume 1 first 0, 0 blocks of 0 bytes, 1036 byte\n",
    b"  /usr level 0 date 1 since 0 volume 1 first 0, 0 blocks of 0 bytes, 1036 bytes \n",
    b"  /u r level 0 date 1 since 0 volume 1 first 0, 0 blocks of 0 bytes, 1036 bytes\n",
];

/// Texts that are no line with which a dump begins or is finished.
static BAD_DUMPS: [&[u8]; 10] = [
    b"begun    /usr level 0 date 1 since 0: 1 bytes\n",
    b"begun      /usr level 0 date 1 since 0: 1 bytes\n",
    b"begun     /usr level 0 date 1 since 0: 18446744073709551616 bytes\n",
    b"begun     /usr level 0 date 1 since 0: 1 bytes",
    b"begun     /usr level 0 date 1 since 253402300800: 1 bytes\n",
    b"finished  /usr level 0 date 1 since 0: 0 volumes, 1 blocks of 1 bytes, 1 bytes\n",
    b"finished  /usr level 0 date 1 since 0: 1 volumes, 2147483648 blocks of 1 bytes, 1 bytes\n",
    b"finished  /usr level 0 date 1 since 0: 1 volumes, 1 blocks of 0 bytes, 1 bytes\n",
    b"finished  /usr level 0 date 1 since 0: 1 volumes, 1 blocks of 262145 bytes, 1 bytes\n",
    b"finished /usr level 0 date 1 since 0: 1 volumes, 1 blocks of 1 bytes, 1 bytes\n",
];

/// Returns the label of a volume of the dump in `TEXT`.
fn label_of(volume: u32, first: u32) -> Option<VolumeLabel> {
    VolumeLabel::new("/usr", 0, 951782400, 0, volume, first)
}

/// Returns the sum in the first line of `TEXT`.
fn first_sum() -> [u8; SUM_BYTES] {
    let mut sum = [0; SUM_BYTES];
    for (at, byte) in sum.iter_mut().enumerate() {
        *byte = at as u8;
    }
    sum
}

/// Returns the line of a volume of the dump in `TEXT`.
fn line_of(
    sum: [u8; SUM_BYTES],
    volume: u32,
    first: u32,
    blocks: u32,
    block_bytes: u32,
) -> Option<SumLine> {
    SumLine::new(sum, label_of(volume, first)?, blocks, block_bytes)
}

/// Returns the dump in `TEXT`.
fn usr() -> Option<DumpId> {
    DumpId::new("/usr", 0, 951782400, 0)
}

/// Returns the lines of `TEXT`.
fn lines_of() -> Option<[CatalogLine; 4]> {
    let begun = BegunLine::new(usr()?, 29537280);
    let first = line_of(first_sum(), 1, 0, 57690, 512)?;
    let second = line_of([255; SUM_BYTES], 2, 57690, 0, 0)?;
    let finished = FinishedLine::new(usr()?, 2, 57690, 512, 29537280)?;
    Some([
        CatalogLine::Begun(begun),
        CatalogLine::Volume(first),
        CatalogLine::Volume(second),
        CatalogLine::Finished(finished),
    ])
}

#[test]
fn lines_are_written_as_by_hand(rt: HostRuntime) -> Result<(), Fail> {
    one_catalog();
    let lines = lines_of().expect(&rt, "lines");
    let mut text = Vec::new(rt.alloc());
    for line in &lines {
        push_line(&mut text, line)?;
    }
    assert!(&rt; text.as_slice() == TEXT);
    let mut volume = Vec::new(rt.alloc());
    let label = label_of(1, 0).expect(&rt, "a label");
    push_volume(&mut volume, &label, 57690, 512)?;
    assert!(&rt; volume.as_slice() == VOLUME);
    Ok(())
}

/// Whether the id is that of the dump in `TEXT`.
fn is_usr(id: &DumpId) -> bool {
    (id.name(), id.level()) == ("/usr", 0) && (id.date(), id.since()) == (951782400, 0)
}

#[test]
fn an_id(rt: HostRuntime) {
    let id = usr().expect(&rt, "an id");
    let other = DumpId::new("/usr", 0, 951782400, 1).expect(&rt, "an id");
    assert!(&rt; is_usr(&id) && is_usr(&id.copy()));
    assert!(&rt; id.is_same(&id.copy()) && !id.is_same(&other));
    assert!(&rt; DumpId::new("/usr", 10, 0, 0).is_none() && DumpId::new("", 0, 0, 0).is_none());
}

/// Whether the line has these numbers.
fn has_numbers(line: &SumLine, blocks: u32, block_bytes: u32, bytes: u64) -> bool {
    (line.blocks(), line.block_bytes(), line.bytes()) == (blocks, block_bytes, bytes)
}

/// Whether these are the values of the finished dump in `TEXT`.
fn is_end(line: &FinishedLine) -> bool {
    is_usr(line.id())
        && (line.volumes(), line.blocks(), line.block_bytes()) == (2, 57690, 512)
        && line.bytes() == 29537280
}

/// Whether these are the lines of `TEXT`.
fn are_read(lines: &[CatalogLine]) -> bool {
    let [
        CatalogLine::Begun(begun),
        CatalogLine::Volume(first),
        CatalogLine::Volume(second),
        CatalogLine::Finished(finished),
    ] = lines
    else {
        return false;
    };
    is_usr(begun.id())
        && begun.bytes() == 29537280
        && *first.sum() == first_sum()
        && *second.sum() == [255; SUM_BYTES]
        && (first.label().volume(), second.label().volume()) == (1, 2)
        && has_numbers(first, 57690, 512, 29999836)
        && has_numbers(second, 0, 0, 1036)
        && is_end(finished)
}

/// Returns the catalog of `TEXT` and then `more`, or None if it cannot be read.
fn catalog_with(alloc: Global, more: &[u8]) -> Result<Option<Catalog>, AllocError> {
    let mut text = Vec::from_slice(alloc, TEXT)?;
    text.extend_from_slice(more)?;
    Ok(Catalog::read(alloc, &text).ok())
}

/// Returns the words of the verdict on the sum of a volume of the dump in `TEXT`.
fn words_of(
    catalog: &Catalog,
    volume: u32,
    first: u32,
    sum: &[u8; SUM_BYTES],
) -> Option<(SumVerdict, &'static str)> {
    let verdict = catalog.compare(&label_of(volume, first)?, sum);
    Some((verdict, verdict.words()))
}

#[test]
fn lines_are_read_and_compared(rt: HostRuntime) -> Result<(), Fail> {
    let catalog = catalog_with(rt.alloc(), b"")?.expect(&rt, "a catalog");
    assert!(&rt; are_read(catalog.lines()));
    let first = catalog.lines().first().expect(&rt, "a line");
    assert!(&rt; is_usr(first.id()));
    let own = words_of(&catalog, 1, 0, &first_sum());
    assert!(&rt; own == Some((SumVerdict::Equal, "sum equal")));
    let other = words_of(&catalog, 2, 57690, &first_sum());
    assert!(&rt; other == Some((SumVerdict::Differs, "sum differs")));
    let none = words_of(&catalog, 2, 0, &[255; SUM_BYTES]);
    assert!(&rt; none == Some((SumVerdict::Unknown, "no sum known")));
    Ok(())
}

#[test]
fn a_dump_that_is_begun_anew(rt: HostRuntime) -> Result<(), Fail> {
    let catalog = catalog_with(rt.alloc(), ANEW)?.expect(&rt, "a catalog");
    let anew = words_of(&catalog, 1, 0, &first_sum());
    assert!(&rt; anew == Some((SumVerdict::Anew, "of a dump that was begun anew")));
    let id = usr().expect(&rt, "an id");
    assert!(&rt; catalog.begun(&id) == 2);
    let run = catalog.run(&id).expect(&rt, "a run");
    assert!(&rt; run.begun.bytes() == 7 && run.after.is_empty());
    assert!(&rt; run.volume(1).is_none() && run.finished().is_none());
    Ok(())
}

#[test]
fn a_volume_that_is_written_again(rt: HostRuntime) -> Result<(), Fail> {
    let catalog = catalog_with(rt.alloc(), AGAIN)?.expect(&rt, "a catalog");
    let void = words_of(&catalog, 2, 57690, &[255; SUM_BYTES]);
    assert!(&rt; void == Some((SumVerdict::Void, "of a volume that was written again")));
    let own = words_of(&catalog, 2, 57690, &first_sum());
    assert!(&rt; own == Some((SumVerdict::Equal, "sum equal")));
    let id = usr().expect(&rt, "an id");
    assert!(&rt; catalog.run(&id).expect(&rt, "a run").finished().is_none());
    Ok(())
}

/// Whether the run has the volumes of `TEXT`, and is finished as it says.
fn is_whole(run: &CatalogRun<'_>) -> bool {
    let (Some(first), Some(second), Some(finished)) = (run.volume(1), run.volume(2), run.finished())
    else {
        return false;
    };
    has_numbers(first, 57690, 512, 29999836) && has_numbers(second, 0, 0, 1036) && is_end(finished)
}

#[test]
fn the_lines_of_a_dump(rt: HostRuntime) -> Result<(), Fail> {
    let catalog = catalog_with(rt.alloc(), b"")?.expect(&rt, "a catalog");
    let id = usr().expect(&rt, "an id");
    assert!(&rt; catalog.begun(&id) == 1);
    let run = catalog.run(&id).expect(&rt, "a run");
    assert!(&rt; is_whole(&run) && run.volume(3).is_none());
    let other = DumpId::new("/usr", 1, 951782400, 0).expect(&rt, "an id");
    assert!(&rt; catalog.begun(&other) == 0 && catalog.run(&other).is_none());
    Ok(())
}

#[test]
fn a_finished_dump(rt: HostRuntime) {
    let id = usr().expect(&rt, "an id");
    let line = FinishedLine::new(id.copy(), 2, 57690, 512, 29537280).expect(&rt, "a line");
    let other = FinishedLine::new(id.copy(), 2, 57690, 512, 29537281).expect(&rt, "a line");
    assert!(&rt; is_end(&line) && line.is_same(&line) && !line.is_same(&other));
    assert!(&rt; FinishedLine::new(id.copy(), 0, 1, 1, 1).is_none());
    assert!(&rt; FinishedLine::new(id.copy(), 1, 2147483648, 1, 1).is_none());
    assert!(&rt; FinishedLine::new(id, 1, 1, 262145, 1).is_none());
}

#[test]
fn numbers_have_limits(rt: HostRuntime) {
    let sum = [0; SUM_BYTES];
    assert!(&rt; line_of(sum, 1, 0, 2147483647, 262144).is_some());
    assert!(&rt; line_of(sum, 1, 0, 2147483648, 262144).is_none());
    assert!(&rt; line_of(sum, 1, 0, 1, 262145).is_none());
    assert!(&rt; line_of(sum, 1, 0, 1, 0).is_none());
    assert!(&rt; line_of(sum, 1, 0, 0, 1).is_none());
}

/// Whether `TEXT` and then these bytes are refused for their fifth line.
fn is_refused(alloc: Global, sum: &[u8], line: &[u8]) -> Result<bool, AllocError> {
    let mut text = Vec::from_slice(alloc, TEXT)?;
    text.extend_from_slice(sum)?;
    text.extend_from_slice(line)?;
    match Catalog::read(alloc, &text) {
        Err(CatalogFault::BadLine(5)) => Ok(true),
        _ => Ok(false),
    }
}

/// A sum of zeros, in hexadecimal digits.
const ZEROS: &[u8] = b"0000000000000000000000000000000000000000000000000000000000000000";

#[test]
fn a_bad_line_is_named(rt: HostRuntime) -> Result<(), Fail> {
    for line in BAD_LINES {
        assert!(&rt; is_refused(rt.alloc(), ZEROS, line)?);
    }
    for line in BAD_DUMPS {
        assert!(&rt; is_refused(rt.alloc(), b"", line)?);
    }
    let named = CatalogFault::BadLine(3).to_string(rt.alloc())?;
    assert!(&rt; named.as_str() == "line 3: bad line");
    let memory = CatalogFault::OutOfMemory.to_string(rt.alloc())?;
    assert!(&rt; memory.as_str() == "out of memory");
    Ok(())
}
