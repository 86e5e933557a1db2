//! Runs within and beyond each limit, the values that a run returns, the longest label, and labels
//! of one dump.

use dump_run::{LABEL_BYTES, Run, RunFault, VolumeLabel, label};
use std::alloc::Global;

/// The longest device, and one that is a byte too long.
const LONGEST: [u8; 255] = [b'x'; 255];

const LONG: [u8; 256] = [b'x'; 256];

/// The values of a run: device, name, level, both dates, block size, and number of blocks. The last
/// field is the name of the fault, or empty if there is none.
type Row = (
    &'static [u8],
    &'static str,
    u64,
    (u64, u64),
    u64,
    u64,
    &'static str,
);

/// Each limit alone, other ways to exceed one, and several at once. If several are exceeded, the
/// first is reported.
static ROWS: [Row; 18] = [
    (b"/dev/st0", "/usr", 0, (951782400, 0), 1024, 3, ""),
    (b"", "/usr", 0, (951782400, 0), 1024, 3, "BadDevice"),
    (
        b"/dev/st0",
        "/usr /home",
        0,
        (951782400, 0),
        1024,
        3,
        "BadName",
    ),
    (b"/dev/st0", "/usr", 10, (951782400, 0), 1024, 3, "BadLevel"),
    (
        b"/dev/st0",
        "/usr",
        0,
        (253402300800, 0),
        1024,
        3,
        "BadDate",
    ),
    (
        b"/dev/st0",
        "/usr",
        0,
        (951782400, 0),
        262145,
        3,
        "BadBlockSize",
    ),
    (
        b"/dev/st0",
        "/usr",
        0,
        (951782400, 0),
        1024,
        2147483648,
        "TooManyBlocks",
    ),
    (&LONGEST, "/usr", 0, (951782400, 0), 1024, 3, ""),
    (&LONG, "/usr", 0, (951782400, 0), 1024, 3, "BadDevice"),
    (b"/dev\n", "/usr", 0, (951782400, 0), 1024, 3, "BadDevice"),
    (b"/dev/st0", "", 0, (951782400, 0), 1024, 3, "BadName"),
    (
        b"/dev/st0",
        "/usr",
        0,
        (0, 253402300800),
        1024,
        3,
        "BadDate",
    ),
    (b"/dev/st0", "/usr", 0, (951782400, 0), 0, 3, "BadBlockSize"),
    (
        b"",
        "",
        10,
        (253402300800, 253402300800),
        0,
        2147483648,
        "BadDevice",
    ),
    (
        b"/dev/st0",
        "",
        10,
        (253402300800, 253402300800),
        0,
        2147483648,
        "BadName",
    ),
    (
        b"/dev/st0",
        "/usr",
        10,
        (253402300800, 253402300800),
        0,
        2147483648,
        "BadLevel",
    ),
    (
        b"/dev/st0",
        "/usr",
        9,
        (253402300800, 253402300800),
        0,
        2147483648,
        "BadDate",
    ),
    (
        b"/dev/st0",
        "/usr",
        9,
        (0, 0),
        0,
        2147483648,
        "BadBlockSize",
    ),
];

/// Returns the fault of a row's run, if any.
fn fault_of(row: &Row) -> Option<RunFault> {
    let (device, name, level, dates, size, blocks, _) = *row;
    Run::new(device, name, level, dates.0, dates.1, size, blocks).err()
}

/// Whether the fault is printed as this name. If there is no fault, the name must be empty.
fn is_named(alloc: Global, fault: Option<RunFault>, name: &str) -> bool {
    let Some(fault) = fault else {
        return name.is_empty();
    };
    let Ok(printed) = fault.to_string(alloc) else {
        return false;
    };
    printed.as_str() == name
}

#[test]
fn limits(rt: HostRuntime) {
    for row in &ROWS {
        assert!(rt; is_named(rt.alloc(), fault_of(row), row.6));
    }
}

/// The longest name.
const NAME: [u8; 255] = [b'~'; 255];

/// A level, both dates, the size of a block, and the number of blocks.
static NUMBERS: [u64; 5] = [9, 253402300799, 253402300798, 262144, 2147483647];

/// Whether a run returns the values that it was made of.
fn tells(run: &Run) -> bool {
    let numbers = [
        u64::from(run.level()),
        run.date(),
        run.since(),
        run.block_bytes() as u64,
        u64::from(run.blocks()),
    ];
    run.device() == b"/dev/st0".as_slice()
        && run.name().as_bytes() == NAME.as_slice()
        && numbers == NUMBERS
}

/// The longest text after the name in a label: 81 bytes.
const LINES: &[u8; 81] =
    b"\nlevel 9\ndate 253402300799\nsince 253402300798\nvolume 2147483647\nfirst 2147483646\n";

/// Whether the label is the expected lines, followed by zero bytes.
fn label_is_met(run: &Run) -> bool {
    let mut wanted = [0; LABEL_BYTES];
    wanted[..5].copy_from_slice(b"name ");
    wanted[5..260].copy_from_slice(&NAME);
    wanted[260..341].copy_from_slice(LINES);
    label(run, 2147483647, 2147483646) == wanted
}

#[test]
fn a_run_tells_what_it_is(rt: HostRuntime) {
    let name = std::str::from_utf8(&NAME).expect(&rt, "ASCII");
    let run = Run::new(
        b"/dev/st0",
        name,
        9,
        253402300799,
        253402300798,
        262144,
        2147483647,
    )
    .expect(&rt, "a run");
    assert!(rt; tells(&run));
    assert!(rt; label_is_met(&run));
}

/// The label of a volume of a dump with these dates, which begins at block `first`.
fn label_of(date: u64, since: u64, volume: u32, first: u32) -> Option<VolumeLabel> {
    let run = Run::new(b"/dev/st0", "/usr", 1, date, since, 1024, 3).ok()?;
    VolumeLabel::read(&label(&run, volume, first))
}

#[test]
fn labels_of_one_dump(rt: HostRuntime) {
    let first = label_of(7, 5, 1, 0).expect(&rt, "a label");
    let second = label_of(7, 5, 2, 1).expect(&rt, "a label");
    assert!(rt; first.is_same_dump(&second));
    let later = label_of(8, 5, 1, 0).expect(&rt, "a label");
    assert!(rt; !first.is_same_dump(&later));
    let based_later = label_of(7, 6, 1, 0).expect(&rt, "a label");
    assert!(rt; !first.is_same_dump(&based_later));
}
