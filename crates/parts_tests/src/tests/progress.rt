//! The progress of a dump, as it is shown.

use super::check_row;
use dump_files::{Clearing, ProgressLine};
use std::alloc::Global;
use std::cell::Cell;
use std::io::{self, Write};
use std::time::{Clock, Duration};

/// A clock that advances by 50 milliseconds each time it is read.
#[derive(Drop)]
struct Ticking {
    millis: Cell<u64>,
}

impl Ticking {
    fn new() -> Ticking {
        Ticking {
            millis: Cell::new(0),
        }
    }
}

impl Clock for Ticking {
    fn monotonic(&self) -> io::Result<Duration> {
        let now = self.millis.get();
        self.millis.set(now.saturating_add(50));
        Ok(Duration::from_millis(now))
    }

    fn since_1970(&self) -> io::Result<Duration> {
        self.monotonic()
    }
}

/// A volume, its first block, and how many of its blocks are sent.
type Volume = (u32, u32, u32);

/// The size of a block in bytes, the volumes whose blocks are sent, 50 milliseconds apart, and what
/// is shown.
type Row = (usize, &'static [Volume], &'static [u8]);

/// Lines of progress:
/// - one each tenth of a second, in KiB and in MiB.
/// - a volume that starts at the block for which the volume before had no room.
/// - a volume that is started again.
/// - a dump that is resumed at its second block.
static ROWS: [Row; 5] = [
    (
        1024,
        &[(1, 0, 3)],
        b"\rvolume 1, block 1 of 3, 0 KiB/s\x1b[K\rvolume 1, block 3 of 3, 20 KiB/s\x1b[K",
    ),
    (
        1048576,
        &[(1, 0, 3)],
        b"\rvolume 1, block 1 of 3, 0 KiB/s\x1b[K\rvolume 1, block 3 of 3, 20 MiB/s\x1b[K",
    ),
    (
        1024,
        &[(1, 0, 2), (2, 1, 1)],
        b"\rvolume 1, block 1 of 3, 0 KiB/s\x1b[K\rvolume 2, block 2 of 3, 0 KiB/s\x1b[K",
    ),
    (
        1024,
        &[(1, 0, 2), (1, 0, 1)],
        b"\rvolume 1, block 1 of 3, 0 KiB/s\x1b[K\rvolume 1, block 1 of 3, 0 KiB/s\x1b[K",
    ),
    (
        1024,
        &[(2, 1, 2)],
        b"\rvolume 2, block 2 of 3, 0 KiB/s\x1b[K",
    ),
];

/// Whether the blocks of a row are shown as it says.
fn goes(alloc: Global, row: &Row) -> bool {
    let (bytes, volumes, wanted) = *row;
    let clock = Ticking::new();
    let mut text = Vec::new(alloc);
    let mut progress = ProgressLine::new(&clock, &mut text, 3);
    for (number, first, count) in volumes {
        progress.begin_volume(*number, *first);
        for _ in 0..*count {
            progress.show(bytes);
        }
    }
    text.as_slice() == wanted
}

#[test]
fn lines_of_progress(rt: HostRuntime) {
    for (at, row) in ROWS.iter().enumerate() {
        check_row(&rt, at, goes(rt.alloc(), row));
    }
}

#[test]
fn a_line_below_progress(rt: HostRuntime) {
    let (mut lines, mut shown) = ([0; 7], [0; 4]);
    let mut out = Clearing {
        lines: lines.as_mut_slice(),
        terminal: Some(shown.as_mut_slice()),
    };
    let written = out.write_all(b"retry?\n").is_ok();
    assert!(rt; written && lines == *b"retry?\n" && shown == *b"\r\x1b[K");
}
