//! What a world reports after two volumes: the entries of reels, where the reels are, counts and
//! dumpdates.

use drives::ListedReel;
use std::test::Fail;
use tape_world::{CountedVolume, World};

/// The text of the first label.
const FIRST: &[u8] = b"name /usr\nlevel 0\ndate 951782400\nsince 0\nvolume 1\nfirst 0\n\0";

/// The text of the second label.
const SECOND: &[u8] = b"name /usr\nlevel 0\ndate 951782400\nsince 0\nvolume 2\nfirst 2\n\0";

/// No byte of an entry was written.
const NONE: &[u8] = b"....";

/// A reel, a place on it, and the expected length: that of a record, 0 for a mark, and `None` past
/// the last entry or if there is no such reel. The last field is how the array for the bytes then
/// begins.
static ENTRIES: [(&[u8], usize, Option<usize>, &[u8]); 11] = [
    (b"r1", 0, Some(1024), FIRST),
    (b"r1", 1, Some(1024), &[0, 0, 0, 0]),
    (b"r1", 2, Some(1024), &[1, 1, 1, 1]),
    (b"r1", 3, Some(0), NONE),
    (b"r1", 4, None, NONE),
    (b"r2", 0, Some(1024), SECOND),
    (b"r2", 1, Some(1024), &[2, 2, 2, 2]),
    (b"r2", 2, Some(0), NONE),
    (b"r2", 3, None, NONE),
    (b"r3", 0, None, NONE),
    (b"none", 0, None, NONE),
];

/// The volumes that were counted.
static COUNTS: [CountedVolume<'static>; 2] = [
    CountedVolume {
        run: 1,
        volume: 1,
        first: 0,
        count: 2,
        reel: b"r1",
        connection: 1,
    },
    CountedVolume {
        run: 1,
        volume: 2,
        first: 2,
        count: 1,
        reel: b"r2",
        connection: 2,
    },
];

const DATES: &[u8] = b"/usr                             0 Tue Feb 29 00:00:00 2000\n";

/// Whether the entry has this length, and the array begins with these bytes. The end of a larger
/// array must not change.
fn has_entry(
    world: &World,
    reel: &[u8],
    place: usize,
    wanted: Option<usize>,
    front: &[u8],
) -> bool {
    let mut bytes = [b'.'; 1026];
    let told = world.entry(reel, place, &mut bytes);
    told == wanted && bytes.starts_with(front) && bytes.ends_with(b"..")
}

/// Whether all entries are as expected.
fn has_entries(world: &World) -> bool {
    for (reel, place, wanted, front) in &ENTRIES {
        if !has_entry(world, reel, *place, *wanted, front) {
            return false;
        }
    }
    true
}

/// Whether the world has exactly these counts.
fn has_counts(world: &World) -> bool {
    let counts = world.counts();
    for (place, count) in COUNTS.iter().enumerate() {
        if counts.get(place) != Some(*count) {
            return false;
        }
    }
    counts.len() == 2 && !counts.is_empty()
}

/// Whether these reels have these names.
fn have_names(reels: &[ListedReel], names: &[&[u8]]) -> bool {
    for (place, name) in names.iter().enumerate() {
        match reels.get(place) {
            Some(reel) if reel.name() == *name => {}
            _ => return false,
        }
    }
    reels.len() == names.len()
}

/// Whether the drive has these reels on its stack. `None` means that there is no such drive.
fn has_stack(world: &World, drive: &[u8], names: Option<&[&[u8]]>) -> bool {
    match (world.stack(drive), names) {
        (Some(reels), Some(names)) => have_names(reels, names),
        (None, None) => true,
        _ => false,
    }
}

/// Whether the third and the first reel are on the stack, and the second one is in the bin.
fn has_reels(world: &World) -> bool {
    has_stack(world, b"/dev/st0", Some(&[b"r3", b"r1"]))
        && has_stack(world, b"/dev/st1", None)
        && have_names(world.bin(), &[b"r2"])
}

/// Whether all is as expected after two volumes.
pub(crate) fn is_at_end(world: &World) -> Result<bool, Fail> {
    let dates = world.dates().text()?;
    let is_entered = dates.as_slice() == DATES;
    Ok(is_entered && has_entries(world) && has_counts(world) && has_reels(world))
}
