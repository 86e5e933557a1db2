//! Reels in memory, by tables of calls, and their entries.

use super::reel_calls::{Call, Wanted, answers};
use rmt_wire::mtio::MTWEOF;
use std::alloc::Global;
use tape::{ListReel, Reel};

/// Whether a new reel of this capacity gives the expected results, and counts no failure.
pub(crate) fn goes(alloc: Global, capacity: u64, calls: &[Wanted]) -> bool {
    let mut reel = ListReel::new(alloc, capacity);
    answers(&mut reel, calls) && reel.failures() == 0
}

/// The number of an entry, its length, and the contents of a buffer of dots after it was asked for.
type Told = (usize, Option<usize>, &'static [u8]);

/// The entries of a reel with a record `abc`, a mark, and a record `defgh`.
static TOLD: [Told; 6] = [
    (0, Some(3), b"abc..."),
    (1, Some(0), b"......"),
    (2, Some(5), b"de"),
    (2, Some(5), b""),
    (3, None, b"......"),
    (usize::MAX, None, b"......"),
];

/// The calls that write these three entries.
static THREE: &[Wanted] = &[
    (Call::Write(b"abc"), Ok(b"")),
    (Call::Op(MTWEOF, 1), Ok(b"")),
    (Call::Write(b"defgh"), Ok(b"")),
];

/// Whether entry `i` has this length, and the buffer has these contents afterwards.
fn tells(reel: &ListReel, (i, wanted, after): Told) -> bool {
    let mut into = [b'.'; 6];
    let part = &mut into[..after.len().min(6)];
    reel.entry(i, part) == wanted && *part == *after
}

/// Whether all rows of `TOLD` are met.
fn all_told(reel: &ListReel) -> bool {
    for one in &TOLD {
        if !tells(reel, *one) {
            return false;
        }
    }
    true
}

/// Whether all rows of `TOLD` are met, after the three entries are written to a new reel.
fn tells_entries(reel: &mut ListReel) -> bool {
    answers(reel, THREE) && all_told(reel)
}

#[test]
fn tells_each_entry_by_its_number(rt: HostRuntime) {
    assert!(rt; tells_entries(&mut ListReel::new(rt.alloc(), 100)));
}
