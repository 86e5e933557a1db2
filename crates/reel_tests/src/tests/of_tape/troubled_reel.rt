//! Reels whose next device call fails, by tables of calls.

use super::reel_calls::{Call, Wanted, answers};
use rmt_wire::mtio::{MTBSF, MTBSR, MTFSF, MTFSR, MTWEOF};
use std::alloc::Global;
use tape::{ListReel, Reel, TapeFault, Trouble, TroubledReel, device_steps};

/// A place on a reel of the records `abc` and `de`, a call there, the fault that is injected into
/// it, and the entries afterwards. An entry of no bytes is a mark.
type Failure = (u32, Call, Trouble, &'static [&'static [u8]]);

const ALL: &[&[u8]] = &[b"abc", b"de"];

const WRITE: Call = Call::Write(b"x");

const MARKS: Call = Call::Op(MTWEOF, 3);

static FAILURES: [Failure; 24] = [
    // A failed write leaves what its injected fault says.
    (1, WRITE, Trouble::Kept, ALL),
    (1, WRITE, Trouble::Lost, &[b"abc"]),
    (1, WRITE, Trouble::Written(0), &[b"abc"]),
    (1, WRITE, Trouble::Written(1), &[b"abc", b"x"]),
    (1, WRITE, Trouble::Written(7), &[b"abc", b"x"]),
    (0, WRITE, Trouble::Lost, &[]),
    (2, WRITE, Trouble::Kept, ALL),
    (2, WRITE, Trouble::Lost, ALL),
    (2, WRITE, Trouble::Written(u32::MAX), &[b"abc", b"de", b"x"]),
    // Failed marks do the same.
    (0, MARKS, Trouble::Written(2), &[b"", b""]),
    (0, MARKS, Trouble::Written(9), &[b"", b"", b""]),
    (0, MARKS, Trouble::Written(0), &[]),
    (0, MARKS, Trouble::Lost, &[]),
    (1, MARKS, Trouble::Kept, ALL),
    (1, MARKS, Trouble::Lost, &[b"abc"]),
    (1, MARKS, Trouble::Written(1), &[b"abc", b""]),
    (
        2,
        MARKS,
        Trouble::Written(3),
        &[b"abc", b"de", b"", b"", b""],
    ),
    // Other failed calls change nothing.
    (0, Call::Read(8), Trouble::Lost, ALL),
    (1, Call::Read(0), Trouble::Written(9), ALL),
    (2, Call::Read(8), Trouble::Kept, ALL),
    (0, Call::Op(MTFSF, 1), Trouble::Lost, ALL),
    (1, Call::Op(MTBSF, 2), Trouble::Written(1), ALL),
    (0, Call::Op(MTFSR, 1), Trouble::Written(0), ALL),
    (2, Call::Op(MTBSR, 1), Trouble::Kept, ALL),
];

/// The calls that write the records and rewind.
static ABC_AND_DE: &[Wanted] = &[
    (Call::Write(b"abc"), Ok(b"")),
    (Call::Write(b"de"), Ok(b"")),
    (Call::Rewind, Ok(b"")),
];

/// Whether the call has the expected result.
fn answers_one(reel: &mut TroubledReel, call: Wanted) -> bool {
    answers(reel, &[call])
}

/// Whether this fault is set for the next call, and this many device calls have failed.
fn is_in(reel: &TroubledReel, trouble: Trouble, failures: u64) -> bool {
    reel.next_trouble() == trouble && reel.failures() == failures
}

/// Returns the first bytes, with dots after them.
fn front_of(bytes: &[u8]) -> [u8; 4] {
    let mut front = *b"....";
    let count = bytes.len().min(4);
    front[..count].copy_from_slice(&bytes[..count]);
    front
}

/// Whether entry `i` has this length, and a buffer of four dots then begins with these bytes.
fn tells(reel: &TroubledReel, i: usize, wanted: Option<usize>, bytes: &[u8]) -> bool {
    let mut into = *b"....";
    reel.entry(i, &mut into) == wanted && into == front_of(bytes)
}

/// Whether these are the entries of the reel. An entry of no bytes is a mark.
fn has(reel: &TroubledReel, wanted: &[&[u8]]) -> bool {
    for (at, bytes) in wanted.iter().enumerate() {
        if !tells(reel, at, Some(bytes.len()), bytes) {
            return false;
        }
    }
    tells(reel, wanted.len(), None, b"")
}

/// Whether the call at this place fails with `Device` under this injected fault.
fn fails(reel: &mut TroubledReel, place: u32, request: Call, trouble: Trouble) -> bool {
    let there = answers(reel, ABC_AND_DE) && answers_one(reel, (Call::Op(MTFSR, place), Ok(b"")));
    reel.set(trouble);
    there && answers_one(reel, (request, Err(TapeFault::Device)))
}

/// Whether the call fails, and the reel has the expected entries afterwards.
fn leaves(reel: &mut TroubledReel, (place, request, trouble, wanted): Failure) -> bool {
    fails(reel, place, request, trouble) && is_in(reel, Trouble::None, 1) && has(reel, wanted)
}

/// Runs `leaves` with a new reel.
fn new_reel_leaves(alloc: Global, failure: Failure) -> bool {
    leaves(&mut TroubledReel::new(ListReel::new(alloc, 1000)), failure)
}

#[test]
fn a_failed_call_leaves_what_its_trouble_says(rt: HostRuntime) {
    device_steps();
    for failure in &FAILURES {
        assert!(rt; new_reel_leaves(rt.alloc(), *failure));
    }
}

/// Whether a new reel without injected faults gives the expected results, and counts no failure.
pub(crate) fn goes(alloc: Global, capacity: u64, calls: &[Wanted]) -> bool {
    let mut reel = TroubledReel::new(ListReel::new(alloc, capacity));
    answers(&mut reel, calls) && is_in(&reel, Trouble::None, 0)
}
