//! A medium in memory, by tables of calls.

use super::medium_calls::{DONE, MediumCall, WantedOfMedium, medium_answers};
use std::alloc::Global;
use tape::{MediumFailed, MemoryMedium};

/// More bytes than any medium here has room for.
const MANY: &[u8] = &[0; 100];

/// A medium with no room.
static WITHOUT_ROOM: &[WantedOfMedium] = &[
    (MediumCall::Append(b"a"), Err(MediumFailed)),
    (MediumCall::Append(b""), DONE),
    (MediumCall::Failures, Ok((1, b""))),
];

/// The same medium with room for 5 bytes. It has `(abc(` at the end.
static WITH_ROOM_FOR_FIVE: &[WantedOfMedium] = &[
    (MediumCall::Append(b"abc"), DONE),
    (MediumCall::Append(b"de"), DONE),
    (MediumCall::Append(b""), DONE),
    (MediumCall::Len, Ok((5, b""))),
    (MediumCall::ReadAt(1, 3), Ok((3, b"bcd"))),
    (MediumCall::ReadAt(3, 6), Ok((2, b"de...."))),
    (MediumCall::ReadAt(5, 6), Ok((0, b"......"))),
    (MediumCall::ReadAt(u64::MAX, 6), Ok((0, b"......"))),
    (MediumCall::Cut(9), DONE),
    (MediumCall::Cut(1), DONE),
    (MediumCall::Append(b"xyzw"), DONE),
    (MediumCall::ReadAt(0, 5), Ok((5, b"axyzw"))),
    (MediumCall::Cut(0), DONE),
    (MediumCall::AppendFramed(b"(", b"abc"), DONE),
    (MediumCall::Append(MANY), Err(MediumFailed)),
    (MediumCall::Failures, Ok((2, b""))),
];

/// Whether the medium has these bytes at the end.
fn leaves(medium: MemoryMedium, bytes: &[u8]) -> bool {
    medium.into_bytes().as_slice() == bytes
}

/// Whether a new medium without room fails, and takes five bytes once it has room for them.
fn takes_five(medium: &mut MemoryMedium) -> bool {
    medium_answers(medium, WITHOUT_ROOM)
        && medium.reserve(5).is_ok()
        && medium_answers(medium, WITH_ROOM_FOR_FIVE)
        && medium.bytes() == b"(abc(".as_slice()
}

/// Runs `takes_five` with a new medium, and checks the bytes that it returns at the end.
fn new_medium_takes_five(alloc: Global) -> bool {
    let mut medium = MemoryMedium::new(alloc);
    takes_five(&mut medium) && leaves(medium, b"(abc(")
}

#[test]
fn fails_with_no_room(rt: HostRuntime) {
    assert!(rt; new_medium_takes_five(rt.alloc()));
}
