//! Reels on bytes that were written by hand.

use super::reel_calls::{Call, Wanted, answers};
use rmt_wire::mtio::{MTBSF, MTBSR, MTFSF, MTFSR, MTNOP, MTWEOF};
use std::alloc::{AllocError, Global};
use std::test::Fail;
use tape::{FileReel, MemoryMedium, TapeFault};

/// A record `abc` and a record `de`.
const TWO: &[u8] = b"\x03\0\0\0abc\x03\0\0\0\x02\0\0\0de\x02\0\0\0";

/// The bytes of a medium, the calls of a reel of 100 bytes on it, and the bytes of the medium after
/// the last.
type Run = (&'static [u8], &'static [Wanted], &'static [u8]);

static RUNS: [Run; 9] = [
    (
        b"",
        SPELLS_A_RECORD_AND_A_MARK,
        b"\x05\0\0\0hello\x05\0\0\0\0\0\0\0",
    ),
    (b"\x05\0\0\0hel", HAS_NO_ENTRY, X),
    (b"\x02\0\0\0de\x02", HAS_NO_ENTRY, X),
    (b"\x02\0\0\0de\x03\0\0\0", HAS_NO_ENTRY, X),
    (b"\x01\0\x01\0", HAS_NO_ENTRY, X),
    (b"\x01\0\x04\0", HAS_NO_ENTRY, X),
    (
        b"\0\0\0\0\x02\0\0\0d",
        HAS_A_MARK,
        b"\0\0\0\0\x01\0\0\0x\x01\0\0\0",
    ),
    (TWO, SPACES_BY_THE_LENGTHS, TWO),
    (
        TWO,
        LOSES_WHAT_STOOD_BEHIND,
        b"\x03\0\0\0abc\x03\0\0\0\x01\0\0\0x\x01\0\0\0",
    ),
];

/// A record `x`.
const X: &[u8] = b"\x01\0\0\0x\x01\0\0\0";

const SPELLS_A_RECORD_AND_A_MARK: &[Wanted] = &[
    (Call::Write(b"hello"), Ok(b"")),
    (Call::Op(MTWEOF, 1), Ok(b"")),
    (Call::Op(MTWEOF, 21), Err(TapeFault::Full)),
];

/// A torn end is ignored, and a write cuts it off.
const HAS_NO_ENTRY: &[Wanted] = &[
    (Call::Read(8), Ok(b"")),
    (Call::Op(MTFSF, 1), Err(TapeFault::EndOrMark)),
    (Call::Op(MTBSR, 1), Err(TapeFault::EndOrMark)),
    (Call::Write(b"x"), Ok(b"")),
];

/// A torn record after a mark is ignored.
const HAS_A_MARK: &[Wanted] = &[
    (Call::Op(MTFSF, 1), Ok(b"")),
    (Call::Op(MTFSR, 1), Err(TapeFault::EndOrMark)),
    (Call::Read(8), Ok(b"")),
    (Call::Write(b"x"), Ok(b"")),
];

const SPACES_BY_THE_LENGTHS: &[Wanted] = &[
    (Call::Op(MTFSR, 1), Ok(b"")),
    (Call::Read(8), Ok(b"de")),
    (Call::Op(MTBSR, 2), Ok(b"")),
    (Call::Read(2), Ok(b"ab")),
    (Call::Op(MTFSR, 2), Err(TapeFault::EndOrMark)),
    (Call::Op(MTBSF, 1), Err(TapeFault::EndOrMark)),
    (Call::Read(8), Ok(b"abc")),
    (Call::Rewind, Ok(b"")),
    (Call::Op(MTNOP, 1), Ok(b"")),
    (Call::Op(6, 1), Err(TapeFault::BadOperation)),
];

const LOSES_WHAT_STOOD_BEHIND: &[Wanted] = &[
    (Call::Op(MTFSR, 1), Ok(b"")),
    (Call::Op(MTWEOF, 0), Ok(b"")),
    (Call::Write(b"x"), Ok(b"")),
    (Call::Read(8), Ok(b"")),
];

/// Makes a reel of 100 bytes on these bytes. The medium has room in memory for 100 more.
fn reel_on(alloc: Global, bytes: &[u8]) -> Result<FileReel<MemoryMedium>, AllocError> {
    let mut medium = MemoryMedium::from_bytes(bytes.to_vec(alloc)?);
    medium.reserve(100)?;
    Ok(FileReel::open(medium, 100))
}

/// Whether each call has the expected result, and the medium has the bytes `after`.
fn leaves(reel: &mut FileReel<MemoryMedium>, calls: &[Wanted], after: &[u8]) -> bool {
    answers(reel, calls) && reel.medium().bytes() == after
}

/// Runs `leaves` with a reel on these bytes.
fn goes(alloc: Global, bytes: &[u8], calls: &[Wanted], after: &[u8]) -> Result<bool, AllocError> {
    let mut reel = reel_on(alloc, bytes)?;
    Ok(leaves(&mut reel, calls, after))
}

#[test]
fn its_entries_are_what_the_medium_spells(rt: HostRuntime) -> Result<(), Fail> {
    for (bytes, calls, after) in &RUNS {
        assert!(&rt; goes(rt.alloc(), bytes, calls, after)?);
    }
    Ok(())
}

/// A record and a mark are written to an empty reel.
const WRITES: &[Wanted] = &[
    (Call::Write(b"hello"), Ok(b"")),
    (Call::Op(MTWEOF, 1), Ok(b"")),
];

/// The same record and mark are found from the beginning of the reel.
const FINDS: &[Wanted] = &[
    (Call::Read(8), Ok(b"hello")),
    (Call::Op(MTFSF, 1), Ok(b"")),
    (Call::Op(MTFSF, 1), Err(TapeFault::EndOrMark)),
];

/// Whether what was written to a reel is found after its medium is opened again.
fn is_found_again(mut reel: FileReel<MemoryMedium>) -> bool {
    if !answers(&mut reel, WRITES) {
        return false;
    }
    let mut again = FileReel::open(reel.into_medium(), 100);
    answers(&mut again, FINDS)
}

#[test]
fn its_medium_is_opened_again(rt: HostRuntime) -> Result<(), Fail> {
    let reel = reel_on(rt.alloc(), b"")?;
    assert!(&rt; is_found_again(reel));
    Ok(())
}
