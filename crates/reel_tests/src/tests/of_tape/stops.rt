//! Reels whose medium stops at each of its calls, after each number of bytes, and their entries
//! after they are opened again.

use super::reel_calls::{Call, Wanted, answers};
use rmt_wire::mtio::{MTFSF, MTFSR};
use std::alloc::{AllocError, Global};
use std::test::Fail;
use tape::{
    FileReel, FuseMedium, MemoryMedium, Reel, TapeFault, mark_and_reopen, reopened,
    write_and_reopen,
};

/// A record `abc` and a record `de`.
const TWO: &[u8] = b"\x03\0\0\0abc\x03\0\0\0\x02\0\0\0de\x02\0\0\0";

/// The capacity of a reel in bytes: 2,000 marks and a little more.
const CAPACITY: u64 = 8_100;

type Stopped = FileReel<FuseMedium<MemoryMedium>>;

/// The entries of a reel, as calls and their expected results.
type Entries = &'static [Wanted];

static OLD: Entries = &[
    (Call::Read(8), Ok(b"abc")),
    (Call::Read(8), Ok(b"de")),
    (Call::Op(MTFSR, 1), Err(TapeFault::EndOrMark)),
];

static NONE: Entries = &[(Call::Op(MTFSR, 1), Err(TapeFault::EndOrMark))];

static X: Entries = &[
    (Call::Read(8), Ok(b"x")),
    (Call::Op(MTFSR, 1), Err(TapeFault::EndOrMark)),
];

static FIRST: Entries = &[
    (Call::Read(8), Ok(b"abc")),
    (Call::Op(MTFSR, 1), Err(TapeFault::EndOrMark)),
];

static FIRST_AND_X: Entries = &[
    (Call::Read(8), Ok(b"abc")),
    (Call::Read(8), Ok(b"x")),
    (Call::Op(MTFSR, 1), Err(TapeFault::EndOrMark)),
];

/// Makes a reel with the two records, whose medium fails at call `at`. A failing append still
/// writes `left` bytes, and a failing cut is made if `left` is above 0. If `once` is false, all
/// later calls fail too.
fn reel_on(alloc: Global, at: u64, left: usize, once: bool) -> Result<Stopped, AllocError> {
    let mut medium = MemoryMedium::from_bytes(TWO.to_vec(alloc)?);
    medium.reserve(CAPACITY as usize)?;
    Ok(FileReel::open(FuseMedium::new(medium, at, left, once), CAPACITY))
}

/// Returns the result of a write whose medium fails, or succeeds.
fn answer(fails: bool) -> Result<(), TapeFault> {
    if fails {
        return Err(TapeFault::Device);
    }
    Ok(())
}

/// Whether a write of `x` fails exactly if `fails` is true, and leaves these entries.
fn leaves(reel: Stopped, fails: bool, entries: Entries) -> bool {
    let (written, mut again) = write_and_reopen(reel, b"x", CAPACITY);
    written == answer(fails) && answers(&mut again, entries)
}

/// Returns the entries after `x` was written at the beginning. The cut is call 0, and the append of
/// its 9 bytes call 1.
fn after_x(at: u64, left: usize) -> Entries {
    match (at, left) {
        (0, 0) => OLD,
        (0, _) => NONE,
        (1, 0..9) => NONE,
        _ => X,
    }
}

/// Whether a stopped write of `x` at the beginning leaves the expected entries.
fn leaves_x(alloc: Global, at: u64, left: usize, once: bool) -> Result<bool, AllocError> {
    let reel = reel_on(alloc, at, left, once)?;
    Ok(leaves(reel, at < 2, after_x(at, left)))
}

#[test]
fn a_stopped_write_leaves_what_stood_or_nothing_or_the_record(rt: HostRuntime) -> Result<(), Fail> {
    for at in 0..3 {
        for left in 0..11 {
            assert!(&rt; leaves_x(rt.alloc(), at, left, false)?);
            assert!(&rt; leaves_x(rt.alloc(), at, left, true)?);
        }
    }
    Ok(())
}

/// Returns the entries after `x` was written after `abc`. The calls 0 and 1 read both lengths of
/// `abc`. The cut is call 2, and the append call 3.
fn after_abc(at: u64, left: usize) -> Entries {
    match (at, left) {
        (2, 0) => OLD,
        (2, _) => FIRST,
        (3, 0..9) => FIRST,
        _ => FIRST_AND_X,
    }
}

/// Whether a stopped write of `x` after `abc` leaves the expected entries.
fn leaves_after_abc(alloc: Global, at: u64, left: usize, once: bool) -> Result<bool, AllocError> {
    let mut reel = reel_on(alloc, at, left, once)?;
    let passed = reel.op(MTFSR, 1).is_ok();
    Ok(passed && leaves(reel, at < 4, after_abc(at, left)))
}

#[test]
fn a_stopped_write_leaves_the_entries_before_the_place(rt: HostRuntime) -> Result<(), Fail> {
    for at in 2..5 {
        for left in 0..11 {
            assert!(&rt; leaves_after_abc(rt.alloc(), at, left, false)?);
            assert!(&rt; leaves_after_abc(rt.alloc(), at, left, true)?);
        }
    }
    Ok(())
}

/// Whether the reel has exactly this many marks and nothing else.
fn has_marks<R: Reel>(reel: &mut R, count: u32) -> bool {
    let passed = reel.op(MTFSF, count);
    passed.is_ok() && answers(reel, NO_MORE)
}

/// No mark follows the last, and the reel has no record at the beginning.
static NO_MORE: Entries = &[
    (Call::Op(MTFSF, 1), Err(TapeFault::EndOrMark)),
    (Call::Rewind, Ok(b"")),
    (Call::Read(8), Ok(b"")),
];

/// Whether the write of `count` marks fails exactly if `fails` is true, and leaves `wanted` marks.
/// `None` means that the old entries are left.
fn leaves_marks(reel: Stopped, count: u32, fails: bool, wanted: Option<u32>) -> bool {
    let (written, mut again) = mark_and_reopen(reel, count, CAPACITY);
    let left = match wanted {
        Some(some) => has_marks(&mut again, some),
        None => answers(&mut again, OLD),
    };
    written == answer(fails) && left
}

/// Returns how many of three marks are left. The cut is call 0, and the append of their 12 bytes
/// call 1. `None` means that the old entries are left.
fn after_three(at: u64, left: usize) -> Option<u32> {
    match (at, left) {
        (0, 0) => None,
        (0, _) => Some(0),
        (1, _) => Some((left / 4).min(3) as u32),
        _ => Some(3),
    }
}

/// Whether three marks that are stopped leave the expected entries.
fn leaves_three(alloc: Global, at: u64, left: usize, once: bool) -> Result<bool, AllocError> {
    let reel = reel_on(alloc, at, left, once)?;
    Ok(leaves_marks(reel, 3, at < 2, after_three(at, left)))
}

#[test]
fn stopped_marks_leave_what_stood_or_some_of_them(rt: HostRuntime) -> Result<(), Fail> {
    for at in 0..3 {
        for left in 0..14 {
            assert!(&rt; leaves_three(rt.alloc(), at, left, false)?);
            assert!(&rt; leaves_three(rt.alloc(), at, left, true)?);
        }
    }
    Ok(())
}

/// The bytes that the second append of 2,000 marks writes, and the marks that are left. The first
/// append writes 1,024 marks.
static SECOND_APPENDS: [(usize, u32); 7] = [
    (0, 1_024),
    (3, 1_024),
    (4, 1_025),
    (7, 1_025),
    (3_903, 1_999),
    (3_904, 2_000),
    (4_000, 2_000),
];

/// Whether 2,000 marks, stopped in their second append, leave `wanted` marks.
fn leaves_many(alloc: Global, left: usize, wanted: u32) -> Result<bool, AllocError> {
    let reel = reel_on(alloc, 2, left, false)?;
    Ok(leaves_marks(reel, 2_000, true, Some(wanted)))
}

#[test]
fn many_marks_stop_at_a_later_append(rt: HostRuntime) -> Result<(), Fail> {
    for (left, wanted) in &SECOND_APPENDS {
        assert!(&rt; leaves_many(rt.alloc(), *left, *wanted)?);
    }
    Ok(())
}

/// A read that fails once leaves the place, and the next read returns the record.
static READ_AGAIN: Entries = &[
    (Call::Read(8), Err(TapeFault::Device)),
    (Call::Read(8), Ok(b"abc")),
    (Call::Read(8), Ok(b"de")),
];

/// A read makes three calls, so the fourth call is the first of the second read.
static READ_ON: Entries = &[
    (Call::Read(8), Ok(b"abc")),
    (Call::Read(8), Err(TapeFault::Device)),
    (Call::Read(8), Ok(b"de")),
];

/// Whether a read fails once, at this call, and can be made again, with these results. The reel
/// must keep its entries. A read makes three calls: one for each length, and one for the bytes.
fn is_read_again(alloc: Global, at: u64, calls: Entries) -> Result<bool, AllocError> {
    let mut reel = reel_on(alloc, at, 0, true)?;
    let read = answers(&mut reel, calls) && reel.failures() == 1;
    Ok(read && answers(&mut reopened(reel, CAPACITY), OLD))
}

#[test]
fn a_read_that_fails_once_is_made_again(rt: HostRuntime) -> Result<(), Fail> {
    for at in 0..3 {
        assert!(&rt; is_read_again(rt.alloc(), at, READ_AGAIN)?);
    }
    assert!(&rt; is_read_again(rt.alloc(), 3, READ_ON)?);
    Ok(())
}
