//! Calls of new reels, and their results.

use super::reel_calls::{Call, Wanted};
use super::{list_reel, troubled_reel};
use rmt_wire::mtio::{MTBSF, MTBSR, MTFSF, MTFSR, MTNOP, MTREW, MTWEOF};
use std::alloc::Global;
use tape::TapeFault;

/// A capacity, and calls of a new reel of that capacity.
type Run = (u64, &'static [Wanted]);

static RUNS: [Run; 10] = [
    (0, HAS_NO_ROOM),
    (100, WRITES_AND_READS_BACK),
    (16, KEEPS_ROOM_FOR_A_MARK),
    (15, LACKS_ROOM_FOR_A_MARK),
    (1000, LOSES_THE_OLD_TAIL),
    (100, REFUSES_OTHER_OPERATIONS),
    (100, SPACES_OVER_RECORDS_UP_TO_A_MARK),
    (100, SPACES_OVER_MARKS),
    (100, SPACES_OVER_RECORDS_FROM_EACH_PLACE),
    (100, SPACES_OVER_MARKS_FROM_EACH_PLACE),
];

const HAS_NO_ROOM: &[Wanted] = &[
    (Call::Write(b"x"), Err(TapeFault::Full)),
    (Call::Op(MTWEOF, 1), Err(TapeFault::Full)),
    (Call::Op(MTWEOF, 0), Ok(b"")),
    (Call::Read(8), Ok(b"")),
    (Call::Op(MTFSR, 1), Err(TapeFault::EndOrMark)),
    (Call::Op(MTBSF, 1), Err(TapeFault::EndOrMark)),
    (Call::Op(MTREW, 0), Ok(b"")),
];

const WRITES_AND_READS_BACK: &[Wanted] = &[
    (Call::Write(b"abc"), Ok(b"")),
    (Call::Write(b"de"), Ok(b"")),
    (Call::Op(MTWEOF, 1), Ok(b"")),
    (Call::Read(8), Ok(b"")),
    (Call::Rewind, Ok(b"")),
    (Call::Read(2), Ok(b"ab")),
    (Call::Read(8), Ok(b"de")),
    (Call::Op(MTREW, 3), Ok(b"")),
    (Call::Op(MTNOP, 3), Ok(b"")),
    (Call::Read(0), Ok(b"")),
    (Call::Read(2), Ok(b"de")),
    (Call::Read(8), Ok(b"")),
    (Call::Read(8), Ok(b"")),
];

/// A call that fails changes nothing.
const KEEPS_ROOM_FOR_A_MARK: &[Wanted] = &[
    (Call::Write(b"four"), Ok(b"")),
    (Call::Write(b"x"), Err(TapeFault::Full)),
    (Call::Op(MTWEOF, 1), Ok(b"")),
    (Call::Op(MTWEOF, 1), Err(TapeFault::Full)),
    (Call::Op(MTWEOF, 0), Ok(b"")),
    (Call::Rewind, Ok(b"")),
    (Call::Write(b"fives"), Err(TapeFault::Full)),
    (Call::Op(MTWEOF, 5), Err(TapeFault::Full)),
    (Call::Read(8), Ok(b"four")),
    (Call::Read(8), Ok(b"")),
    (Call::Rewind, Ok(b"")),
    (Call::Write(b"more"), Ok(b"")),
    (Call::Op(MTBSR, 1), Ok(b"")),
    (Call::Read(8), Ok(b"more")),
];

const LACKS_ROOM_FOR_A_MARK: &[Wanted] = &[
    (Call::Write(b"four"), Err(TapeFault::Full)),
    (Call::Op(MTWEOF, 4), Err(TapeFault::Full)),
    (Call::Op(MTWEOF, 3), Ok(b"")),
    (Call::Op(MTWEOF, 1), Err(TapeFault::Full)),
    (Call::Op(MTWEOF, u32::MAX), Err(TapeFault::Full)),
];

const LOSES_THE_OLD_TAIL: &[Wanted] = &[
    (Call::Write(b"abc"), Ok(b"")),
    (Call::Write(b"de"), Ok(b"")),
    (Call::Rewind, Ok(b"")),
    (Call::Write(b"x"), Ok(b"")),
    (Call::Read(5), Ok(b"")),
    (Call::Rewind, Ok(b"")),
    (Call::Op(MTWEOF, 0), Ok(b"")),
    (Call::Read(5), Ok(b"x")),
    (Call::Read(5), Ok(b"")),
    (Call::Rewind, Ok(b"")),
    (Call::Op(MTWEOF, 2), Ok(b"")),
    (Call::Rewind, Ok(b"")),
    (Call::Read(5), Ok(b"")),
    (Call::Write(b"yz"), Ok(b"")),
    (Call::Rewind, Ok(b"")),
    (Call::Read(5), Ok(b"")),
    (Call::Read(5), Ok(b"yz")),
    (Call::Read(5), Ok(b"")),
];

const REFUSES_OTHER_OPERATIONS: &[Wanted] = &[
    (Call::Write(b"a"), Ok(b"")),
    (Call::Rewind, Ok(b"")),
    (Call::Op(6, 1), Err(TapeFault::BadOperation)),
    (Call::Op(8, 0), Err(TapeFault::BadOperation)),
    (Call::Op(u32::MAX, 1), Err(TapeFault::BadOperation)),
    (Call::Read(5), Ok(b"a")),
];

const SPACES_OVER_RECORDS_UP_TO_A_MARK: &[Wanted] = &[
    (Call::Op(MTFSR, 1), Err(TapeFault::EndOrMark)),
    (Call::Write(b"a"), Ok(b"")),
    (Call::Write(b"b"), Ok(b"")),
    (Call::Op(MTWEOF, 1), Ok(b"")),
    (Call::Op(MTBSR, 1), Err(TapeFault::EndOrMark)),
    (Call::Op(MTBSR, 5), Err(TapeFault::EndOrMark)),
    (Call::Op(MTFSR, 2), Ok(b"")),
    (Call::Op(MTFSR, 1), Err(TapeFault::EndOrMark)),
    (Call::Op(MTBSF, 1), Ok(b"")),
    (Call::Op(MTBSF, 1), Err(TapeFault::EndOrMark)),
    (Call::Op(MTFSF, 2), Err(TapeFault::EndOrMark)),
    (Call::Op(MTBSF, 0), Ok(b"")),
    (Call::Op(MTBSF, u32::MAX), Err(TapeFault::EndOrMark)),
    (Call::Read(8), Ok(b"a")),
];

const SPACES_OVER_MARKS: &[Wanted] = &[
    (Call::Write(b"a"), Ok(b"")),
    (Call::Op(MTWEOF, 1), Ok(b"")),
    (Call::Write(b"b"), Ok(b"")),
    (Call::Op(MTWEOF, 1), Ok(b"")),
    (Call::Op(MTBSF, 2), Ok(b"")),
    (Call::Read(8), Ok(b"")),
    (Call::Op(MTBSR, 1), Err(TapeFault::EndOrMark)),
    (Call::Op(MTFSF, 1), Ok(b"")),
    (Call::Read(1), Ok(b"b")),
];

/// Spacing over records from each place among `a`, a mark, `bb`, `ccc`, a mark and `d`.
const SPACES_OVER_RECORDS_FROM_EACH_PLACE: &[Wanted] = &[
    (Call::Write(b"a"), Ok(b"")),
    (Call::Op(MTWEOF, 1), Ok(b"")),
    (Call::Write(b"bb"), Ok(b"")),
    (Call::Write(b"ccc"), Ok(b"")),
    (Call::Op(MTWEOF, 1), Ok(b"")),
    (Call::Write(b"d"), Ok(b"")),
    // The end, and the mark before `d`.
    (Call::Op(MTFSR, 1), Err(TapeFault::EndOrMark)),
    (Call::Op(MTBSR, 1), Ok(b"")),
    (Call::Op(MTFSR, 2), Err(TapeFault::EndOrMark)),
    (Call::Read(8), Ok(b"")),
    (Call::Op(MTBSR, 2), Err(TapeFault::EndOrMark)),
    (Call::Read(8), Ok(b"")),
    (Call::Read(8), Ok(b"d")),
    (Call::Op(MTBSR, 1), Ok(b"")),
    (Call::Op(MTBSR, 1), Err(TapeFault::EndOrMark)),
    // Between the marks.
    (Call::Op(MTBSR, 0), Ok(b"")),
    (Call::Op(MTBSR, 1), Ok(b"")),
    (Call::Read(8), Ok(b"ccc")),
    (Call::Op(MTBSR, 2), Ok(b"")),
    (Call::Read(8), Ok(b"bb")),
    (Call::Op(MTBSR, 2), Err(TapeFault::EndOrMark)),
    (Call::Read(8), Ok(b"")),
    (Call::Op(MTFSR, 2), Ok(b"")),
    (Call::Op(MTFSR, 1), Err(TapeFault::EndOrMark)),
    (Call::Read(8), Ok(b"d")),
    // The beginning, and the mark after `a`.
    (Call::Rewind, Ok(b"")),
    (Call::Op(MTBSR, 1), Err(TapeFault::EndOrMark)),
    (Call::Op(MTFSR, 1), Ok(b"")),
    (Call::Op(MTBSR, 2), Err(TapeFault::EndOrMark)),
    (Call::Read(8), Ok(b"a")),
    (Call::Op(MTBSR, 1), Ok(b"")),
    (Call::Op(MTFSR, 2), Err(TapeFault::EndOrMark)),
    (Call::Read(8), Ok(b"bb")),
    // A count of zero, and the greatest count.
    (Call::Op(MTFSR, 0), Ok(b"")),
    (Call::Op(MTFSR, 2), Err(TapeFault::EndOrMark)),
    (Call::Read(8), Ok(b"d")),
    (Call::Op(MTBSR, u32::MAX), Err(TapeFault::EndOrMark)),
    (Call::Op(MTFSR, u32::MAX), Err(TapeFault::EndOrMark)),
    (Call::Read(8), Ok(b"d")),
];

/// Spacing over marks from each place among the same entries.
const SPACES_OVER_MARKS_FROM_EACH_PLACE: &[Wanted] = &[
    (Call::Write(b"a"), Ok(b"")),
    (Call::Op(MTWEOF, 1), Ok(b"")),
    (Call::Write(b"bb"), Ok(b"")),
    (Call::Write(b"ccc"), Ok(b"")),
    (Call::Op(MTWEOF, 1), Ok(b"")),
    (Call::Write(b"d"), Ok(b"")),
    // The end, and back from there.
    (Call::Op(MTFSF, 1), Err(TapeFault::EndOrMark)),
    (Call::Read(8), Ok(b"")),
    (Call::Op(MTBSF, 1), Ok(b"")),
    (Call::Read(8), Ok(b"")),
    (Call::Read(8), Ok(b"d")),
    (Call::Op(MTBSF, 2), Ok(b"")),
    (Call::Read(8), Ok(b"")),
    (Call::Read(8), Ok(b"bb")),
    // Between the marks.
    (Call::Op(MTBSF, 0), Ok(b"")),
    (Call::Read(8), Ok(b"ccc")),
    (Call::Op(MTBSF, 1), Ok(b"")),
    (Call::Op(MTBSF, 1), Err(TapeFault::EndOrMark)),
    (Call::Read(8), Ok(b"a")),
    (Call::Op(MTFSF, 1), Ok(b"")),
    (Call::Read(8), Ok(b"bb")),
    (Call::Op(MTFSF, 1), Ok(b"")),
    (Call::Op(MTBSF, 1), Ok(b"")),
    (Call::Read(8), Ok(b"")),
    (Call::Read(8), Ok(b"d")),
    // The beginning, and forward from there.
    (Call::Op(MTBSF, 3), Err(TapeFault::EndOrMark)),
    (Call::Op(MTFSF, 2), Ok(b"")),
    (Call::Read(8), Ok(b"d")),
    (Call::Op(MTBSF, u32::MAX), Err(TapeFault::EndOrMark)),
    (Call::Op(MTFSF, 3), Err(TapeFault::EndOrMark)),
    (Call::Read(8), Ok(b"")),
    (Call::Op(MTBSR, 1), Ok(b"")),
    (Call::Read(8), Ok(b"d")),
    (Call::Rewind, Ok(b"")),
    (Call::Op(MTFSF, 0), Ok(b"")),
    (Call::Op(MTBSF, 1), Err(TapeFault::EndOrMark)),
    (Call::Read(8), Ok(b"a")),
    (Call::Op(MTFSF, u32::MAX), Err(TapeFault::EndOrMark)),
    (Call::Op(MTBSR, 1), Ok(b"")),
    (Call::Read(8), Ok(b"d")),
];

/// Whether new reels in memory of this capacity give the expected results. One of them can have
/// injected faults, but has none.
fn go(alloc: Global, capacity: u64, calls: &[Wanted]) -> bool {
    list_reel::goes(alloc, capacity, calls) && troubled_reel::goes(alloc, capacity, calls)
}

#[test]
fn each_call_answers_as_is_wanted(rt: HostRuntime) {
    for (capacity, calls) in &RUNS {
        assert!(rt; go(rt.alloc(), *capacity, calls));
    }
}
