//! Tests of streams written by hand: a whole conversation, incomplete requests, and streams with a
//! fault.

use super::fed::{Row, is_split};
use rmt_wire::{Request, WireFault};
use std::test::Fail;

const DEVICE: &[u8] = b"/dev/st0";

const OPEN: Request = Request::Open {
    device: DEVICE,
    mode: 2,
};

/// A close with 256 bytes after its letter, one more than a line may have.
const LONG_CLOSE: &[u8] = b"C0000000000000000000000000000000000000000000000000000000000000000\
0000000000000000000000000000000000000000000000000000000000000000\
0000000000000000000000000000000000000000000000000000000000000000\
0000000000000000000000000000000000000000000000000000000000000000";

static ROWS: [Row; 15] = [
    // a record is written and read back
    (
        b"O/dev/st0\n2\nW5\nhelloI0\n1\nI5\n1\nR10\nR10\nC\n",
        &[
            OPEN,
            Request::Write { bytes: b"hello" },
            Request::Op { op: 0, count: 1 },
            Request::Op { op: 5, count: 1 },
            Request::Read { count: 10 },
            Request::Read { count: 10 },
            Request::Close,
        ],
        b"",
        None,
    ),
    // a write that lacks data
    (b"O/dev/st0\n2\nW5\nhel", &[OPEN], b"W5\nhel", None),
    // a command that the grammar does not have
    (
        b"O/dev/st0\n2\nS\n",
        &[OPEN],
        b"S\n",
        Some((WireFault::UnknownCommand, 13)),
    ),
    // a count with ten digits, and the largest
    (b"R0000000007\n", &[Request::Read { count: 7 }], b"", None),
    (
        b"R2147483647\n",
        &[Request::Read { count: 2147483647 }],
        b"",
        None,
    ),
    // bad numbers
    (b"R\n", &[], b"R\n", Some((WireFault::BadNumber, 2))),
    (
        b"R2147483648\n",
        &[],
        b"R2147483648\n",
        Some((WireFault::BadNumber, 11)),
    ),
    (b"R-1\n", &[], b"R-1\n", Some((WireFault::BadNumber, 2))),
    (
        b"O/dev/st0\n\n",
        &[],
        b"O/dev/st0\n\n",
        Some((WireFault::BadNumber, 11)),
    ),
    (b"I7\n\n", &[], b"I7\n\n", Some((WireFault::BadNumber, 4))),
    // incomplete requests
    (b"O/dev/st0\n2", &[], b"O/dev/st0\n2", None),
    (b"W262144", &[], b"W262144", None),
    (b"W5\nhell", &[], b"W5\nhell", None),
    (b"I5\n1", &[], b"I5\n1", None),
    // a line that is one byte too long
    (
        LONG_CLOSE,
        &[],
        LONG_CLOSE,
        Some((WireFault::LineTooLong, 257)),
    ),
];

#[test]
fn streams_are_split_as_by_hand(rt: HostRuntime) -> Result<(), Fail> {
    for row in &ROWS {
        assert!(rt; is_split(rt.alloc(), row)?);
    }
    Ok(())
}
