//! Streams whose replies were written by hand.

use super::check_row;
use super::fixture::{BAD_NUMBER, END, NO_INPUT, NO_OUTPUT, TRUNCATED, UNKNOWN};
use super::served::{Row, is_answered};
use std::alloc::{AllocError, Global};
use std::test::Fail;

static ROWS: [Row<'static>; 30] = [
    // an empty stream gets no reply
    (b"", b"", END, b"A0\nA0\n"),
    // a write with nothing open
    (b"W3\nabc", b"E9\nBad file descriptor\n", END, b"A0\nA0\n"),
    // an incomplete write gets no reply
    (b"O/dev/st0\n2\nW5\nhel", b"A0\n", TRUNCATED, b"A0\nA0\n"),
    // nothing is written to a reel that was opened for reading
    (
        b"O/dev/st0\n0\nW1\nxI0\n1\n",
        b"A0\nE9\nBad file descriptor\nE13\nPermission denied\n",
        END,
        b"A0\nA0\n",
    ),
    // the number of a mode decides the access
    (b"O/dev/st0\n2 O_RDWR\n", b"A0\n", END, b"A0\nA0\n"),
    (
        b"O/dev/st0\n3\n",
        b"E22\nInvalid argument\n",
        END,
        b"A0\nA0\n",
    ),
    (
        b"O/dev/st0\n513\nR1\n",
        b"A0\nE9\nBad file descriptor\n",
        END,
        b"A0\nA0\n",
    ),
    (
        b"O/dev/st9\n2\n",
        b"E2\nNo such file or directory\n",
        END,
        b"A0\nA0\n",
    ),
    // an unknown letter ends the session
    (b"O/dev/st0\n2\nS\n", b"A0\n", UNKNOWN, b"A0\nA0\n"),
    // a bad number does too
    (b"W99999999999\n", b"", BAD_NUMBER, b"A0\nA0\n"),
    (b"W3x", b"", BAD_NUMBER, b"A0\nA0\n"),
    // no reply follows bytes that are not a request
    (
        b"C\nXC\nC\n",
        b"E9\nBad file descriptor\n",
        UNKNOWN,
        b"A0\nA0\n",
    ),
    // a write loses the old tail
    (
        b"O/dev/st0\n2\nW3\nabcW2\ndeI5\n1\nW1\nxR5\nC\n",
        b"A0\nA3\nA2\nA1\nA1\nA0\nA0\n",
        END,
        b"A0\nA1\nx",
    ),
    // the reel is moved to the bin
    (
        b"O/dev/st1\n2\nI6\n1\nW1\nxI7\n1\nC\nO/dev/st1\n2\n",
        b"A0\nA1\nE6\nDevice not configured\nE6\nDevice not configured\nA0\nE6\nDevice not configured\n",
        END,
        b"A0\nA0\n",
    ),
    // there is no record ahead
    (
        b"O/dev/st0\n2\nI3\n1\nI8\n1\n",
        b"A0\nE5\nInput/output error\nE22\nInvalid argument\n",
        END,
        b"A0\nA0\n",
    ),
    // marks are spaced over in both directions
    (
        b"O/dev/st0\n2\nW1\naI0\n1\nW1\nbI0\n1\nI2\n2\nR9\nI4\n1\nI1\n1\nR1\nC\n",
        b"A0\nA1\nA1\nA1\nA1\nA2\nA0\nE5\nInput/output error\nA1\nA1\nbA0\n",
        END,
        b"A0\nA1\na",
    ),
    // every operation spaces over records and marks, past the ends and with a count of 0
    (
        b"O/dev/st0\n2\nW1\naW1\nbI0\n1\nI4\n1\nI4\n5\nI3\n2\nI3\n1\nI2\n1\nI2\n1\nI1\n2\nI2\n0\n",
        b"A0\nA1\nA1\nA1\nE5\nInput/output error\nE5\nInput/output error\nA2\nE5\nInput/output error\nA1\nE5\nInput/output error\nE5\nInput/output error\nA0\n",
        END,
        b"A0\nA1\na",
    ),
    // a mode without an access is refused before the name is looked up, and the name must match
    // exactly
    (
        b"O/dev/st9\n3\nO/dev/st0 \n2\nO\n2\n",
        b"E22\nInvalid argument\nE2\nNo such file or directory\nE2\nNo such file or directory\n",
        END,
        b"A0\nA0\n",
    ),
    // a refused open closes what was open
    (
        b"O/dev/st0\n2\nO/dev/st9\n2\nR1\nC\n",
        b"A0\nE2\nNo such file or directory\nE9\nBad file descriptor\nE9\nBad file descriptor\n",
        END,
        b"A0\nA0\n",
    ),
    // the access is the mode modulo 4
    (
        b"O/dev/st0\n2147483647\nO/dev/st0\n2147483644\nW1\nxR1\n",
        b"E22\nInvalid argument\nA0\nE9\nBad file descriptor\nA0\n",
        END,
        b"A0\nA0\n",
    ),
    // the access is checked before the count
    (
        b"O/dev/st0\n0\nW0\nO/dev/st0\n1\nR0\nI8\n0\n",
        b"A0\nE9\nBad file descriptor\nA0\nE9\nBad file descriptor\nE22\nInvalid argument\n",
        END,
        b"A0\nA0\n",
    ),
    // numbers may begin with zeros, and a close may have a text
    (
        b"O/dev/st0\n002\nW0000000003\nabcI05\n001\nR009\nC0 O\n",
        b"A0\nA3\nA1\nA3\nabcA0\n",
        END,
        b"A0\nA3\nabc",
    ),
    // a record stays if the stream ends after it, or if a bad number follows
    (
        b"O/dev/st0\n2\nW5\nhello",
        b"A0\nA5\n",
        END,
        b"A0\nA5\nhello",
    ),
    (
        b"O/dev/st0\n2\nW2\nabW99999999999\nW1\nc",
        b"A0\nA2\n",
        BAD_NUMBER,
        b"A0\nA2\nab",
    ),
    // a failing input ends the session, between two requests and inside one
    (b"", b"", NO_INPUT, b"A0\nA0\n"),
    (
        b"O/dev/st0\n2\nW5\nhello",
        b"A0\nA5\n",
        NO_INPUT,
        b"A0\nA5\nhello",
    ),
    (b"O/dev/st0\n2\nW5\nhel", b"A0\n", NO_INPUT, b"A0\nA0\n"),
    // a failing output does too: no reply is written, a part of one, or all but the last
    (b"O/dev/st0\n2\nW5\nhello", b"", NO_OUTPUT, b"A0\nA0\n"),
    (
        b"O/dev/st0\n2\nW5\nhelloI5\n1\nR10\n",
        b"A0\nA",
        NO_OUTPUT,
        b"A0\nA5\nhello",
    ),
    (
        b"O/dev/st0\n2\nW5\nhelloI5\n1\nR10\nC\n",
        b"A0\nA5\nA1\nA5\nhello",
        NO_OUTPUT,
        b"A0\nA5\nhello",
    ),
];

#[test]
fn streams_are_answered_as_was_written_by_hand(rt: HostRuntime) {
    for (at, row) in ROWS.iter().enumerate() {
        check_row(&rt, at, is_answered(rt.alloc(), row));
    }
}

/// A text, and the number of data bytes after it.
type Line = (&'static [u8], usize);

/// Returns the texts, each with its data.
fn with_data(alloc: Global, lines: &[Line]) -> Result<Vec<u8>, AllocError> {
    let mut bytes = Vec::new(alloc);
    for (line, count) in lines {
        bytes.extend_from_slice(line)?;
        let end = bytes.len().saturating_add(*count);
        bytes.resize(end, b'd')?;
    }
    Ok(bytes)
}

/// The largest record, one byte more, none, and counts at their limits.
static LIMITS: [Line; 7] = [
    (b"W262145\n", 262145),
    (b"O/dev/st0\n2147483646\nW0000262144\n", 262144),
    (b"W262145\n", 262145),
    (b"W0\nI5\n2147483647\nR262145\nR1\n", 0),
    (b"I5\n0\nR2147483647\nI7\n2147483647\n", 0),
    (b"I5\n0\nR262143\nR0\nI0\n2147483647\n", 0),
    (b"I2147483647\n0\nR2147483648\nC\n", 0),
];

static LIMITS_ANSWERS: [Line; 7] = [
    (b"E9\nBad file descriptor\n", 0),
    (
        b"A0\nA262144\nE22\nInvalid argument\nE22\nInvalid argument\n",
        0,
    ),
    (b"A2147483647\nA262144\n", 262144),
    (b"A0\nA0\nA262144\n", 262144),
    (b"A2147483647\nA0\nA262143\n", 262143),
    (b"E22\nInvalid argument\nE28\nNo space left on device\n", 0),
    (b"E22\nInvalid argument\n", 0),
];

/// A write of the largest record, of one byte more, and of none, and an operation that does
/// nothing.
static WRITES: [Line; 4] = [
    (b"O/dev/st0\n2\nW262144\n", 262144),
    (b"W262145\n", 262145),
    (b"W0\n", 0),
    (b"I7\n9\n", 0),
];

static WRITES_ANSWERS: [Line; 1] = [(
    b"A0\nA262144\nE22\nInvalid argument\nE22\nInvalid argument\nA9\n",
    0,
)];

/// Whether these lines get these replies, and serving ends with this status.
fn are_answered(
    alloc: Global,
    lines: &[Line],
    answers: &[Line],
    status: u8,
) -> Result<bool, AllocError> {
    let bytes = with_data(alloc, lines)?;
    let want = with_data(alloc, answers)?;
    let row: Row<'_> = (
        bytes.as_slice(),
        want.as_slice(),
        status,
        b"A0\nA8\ndddddddd",
    );
    Ok(is_answered(alloc, &row))
}

#[test]
fn counts_at_their_limits(rt: HostRuntime) -> Result<(), Fail> {
    assert!(rt; are_answered(rt.alloc(), &LIMITS, &LIMITS_ANSWERS, BAD_NUMBER)?);
    Ok(())
}

#[test]
fn long_writes(rt: HostRuntime) -> Result<(), Fail> {
    assert!(rt; are_answered(rt.alloc(), &WRITES, &WRITES_ANSWERS, END)?);
    Ok(())
}
