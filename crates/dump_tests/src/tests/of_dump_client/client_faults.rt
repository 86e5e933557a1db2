//! Replies at each step of a first volume, which gets two of three blocks, and the end of the
//! connection in a second volume.

use super::play::Move::{
    Asks, AsksNot, At, Ends, Finds, Goes, Hears, Stands, Starts, Takes, Writes,
};
use super::play::{Case, Move, USR, check_cases};
use super::script::Volume::{FirstBlock, FirstTwo, LastBlock, LastTwo};
use super::script::{ONE, TWO, TWO_AND_ONE};
use dump_client::Progress::{Failed, Idle, Send, Waiting};
use dump_client::{Answer, AttemptFault, State};
use std::test::Fail;

/// The steps of the volume's script.
const OPEN: usize = 0;

const REWIND: usize = 1;

const LOOK: usize = 2;

const REWIND_AGAIN: usize = 3;

const LABEL: usize = 4;

const FIRST: usize = 5;

const SECOND: usize = 6;

const THIRD: usize = 7;

const MARK: usize = 8;

const UNLOAD: usize = 9;

const CLOSE: usize = 10;

/// Any number in the reply opens the device.
const TO_THE_OPEN: &[Move] = &[
    Writes(FirstTwo),
    At(OPEN, b"A0\n", Send),
    At(OPEN, b"A1025\n", Send),
    At(OPEN, b"A0\nA1\n", Failed(AttemptFault::Botched)),
    At(
        OPEN,
        b"E28\nNo space left on device\n",
        Failed(AttemptFault::Refused(28)),
    ),
    At(
        OPEN,
        b"E16\nDevice busy\n",
        Failed(AttemptFault::Refused(16)),
    ),
];

/// An operation succeeded only if the reply is its count, 1.
const TO_OPERATIONS: &[Move] = &[
    Writes(FirstTwo),
    At(REWIND, b"A1\n", Send),
    At(REWIND, b"A0\n", Failed(AttemptFault::Botched)),
    At(
        REWIND,
        b"E28\nNo space left on device\n",
        Failed(AttemptFault::Refused(28)),
    ),
    At(REWIND_AGAIN, b"A1\n", Send),
    At(REWIND_AGAIN, b"A0\n", Failed(AttemptFault::Botched)),
    At(
        REWIND_AGAIN,
        b"E5\nInput/output error\n",
        Failed(AttemptFault::Refused(5)),
    ),
    At(MARK, b"A1\n", Send),
    At(MARK, b"A0\n", Failed(AttemptFault::Botched)),
    At(
        MARK,
        b"E5\nInput/output error\n",
        Failed(AttemptFault::Refused(5)),
    ),
    At(UNLOAD, b"A0\n", Failed(AttemptFault::Botched)),
    At(
        UNLOAD,
        b"E5\nInput/output error\n",
        Failed(AttemptFault::Refused(5)),
    ),
];

/// The look accepts at most 1,024 bytes of data. If nothing is counted yet, the attempt goes on
/// whatever they are.
const TO_THE_LOOK: &[Move] = &[
    Writes(FirstTwo),
    At(LOOK, b"A0\n", Send),
    At(LOOK, b"A3\nabc", Send),
    At(LOOK, b"A0000000003\nabc", Send),
    At(LOOK, b"A1024\nname /usr\n", Waiting),
    At(LOOK, b"A3\nab", Waiting),
    At(LOOK, b"A1025", Failed(AttemptFault::Botched)),
    At(LOOK, b"A3\nabcd", Failed(AttemptFault::Botched)),
    At(LOOK, b"A\n", Failed(AttemptFault::Botched)),
    At(LOOK, b"X", Failed(AttemptFault::Botched)),
    At(
        LOOK,
        b"E12\nCannot allocate memory\n",
        Failed(AttemptFault::Refused(12)),
    ),
    At(
        LOOK,
        b"E28\nNo space left on device\n",
        Failed(AttemptFault::Refused(28)),
    ),
];

/// The zero bytes that follow the text of a label. The text has 58 bytes in these runs.
const ZEROS: &[u8] = &[0; 966];

/// Volume 1 is counted. A reel with its label fails the attempt. The attempt goes on if the label
/// has another volume or first block, even if an attempt at this volume left it. It also goes on if
/// the label is incomplete.
const COUNTED_LABELS: &[Move] = &[
    Writes(FirstTwo),
    Starts(Ok(())),
    Goes(OPEN, 11),
    Writes(LastBlock),
    Starts(Ok(())),
    Goes(OPEN, LOOK),
    Asks(LOOK),
    Hears(
        b"A1024\nname /usr\nlevel 0\ndate 951782400\nsince 0\nvolume 1\nfirst 0\n",
        Waiting,
    ),
    Finds(ZEROS, Failed(AttemptFault::CountedReel(1)), None),
    Stands(State::Asking, &[TWO], (2, 2)),
    AsksNot(Ok(false)),
    Takes(Answer::Retry, Ok(())),
    Starts(Ok(())),
    Goes(OPEN, LOOK),
    Asks(LOOK),
    Hears(
        b"A1024\nname /usr\nlevel 0\ndate 951782400\nsince 0\nvolume 1\nfirst 2\n",
        Waiting,
    ),
    Hears(ZEROS, Send),
    Ends(Failed(AttemptFault::ConnectionEnded)),
    Takes(Answer::Retry, Ok(())),
    At(
        LOOK,
        b"A58\nname /usr\nlevel 0\ndate 951782400\nsince 0\nvolume 1\nfirst 0\n",
        Send,
    ),
    Starts(Ok(())),
    Goes(OPEN, LOOK),
    Asks(LOOK),
    Hears(
        b"A1024\nname /usr\nlevel 0\ndate 951782400\nsince 0\nvolume 2\nfirst 2\n",
        Waiting,
    ),
    Hears(ZEROS, Send),
    Goes(REWIND_AGAIN, 9),
    Stands(State::Finished, TWO_AND_ONE, (3, 3)),
];

/// A reel that has no room for the label or for the volume's first block is too small.
const TO_FIRST_WRITES: &[Move] = &[
    Writes(FirstTwo),
    At(LABEL, b"A1024\n", Send),
    At(LABEL, b"A0\n", Failed(AttemptFault::ReelTooSmall)),
    At(LABEL, b"A1\n", Failed(AttemptFault::ShortWrite)),
    At(
        LABEL,
        b"E28\nNo space left on device\n",
        Failed(AttemptFault::ReelTooSmall),
    ),
    At(
        LABEL,
        b"E16\nDevice busy\n",
        Failed(AttemptFault::Refused(16)),
    ),
    At(FIRST, b"A1024\n", Send),
    At(FIRST, b"A0\n", Failed(AttemptFault::ReelTooSmall)),
    At(FIRST, b"A1025\n", Failed(AttemptFault::ShortWrite)),
    At(
        FIRST,
        b"E5\nInput/output error\n",
        Failed(AttemptFault::Refused(5)),
    ),
    At(
        FIRST,
        b"E28\nNo space left on device\n",
        Failed(AttemptFault::ReelTooSmall),
    ),
];

/// A reel that has no room for a later block is at its end.
const TO_LATER_WRITES: &[Move] = &[
    Writes(FirstTwo),
    At(SECOND, b"A1024\n", Send),
    At(SECOND, b"A0\n", Send),
    At(SECOND, b"E28\nNo space left on device\n", Send),
    At(SECOND, b"A1\n", Failed(AttemptFault::ShortWrite)),
    At(
        SECOND,
        b"E16\nDevice busy\n",
        Failed(AttemptFault::Refused(16)),
    ),
    At(THIRD, b"A1024\n", Send),
    At(THIRD, b"A0\n", Send),
    At(THIRD, b"E28\nNo space left on device\n", Send),
    At(THIRD, b"A1025\n", Failed(AttemptFault::ShortWrite)),
    At(
        THIRD,
        b"E5\nInput/output error\n",
        Failed(AttemptFault::Refused(5)),
    ),
];

/// The reply to the move to the bin counts the volume, with the blocks that were written.
const COUNTS_TWO: &[Move] = &[
    Writes(FirstTwo),
    Starts(Ok(())),
    Goes(OPEN, UNLOAD),
    Asks(UNLOAD),
    Stands(State::Waiting, &[], (1, 0)),
    Hears(b"A1\n", Send),
    Stands(State::ToSend, &[TWO], (2, 2)),
    Asks(CLOSE),
];

/// The connection ends while the client waits for a reply, and while it has a request to send.
const CUT: &[Move] = &[
    Writes(FirstBlock),
    Starts(Ok(())),
    Goes(0, 10),
    Writes(LastTwo),
    Starts(Ok(())),
    Goes(0, REWIND),
    Asks(REWIND),
    Hears(b"E5\nzz", Waiting),
    Ends(Failed(AttemptFault::ConnectionEnded)),
    Stands(State::Asking, &[ONE], (2, 1)),
    Hears(b"A0\n", Idle),
    Hears(b"zz", Idle),
    Ends(Idle),
    AsksNot(Ok(false)),
    Stands(State::Asking, &[ONE], (2, 1)),
    Takes(Answer::Retry, Ok(())),
    Starts(Ok(())),
    Goes(0, OPEN),
    Asks(OPEN),
    Hears(b"A0\n", Send),
    Ends(Failed(AttemptFault::ConnectionEnded)),
    Stands(State::Asking, &[ONE], (2, 1)),
    Hears(b"A0\n", Idle),
    Hears(b"zz", Idle),
    Ends(Idle),
    AsksNot(Ok(false)),
    Stands(State::Asking, &[ONE], (2, 1)),
];

/// Before a request is sent, an empty piece changes nothing, and one byte fails the attempt.
const BEFORE_A_REQUEST: &[Move] = &[
    Writes(FirstBlock),
    Starts(Ok(())),
    Goes(0, 10),
    Writes(LastTwo),
    Starts(Ok(())),
    Goes(0, REWIND),
    Asks(REWIND),
    Hears(b"", Waiting),
    Hears(b"A1\n", Send),
    Hears(b"", Send),
    Stands(State::ToSend, &[ONE], (2, 1)),
    Hears(b"A", Failed(AttemptFault::Botched)),
    AsksNot(Ok(false)),
    Stands(State::Asking, &[ONE], (2, 1)),
    Hears(b"A0\n", Idle),
    Hears(b"zz", Idle),
    Ends(Idle),
    AsksNot(Ok(false)),
    Stands(State::Asking, &[ONE], (2, 1)),
];

/// Bytes that are not a reply, or not the expected one, fail the attempt. A later block without
/// room leads to the mark.
const NOISE: &[Move] = &[
    Writes(FirstTwo),
    At(FIRST, b"X\n", Failed(AttemptFault::Botched)),
    At(FIRST, b"A2147483648", Failed(AttemptFault::Botched)),
    At(FIRST, b"A1024\nA", Failed(AttemptFault::Botched)),
    At(FIRST, b"A1\nA1024\n", Failed(AttemptFault::ShortWrite)),
    At(FIRST, b"E0\n\n", Failed(AttemptFault::Refused(0))),
    At(MARK, b"A\n", Failed(AttemptFault::Botched)),
    At(MARK, b"A00000000001\n", Failed(AttemptFault::Botched)),
    Starts(Ok(())),
    Goes(OPEN, SECOND),
    Asks(SECOND),
    Hears(b"E28\n\n", Send),
    Asks(MARK),
];

/// A number may have up to ten digits, with leading zeros. An error is not complete until its text
/// has arrived.
const TO_THE_REWIND: &[Move] = &[
    Writes(FirstTwo),
    At(REWIND, b"A0000000001\n", Send),
    At(REWIND, b"A00000000001\n", Failed(AttemptFault::Botched)),
    At(REWIND, b"A\n", Failed(AttemptFault::Botched)),
    At(REWIND, b"B1\n", Failed(AttemptFault::Botched)),
    At(REWIND, b"A1\nA", Failed(AttemptFault::Botched)),
    Starts(Ok(())),
    Goes(OPEN, REWIND),
    Asks(REWIND),
    Hears(b"E5\n", Waiting),
    Ends(Failed(AttemptFault::ConnectionEnded)),
    Stands(State::Asking, &[], (1, 0)),
];

/// The text of an error may be long and arrive in pieces. The attempt waits for its end, fails with
/// the number, and counts nothing.
const LONG_ERROR: &[Move] = &[
    Writes(FirstTwo),
    Starts(Ok(())),
    Goes(OPEN, FIRST),
    Asks(FIRST),
    Hears(b"E5\n", Waiting),
    Hears(&[b'z'; 10_000], Waiting),
    Hears(b"\n", Failed(AttemptFault::Refused(5))),
    Stands(State::Asking, &[], (1, 0)),
];

static CASES: [Case; 12] = [
    Case {
        name: "replies to the open",
        dumped: USR,
        blocks: 3,
        moves: TO_THE_OPEN,
    },
    Case {
        name: "replies to operations",
        dumped: USR,
        blocks: 3,
        moves: TO_OPERATIONS,
    },
    Case {
        name: "replies to the look",
        dumped: USR,
        blocks: 3,
        moves: TO_THE_LOOK,
    },
    Case {
        name: "labels of counted volumes, and others",
        dumped: USR,
        blocks: 3,
        moves: COUNTED_LABELS,
    },
    Case {
        name: "replies to the label and the first block",
        dumped: USR,
        blocks: 3,
        moves: TO_FIRST_WRITES,
    },
    Case {
        name: "replies to later blocks",
        dumped: USR,
        blocks: 3,
        moves: TO_LATER_WRITES,
    },
    Case {
        name: "a count of two blocks",
        dumped: USR,
        blocks: 3,
        moves: COUNTS_TWO,
    },
    Case {
        name: "the connection ends before the count",
        dumped: USR,
        blocks: 3,
        moves: CUT,
    },
    Case {
        name: "pieces while a request is to be sent",
        dumped: USR,
        blocks: 3,
        moves: BEFORE_A_REQUEST,
    },
    Case {
        name: "what is no reply",
        dumped: USR,
        blocks: 3,
        moves: NOISE,
    },
    Case {
        name: "an error with a long text",
        dumped: USR,
        blocks: 3,
        moves: LONG_ERROR,
    },
    Case {
        name: "numbers in replies to the rewind",
        dumped: USR,
        blocks: 3,
        moves: TO_THE_REWIND,
    },
];

#[test]
fn replies_at_each_step(rt: HostRuntime) -> Result<(), Fail> {
    check_cases(&rt, rt.alloc(), &CASES)
}
