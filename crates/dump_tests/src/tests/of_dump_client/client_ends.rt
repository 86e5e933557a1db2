//! A client after the count of a volume, and one between attempts.

use super::play::Move::{Asks, AsksNot, Ends, Goes, Hears, Stands, Starts, Takes, Writes};
use super::play::{Case, Move, USR, check_cases};
use super::script::Volume::{FirstTwo, LastBlock, NoBlocks};
use super::script::{EMPTY, TWO, TWO_AND_ONE};
use dump_client::Progress::{Ended, Failed, Idle, Send, Waiting};
use dump_client::{Answer, AttemptFault, State};
use std::test::Fail;

/// Bytes come with the reply that counts.
const WITH_THE_COUNT: &[Move] = &[
    Writes(NoBlocks),
    Starts(Ok(())),
    Goes(0, 6),
    Asks(6),
    Hears(b"A1\nzz", Ended),
    Stands(State::Finished, &[EMPTY], (2, 0)),
];

/// Bytes arrive before the close is requested.
const BEFORE_THE_CLOSE: &[Move] = &[
    Writes(NoBlocks),
    Starts(Ok(())),
    Goes(0, 6),
    Asks(6),
    Hears(b"A1\n", Send),
    Hears(b"", Send),
    Stands(State::ToSend, &[EMPTY], (2, 0)),
    Hears(b"z", Ended),
    Stands(State::Finished, &[EMPTY], (2, 0)),
    AsksNot(Ok(false)),
];

/// Any bytes after the close end the attempt, whether or not they are a reply.
const TO_THE_CLOSE: &[Move] = &[
    Writes(NoBlocks),
    Starts(Ok(())),
    Goes(0, 6),
    Asks(6),
    Hears(b"A1\n", Send),
    Asks(7),
    Hears(b"A0\nzz", Ended),
    Stands(State::Finished, &[EMPTY], (2, 0)),
];

/// The connection ends after the count, before the close.
const CUT_BEFORE_THE_CLOSE: &[Move] = &[
    Writes(NoBlocks),
    Starts(Ok(())),
    Goes(0, 6),
    Asks(6),
    Hears(b"A1\n", Send),
    Ends(Ended),
    Stands(State::Finished, &[EMPTY], (2, 0)),
];

/// The connection ends after a part of the reply to the close.
const CUT_AT_THE_CLOSE: &[Move] = &[
    Writes(NoBlocks),
    Starts(Ok(())),
    Goes(0, 6),
    Asks(6),
    Hears(b"A1\n", Send),
    Asks(7),
    Hears(b"E5\nzz", Waiting),
    Ends(Ended),
    Stands(State::Finished, &[EMPTY], (2, 0)),
];

/// An attempt that ends before the run is complete leads to the next one.
const NOT_THE_LAST: &[Move] = &[
    Writes(FirstTwo),
    Starts(Ok(())),
    Goes(0, 9),
    Asks(9),
    Hears(b"A1\nzz", Ended),
    Stands(State::Ready, &[TWO], (2, 2)),
];

/// Bytes that arrive between attempts change nothing, and do not affect the next attempt.
const BETWEEN_ATTEMPTS: &[Move] = &[
    Hears(b"A0\n", Idle),
    Hears(b"zz", Idle),
    Ends(Idle),
    AsksNot(Ok(false)),
    Stands(State::Ready, &[], (1, 0)),
    Writes(FirstTwo),
    Starts(Ok(())),
    Goes(0, 11),
    Hears(b"A0\n", Idle),
    Hears(b"zz", Idle),
    Ends(Idle),
    AsksNot(Ok(false)),
    Stands(State::Ready, &[TWO], (2, 2)),
    Starts(Ok(())),
    Hears(b"A0\n", Failed(AttemptFault::Botched)),
    AsksNot(Ok(false)),
    Hears(b"A0\n", Idle),
    Hears(b"zz", Idle),
    Ends(Idle),
    AsksNot(Ok(false)),
    Stands(State::Asking, &[TWO], (2, 2)),
    Takes(Answer::Retry, Ok(())),
    Hears(b"A0\n", Idle),
    Hears(b"zz", Idle),
    Ends(Idle),
    AsksNot(Ok(false)),
    Stands(State::Ready, &[TWO], (2, 2)),
    Writes(LastBlock),
    Starts(Ok(())),
    Goes(0, 9),
    Hears(b"A0\n", Idle),
    Hears(b"zz", Idle),
    Ends(Idle),
    AsksNot(Ok(false)),
    Stands(State::Finished, TWO_AND_ONE, (3, 3)),
];

const ABANDONED: &[Move] = &[
    Starts(Ok(())),
    Hears(b"z", Failed(AttemptFault::Botched)),
    AsksNot(Ok(false)),
    Takes(Answer::Abandon, Ok(())),
    Hears(b"A0\n", Idle),
    Hears(b"zz", Idle),
    Ends(Idle),
    AsksNot(Ok(false)),
    Stands(State::Abandoned, &[], (1, 0)),
];

static CASES: [Case; 8] = [
    Case {
        name: "bytes with the reply that counts",
        dumped: USR,
        blocks: 0,
        moves: WITH_THE_COUNT,
    },
    Case {
        name: "bytes before the close is asked",
        dumped: USR,
        blocks: 0,
        moves: BEFORE_THE_CLOSE,
    },
    Case {
        name: "an answer to the close",
        dumped: USR,
        blocks: 0,
        moves: TO_THE_CLOSE,
    },
    Case {
        name: "the connection ends before the close",
        dumped: USR,
        blocks: 0,
        moves: CUT_BEFORE_THE_CLOSE,
    },
    Case {
        name: "the connection ends at the close",
        dumped: USR,
        blocks: 0,
        moves: CUT_AT_THE_CLOSE,
    },
    Case {
        name: "a volume that is not the last",
        dumped: USR,
        blocks: 3,
        moves: NOT_THE_LAST,
    },
    Case {
        name: "a client between attempts",
        dumped: USR,
        blocks: 3,
        moves: BETWEEN_ATTEMPTS,
    },
    Case {
        name: "an abandoned client",
        dumped: USR,
        blocks: 3,
        moves: ABANDONED,
    },
];

#[test]
fn ends_of_attempts(rt: HostRuntime) -> Result<(), Fail> {
    check_cases(&rt, rt.alloc(), &CASES)
}
