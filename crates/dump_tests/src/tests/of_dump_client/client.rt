//! Whole attempts and runs, with the client's state at each step.

use super::play::Move::{Asks, AsksNot, Finds, Goes, Hears, Stands, Starts, Takes, Tells, Writes};
use super::play::{Case, Dumped, Move, USR, check_cases};
use super::script::Volume::{
    FirstBlock, FirstTwo, GreatestBlocks, LastBlock, NoBlocks, SmallBlocks,
};
use super::script::{EMPTY, TWO, TWO_AND_ONE};
use dump_client::Progress::{Ended, Failed, Send, Waiting};
use dump_client::{Answer, AttemptFault, StartFault, State};
use std::test::Fail;

/// The client is in another state.
const WRONG: Result<(), StartFault> = Err(StartFault::WrongState);

const WITHOUT_BLOCKS: &[Move] = &[
    Writes(NoBlocks),
    Stands(State::Ready, &[], (1, 0)),
    Starts(Ok(())),
    Stands(State::ToSend, &[], (1, 0)),
    Asks(0),
    Stands(State::Waiting, &[], (1, 0)),
    Hears(b"A0\n", Send),
    Stands(State::ToSend, &[], (1, 0)),
    Asks(1),
    Stands(State::Waiting, &[], (1, 0)),
    Hears(b"A1\n", Send),
    Stands(State::ToSend, &[], (1, 0)),
    Asks(2),
    Stands(State::Waiting, &[], (1, 0)),
    Hears(b"A0\n", Send),
    Stands(State::ToSend, &[], (1, 0)),
    Asks(3),
    Stands(State::Waiting, &[], (1, 0)),
    Hears(b"A1\n", Send),
    Stands(State::ToSend, &[], (1, 0)),
    Asks(4),
    Stands(State::Waiting, &[], (1, 0)),
    Hears(b"A1024\n", Send),
    Stands(State::ToSend, &[], (1, 0)),
    Asks(5),
    Stands(State::Waiting, &[], (1, 0)),
    Hears(b"A1\n", Send),
    Asks(6),
    Stands(State::Waiting, &[], (1, 0)),
    Hears(b"A1\n", Send),
    Stands(State::ToSend, &[EMPTY], (2, 0)),
    Asks(7),
    Stands(State::Waiting, &[EMPTY], (2, 0)),
    Hears(b"A0\n", Ended),
    Stands(State::Finished, &[EMPTY], (2, 0)),
    Tells("/usr", 0, 951782400),
];

/// The reel has room for the label alone.
const TOO_SMALL: &[Move] = &[
    Writes(FirstBlock),
    Starts(Ok(())),
    Goes(0, 5),
    Asks(5),
    Hears(b"A0\n", Failed(AttemptFault::ReelTooSmall)),
    AsksNot(Ok(false)),
    Stands(State::Asking, &[], (1, 0)),
    Starts(WRONG),
    Stands(State::Asking, &[], (1, 0)),
    Takes(Answer::Retry, Ok(())),
    Stands(State::Ready, &[], (1, 0)),
    Starts(Ok(())),
    Asks(0),
];

const ABANDONED: &[Move] = &[
    Writes(FirstBlock),
    Starts(Ok(())),
    Goes(0, 5),
    Asks(5),
    Hears(b"A0\n", Failed(AttemptFault::ReelTooSmall)),
    AsksNot(Ok(false)),
    Takes(Answer::Abandon, Ok(())),
    Stands(State::Abandoned, &[], (1, 0)),
    Starts(WRONG),
    Takes(Answer::Retry, WRONG),
    Takes(Answer::Abandon, WRONG),
];

/// An attempt starts only if none is under way. The operator's answer is accepted only after an
/// attempt failed.
const IN_A_WRONG_STATE: &[Move] = &[
    Takes(Answer::Retry, WRONG),
    Takes(Answer::Abandon, WRONG),
    Starts(Ok(())),
    Starts(WRONG),
    Takes(Answer::Retry, WRONG),
    Takes(Answer::Abandon, WRONG),
    Writes(NoBlocks),
    Asks(0),
    Starts(WRONG),
    Takes(Answer::Retry, WRONG),
    Takes(Answer::Abandon, WRONG),
    Hears(b"A0\n", Send),
    Goes(1, 8),
    Starts(WRONG),
    Takes(Answer::Retry, WRONG),
    Takes(Answer::Abandon, WRONG),
    Stands(State::Finished, &[EMPTY], (2, 0)),
];

/// Three blocks on two reels, of which the first refuses the third block.
const TWO_VOLUMES: &[Move] = &[
    Writes(FirstTwo),
    Starts(Ok(())),
    Goes(0, 7),
    Asks(7),
    Hears(b"E28\nany text\n", Send),
    Goes(8, 9),
    Stands(State::ToSend, &[], (1, 0)),
    Goes(9, 10),
    Stands(State::ToSend, &[TWO], (2, 2)),
    Asks(10),
    Hears(b"A0\n", Ended),
    Stands(State::Ready, &[TWO], (2, 2)),
    Writes(LastBlock),
    Starts(Ok(())),
    Goes(0, 9),
    Stands(State::Finished, TWO_AND_ONE, (3, 3)),
    Tells("/usr", 0, 951782400),
];

/// The zero bytes of a label whose lines have 68 bytes.
const ZEROS: &[u8] = &[0; 956];

/// The reel begins with the label of another dump. Its last piece finds the label, and no other
/// piece finds one. A record that is no label has none.
const OVERWRITES: &[Move] = &[
    Writes(FirstBlock),
    Starts(Ok(())),
    Goes(0, 2),
    Asks(2),
    Finds(
        b"A1024\nname /home\nlevel 3\ndate 1795132800\n",
        Waiting,
        None,
    ),
    Finds(b"since 951782400\nvolume 2\nfirst 7\n", Waiting, None),
    Finds(ZEROS, Send, Some(("/home", 3, 1795132800, 2))),
    Asks(3),
    Finds(b"A1\n", Send, None),
    Goes(4, 5),
    Asks(5),
    Finds(b"A0\n", Failed(AttemptFault::ReelTooSmall), None),
    Takes(Answer::Retry, Ok(())),
    Starts(Ok(())),
    Goes(0, 2),
    Asks(2),
    Finds(b"A4\nname", Send, None),
];

/// Blocks smaller than the label. A write succeeds only if the reply is the number of its bytes.
const SMALL: &[Move] = &[
    Writes(SmallBlocks),
    Starts(Ok(())),
    Goes(0, 4),
    Asks(4),
    Hears(b"A3\n", Failed(AttemptFault::ShortWrite)),
    AsksNot(Ok(false)),
    Takes(Answer::Retry, Ok(())),
    Starts(Ok(())),
    Goes(0, 5),
    Asks(5),
    Hears(b"A1024\n", Failed(AttemptFault::ShortWrite)),
    AsksNot(Ok(false)),
    Takes(Answer::Retry, Ok(())),
    Starts(Ok(())),
    Goes(0, 10),
    Stands(State::Finished, &[TWO], (2, 2)),
    Tells("/home", 9, 253402300799),
];

const LARGE: &[Move] = &[
    Writes(GreatestBlocks),
    Starts(Ok(())),
    Goes(0, 10),
    Stands(State::Finished, &[TWO], (2, 2)),
];

/// A run in which every value differs from those of the other runs.
const SMALL_RUN: &Dumped = &Dumped {
    device: b"/dev/nst1",
    name: "/home",
    level: 9,
    date: 253402300799,
    since: 951782400,
    block_bytes: 3,
};

/// The same run with the largest blocks.
const GREATEST_RUN: &Dumped = &Dumped {
    device: b"/dev/nst1",
    name: "/home",
    level: 9,
    date: 253402300799,
    since: 951782400,
    block_bytes: 262144,
};

static CASES: [Case; 8] = [
    Case {
        name: "a run without blocks",
        dumped: USR,
        blocks: 0,
        moves: WITHOUT_BLOCKS,
    },
    Case {
        name: "a reel too small",
        dumped: USR,
        blocks: 1,
        moves: TOO_SMALL,
    },
    Case {
        name: "a run that is abandoned",
        dumped: USR,
        blocks: 1,
        moves: ABANDONED,
    },
    Case {
        name: "calls in a wrong state",
        dumped: USR,
        blocks: 0,
        moves: IN_A_WRONG_STATE,
    },
    Case {
        name: "two volumes",
        dumped: USR,
        blocks: 3,
        moves: TWO_VOLUMES,
    },
    Case {
        name: "the label of another dump",
        dumped: USR,
        blocks: 1,
        moves: OVERWRITES,
    },
    Case {
        name: "small blocks",
        dumped: SMALL_RUN,
        blocks: 2,
        moves: SMALL,
    },
    Case {
        name: "the greatest blocks",
        dumped: GREATEST_RUN,
        blocks: 2,
        moves: LARGE,
    },
];

#[test]
fn whole_attempts(rt: HostRuntime) -> Result<(), Fail> {
    check_cases(&rt, rt.alloc(), &CASES)
}
