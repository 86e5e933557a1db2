//! A client whose blocks cannot be read. The first block of a script is its step 5, counted from 0.

use super::play::Move::{AsksNot, Ends, Goes, Hears, Stands, Starts, Takes, Trouble, Writes};
use super::play::{Case, Move, USR, check_cases};
use super::script::Volume::{AllThree, FirstBlock, FirstTwo, LastTwo};
use super::script::{ONE, ONE_AND_TWO, THREE, TWO};
use dump_client::Progress::Idle;
use dump_client::{Answer, AttemptFault, State};
use std::test::Fail;

/// Each block fails in turn. The last attempt writes the volume from its label on.
const EACH_BLOCK: &[Move] = &[
    Writes(AllThree),
    Starts(Ok(())),
    Goes(0, 5),
    Trouble(true),
    AsksNot(Err(AttemptFault::SourceFault)),
    Hears(b"A0\n", Idle),
    Hears(b"zz", Idle),
    Ends(Idle),
    AsksNot(Ok(false)),
    Stands(State::Asking, &[], (1, 0)),
    Trouble(false),
    Takes(Answer::Retry, Ok(())),
    Starts(Ok(())),
    Goes(0, 6),
    Trouble(true),
    AsksNot(Err(AttemptFault::SourceFault)),
    Hears(b"A0\n", Idle),
    Hears(b"zz", Idle),
    Ends(Idle),
    AsksNot(Ok(false)),
    Stands(State::Asking, &[], (1, 0)),
    Trouble(false),
    Takes(Answer::Retry, Ok(())),
    Starts(Ok(())),
    Goes(0, 7),
    Trouble(true),
    AsksNot(Err(AttemptFault::SourceFault)),
    Hears(b"A0\n", Idle),
    Hears(b"zz", Idle),
    Ends(Idle),
    AsksNot(Ok(false)),
    Stands(State::Asking, &[], (1, 0)),
    Trouble(false),
    Takes(Answer::Retry, Ok(())),
    Starts(Ok(())),
    Goes(0, 11),
    Stands(State::Finished, &[THREE], (2, 3)),
];

/// A block of a second volume fails, and the count of the first stays.
const SECOND_VOLUME: &[Move] = &[
    Writes(FirstBlock),
    Starts(Ok(())),
    Goes(0, 10),
    Writes(LastTwo),
    Starts(Ok(())),
    Goes(0, 6),
    Trouble(true),
    AsksNot(Err(AttemptFault::SourceFault)),
    Hears(b"A0\n", Idle),
    Hears(b"zz", Idle),
    Ends(Idle),
    AsksNot(Ok(false)),
    Stands(State::Asking, &[ONE], (2, 1)),
    Trouble(false),
    Takes(Answer::Retry, Ok(())),
    Starts(Ok(())),
    Goes(0, 10),
    Stands(State::Finished, ONE_AND_TWO, (3, 3)),
];

/// Only a request that writes a block reads one. The block that meets the end of the reel was read.
const WITHOUT_A_BLOCK: &[Move] = &[
    Writes(FirstTwo),
    Trouble(true),
    Starts(Ok(())),
    Goes(0, 5),
    Trouble(false),
    Goes(5, 8),
    Trouble(true),
    Goes(8, 11),
    Stands(State::Ready, &[TWO], (2, 2)),
];

/// If the source still fails, so does the next attempt. After the operator abandons the run, the
/// source is not read.
const LASTS: &[Move] = &[
    Writes(AllThree),
    Starts(Ok(())),
    Goes(0, 5),
    Trouble(true),
    AsksNot(Err(AttemptFault::SourceFault)),
    Hears(b"A0\n", Idle),
    Hears(b"zz", Idle),
    Ends(Idle),
    AsksNot(Ok(false)),
    Takes(Answer::Retry, Ok(())),
    Starts(Ok(())),
    Goes(0, 5),
    Trouble(true),
    AsksNot(Err(AttemptFault::SourceFault)),
    Hears(b"A0\n", Idle),
    Hears(b"zz", Idle),
    Ends(Idle),
    AsksNot(Ok(false)),
    Takes(Answer::Abandon, Ok(())),
    Hears(b"A0\n", Idle),
    Hears(b"zz", Idle),
    Ends(Idle),
    AsksNot(Ok(false)),
    Stands(State::Abandoned, &[], (1, 0)),
];

static CASES: [Case; 4] = [
    Case {
        name: "each block fails",
        dumped: USR,
        blocks: 3,
        moves: EACH_BLOCK,
    },
    Case {
        name: "a block of a second volume fails",
        dumped: USR,
        blocks: 3,
        moves: SECOND_VOLUME,
    },
    Case {
        name: "requests without a block do not read",
        dumped: USR,
        blocks: 3,
        moves: WITHOUT_A_BLOCK,
    },
    Case {
        name: "trouble that lasts",
        dumped: USR,
        blocks: 3,
        moves: LASTS,
    },
];

#[test]
fn blocks_that_cannot_be_read(rt: HostRuntime) -> Result<(), Fail> {
    check_cases(&rt, rt.alloc(), &CASES)
}
