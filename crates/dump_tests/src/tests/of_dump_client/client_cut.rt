//! Replies that arrive in pieces, and replies that are cut off in the middle.

use super::play::Move::{Asks, At, Goes, Hears, Stands, Starts, Writes};
use super::play::{Case, Move, USR, check_cases};
use super::script::Volume::{FirstTwo, LastBlock, OtherReplies};
use super::script::{TWO, TWO_AND_ONE};
use dump_client::Progress::{Send, Waiting};
use dump_client::State;
use std::test::Fail;

/// Replies in short and in long pieces, and then whole.
const IN_PIECES: &[Move] = &[
    Writes(OtherReplies),
    Starts(Ok(())),
    Asks(0),
    Hears(b"", Waiting),
    Hears(b"A", Waiting),
    Hears(b"7", Waiting),
    Hears(b"\n", Send),
    Goes(1, 5),
    Asks(5),
    Hears(b"A0", Waiting),
    Hears(b"102", Waiting),
    Hears(b"4\n", Send),
    Goes(6, 7),
    Asks(7),
    Hears(b"E28", Waiting),
    Hears(b"\nNo space left", Waiting),
    Hears(b" on device", Waiting),
    Hears(b"\n", Send),
    Goes(8, 11),
    Stands(State::Ready, &[TWO], (2, 2)),
    Writes(LastBlock),
    Starts(Ok(())),
    Goes(0, 9),
    Stands(State::Finished, TWO_AND_ONE, (3, 3)),
];

/// A reply without its end is not a reply. Afterwards the dump goes on to its end.
const CUT_OFF: &[Move] = &[
    Writes(FirstTwo),
    At(0, b"", Waiting),
    At(0, b"A0", Waiting),
    At(1, b"A1", Waiting),
    At(4, b"A1024", Waiting),
    At(5, b"A1024", Waiting),
    At(6, b"A10", Waiting),
    At(7, b"E28\nNo space left on device", Waiting),
    At(8, b"A", Waiting),
    At(9, b"", Waiting),
    At(9, b"A1", Waiting),
    Starts(Ok(())),
    Goes(0, 11),
    Stands(State::Ready, &[TWO], (2, 2)),
    Writes(LastBlock),
    At(7, b"A1", Waiting),
    Starts(Ok(())),
    Goes(0, 9),
    Stands(State::Finished, TWO_AND_ONE, (3, 3)),
];

static CASES: [Case; 2] = [
    Case {
        name: "replies in pieces",
        dumped: USR,
        blocks: 3,
        moves: IN_PIECES,
    },
    Case {
        name: "replies that are cut off",
        dumped: USR,
        blocks: 3,
        moves: CUT_OFF,
    },
];

#[test]
fn replies_in_pieces(rt: HostRuntime) -> Result<(), Fail> {
    check_cases(&rt, rt.alloc(), &CASES)
}
