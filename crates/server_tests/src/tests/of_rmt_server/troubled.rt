//! The replies of a session while the device of its reel fails.

use super::check_row;
use super::two::{DONE, Event, INVALID, IO, ONE, OPEN, Row, Table, is_met};
use rmt_wire::{Reply, Request};
use tape::Trouble;

const NO_SPACE: Reply<'static> = Reply::Error {
    number: 28,
    text: b"No space left on device",
};

/// The record `abc` is written.
const WRITE_ABC: Event = Event::Ask(Request::Write { bytes: b"abc" }, Reply::Done { number: 3 });

/// The record `de` is written.
const WRITE_DE: Event = Event::Ask(Request::Write { bytes: b"de" }, Reply::Done { number: 2 });

/// The reel is rewound.
const REWIND: Event = Event::Ask(Request::Op { op: 5, count: 1 }, ONE);

const READ: Request<'static> = Request::Read { count: 9 };

const WRITE_X: Request<'static> = Request::Write { bytes: b"x" };

/// A read returns the record `abc`, or nothing.
const READ_ABC: Event = Event::Ask(READ, Reply::Data { bytes: b"abc" });

const READ_NONE: Event = Event::Ask(READ, Reply::Data { bytes: b"" });

/// Writes the records `abc` and `de`, and goes to the place between them.
const BETWEEN: &[Row] = &[
    (1, Event::Ask(OPEN, DONE), [1, 0], Some((0, 0))),
    (1, WRITE_ABC, [1, 0], Some((0, 0))),
    (1, WRITE_DE, [1, 0], Some((0, 0))),
    (
        1,
        Event::Ask(Request::Op { op: 4, count: 1 }, ONE),
        [1, 0],
        Some((0, 0)),
    ),
];

/// Writes the same records, and goes to the place before both.
const BEFORE: &[Row] = &[
    (1, Event::Ask(OPEN, DONE), [1, 0], Some((0, 0))),
    (1, WRITE_ABC, [1, 0], Some((0, 0))),
    (1, WRITE_DE, [1, 0], Some((0, 0))),
    (1, REWIND, [1, 0], Some((0, 0))),
];

static TROUBLED: [Table; 10] = [
    // A write of `x` after `abc` fails, and leaves what the injected fault says. Then the place is
    // read, the records are read from the beginning, and `x` is written after `abc`.
    Table {
        before: BETWEEN,
        rows: &[
            (1, Event::Device(Trouble::Kept), [1, 0], Some((0, 0))),
            (1, Event::Ask(WRITE_X, IO), [1, 0], Some((0, 1))),
            (
                1,
                Event::Ask(READ, Reply::Data { bytes: b"de" }),
                [1, 0],
                Some((0, 1)),
            ),
            (1, REWIND, [1, 0], Some((0, 1))),
            (1, READ_ABC, [1, 0], Some((0, 1))),
            (1, Event::Ask(WRITE_X, ONE), [1, 0], Some((0, 1))),
            (1, Event::End, [0, 0], None),
        ],
        names: [b"ab", b"c", b""],
        failures: 0,
    },
    Table {
        before: BETWEEN,
        rows: &[
            (1, Event::Device(Trouble::Lost), [1, 0], Some((0, 0))),
            (1, Event::Ask(WRITE_X, IO), [1, 0], Some((0, 1))),
            (1, READ_NONE, [1, 0], Some((0, 1))),
            (1, REWIND, [1, 0], Some((0, 1))),
            (1, READ_ABC, [1, 0], Some((0, 1))),
            (1, Event::Ask(WRITE_X, ONE), [1, 0], Some((0, 1))),
            (1, Event::End, [0, 0], None),
        ],
        names: [b"ab", b"c", b""],
        failures: 0,
    },
    Table {
        before: BETWEEN,
        rows: &[
            (1, Event::Device(Trouble::Written(1)), [1, 0], Some((0, 0))),
            (1, Event::Ask(WRITE_X, IO), [1, 0], Some((0, 1))),
            (
                1,
                Event::Ask(READ, Reply::Data { bytes: b"x" }),
                [1, 0],
                Some((0, 1)),
            ),
            (1, REWIND, [1, 0], Some((0, 1))),
            (1, READ_ABC, [1, 0], Some((0, 1))),
            (1, Event::Ask(WRITE_X, ONE), [1, 0], Some((0, 1))),
            (1, Event::End, [0, 0], None),
        ],
        names: [b"ab", b"c", b""],
        failures: 0,
    },
    Table {
        before: BETWEEN,
        rows: &[
            (1, Event::Device(Trouble::Written(0)), [1, 0], Some((0, 0))),
            (1, Event::Ask(WRITE_X, IO), [1, 0], Some((0, 1))),
            (1, READ_NONE, [1, 0], Some((0, 1))),
            (1, REWIND, [1, 0], Some((0, 1))),
            (1, READ_ABC, [1, 0], Some((0, 1))),
            (1, Event::Ask(WRITE_X, ONE), [1, 0], Some((0, 1))),
            (1, Event::End, [0, 0], None),
        ],
        names: [b"ab", b"c", b""],
        failures: 0,
    },
    // Three marks over the records fail. As many are left as the injected fault says, and nothing
    // follows them.
    Table {
        before: BEFORE,
        rows: &[
            (1, Event::Device(Trouble::Written(2)), [1, 0], Some((0, 0))),
            (
                1,
                Event::Ask(Request::Op { op: 0, count: 3 }, IO),
                [1, 0],
                Some((0, 1)),
            ),
            (
                1,
                Event::Ask(Request::Op { op: 1, count: 2 }, Reply::Done { number: 2 }),
                [1, 0],
                Some((0, 1)),
            ),
            (
                1,
                Event::Ask(Request::Op { op: 3, count: 1 }, IO),
                [1, 0],
                Some((0, 1)),
            ),
            (
                1,
                Event::Ask(Request::Op { op: 2, count: 2 }, Reply::Done { number: 2 }),
                [1, 0],
                Some((0, 1)),
            ),
            (
                1,
                Event::Ask(Request::Op { op: 4, count: 1 }, IO),
                [1, 0],
                Some((0, 1)),
            ),
            (1, Event::End, [0, 0], None),
        ],
        names: [b"ab", b"c", b""],
        failures: 0,
    },
    Table {
        before: BEFORE,
        rows: &[
            (1, Event::Device(Trouble::Written(9)), [1, 0], Some((0, 0))),
            (
                1,
                Event::Ask(Request::Op { op: 0, count: 3 }, IO),
                [1, 0],
                Some((0, 1)),
            ),
            (
                1,
                Event::Ask(Request::Op { op: 1, count: 3 }, Reply::Done { number: 3 }),
                [1, 0],
                Some((0, 1)),
            ),
            (
                1,
                Event::Ask(Request::Op { op: 3, count: 1 }, IO),
                [1, 0],
                Some((0, 1)),
            ),
            (
                1,
                Event::Ask(Request::Op { op: 2, count: 3 }, Reply::Done { number: 3 }),
                [1, 0],
                Some((0, 1)),
            ),
            (
                1,
                Event::Ask(Request::Op { op: 4, count: 1 }, IO),
                [1, 0],
                Some((0, 1)),
            ),
            (1, Event::End, [0, 0], None),
        ],
        names: [b"ab", b"c", b""],
        failures: 0,
    },
    // A failed read does not move the place.
    Table {
        before: BEFORE,
        rows: &[
            (1, Event::Device(Trouble::Lost), [1, 0], Some((0, 0))),
            (1, Event::Ask(READ, IO), [1, 0], Some((0, 1))),
            (1, READ_ABC, [1, 0], Some((0, 1))),
            (
                1,
                Event::Ask(READ, Reply::Data { bytes: b"de" }),
                [1, 0],
                Some((0, 1)),
            ),
            (1, Event::End, [0, 0], None),
        ],
        names: [b"ab", b"c", b""],
        failures: 0,
    },
    // Operations with a count of 0 do not use up an injected fault.
    Table {
        before: BETWEEN,
        rows: &[
            (1, Event::Device(Trouble::Kept), [1, 0], Some((0, 0))),
            (
                1,
                Event::Ask(Request::Op { op: 0, count: 0 }, DONE),
                [1, 0],
                Some((0, 0)),
            ),
            (
                1,
                Event::Ask(Request::Op { op: 1, count: 0 }, DONE),
                [1, 0],
                Some((0, 0)),
            ),
            (
                1,
                Event::Ask(Request::Op { op: 2, count: 0 }, DONE),
                [1, 0],
                Some((0, 0)),
            ),
            (
                1,
                Event::Ask(Request::Op { op: 3, count: 0 }, DONE),
                [1, 0],
                Some((0, 0)),
            ),
            (
                1,
                Event::Ask(Request::Op { op: 4, count: 0 }, DONE),
                [1, 0],
                Some((0, 0)),
            ),
            (
                1,
                Event::Ask(Request::Op { op: 4, count: 1 }, IO),
                [1, 0],
                Some((0, 1)),
            ),
            (
                1,
                Event::Ask(Request::Op { op: 4, count: 1 }, ONE),
                [1, 0],
                Some((0, 1)),
            ),
            (1, Event::End, [0, 0], None),
        ],
        names: [b"ab", b"c", b""],
        failures: 0,
    },
    // Neither do requests without a device call: an operation that does nothing, an unknown
    // operation, marks without room, and a rewind.
    Table {
        before: BETWEEN,
        rows: &[
            (1, Event::Device(Trouble::Kept), [1, 0], Some((0, 0))),
            (
                1,
                Event::Ask(Request::Op { op: 7, count: 0 }, DONE),
                [1, 0],
                Some((0, 0)),
            ),
            (
                1,
                Event::Ask(Request::Op { op: 8, count: 0 }, INVALID),
                [1, 0],
                Some((0, 0)),
            ),
            (
                1,
                Event::Ask(Request::Op { op: 0, count: 99 }, NO_SPACE),
                [1, 0],
                Some((0, 0)),
            ),
            (1, REWIND, [1, 0], Some((0, 0))),
            (
                1,
                Event::Ask(Request::Op { op: 3, count: 1 }, IO),
                [1, 0],
                Some((0, 1)),
            ),
            (1, READ_ABC, [1, 0], Some((0, 1))),
            (1, Event::End, [0, 0], None),
        ],
        names: [b"ab", b"c", b""],
        failures: 0,
    },
    // Without a reel no fault is injected.
    Table {
        before: &[(1, Event::Device(Trouble::Lost), [0, 0], None)],
        rows: &[
            (1, Event::Ask(OPEN, DONE), [1, 0], Some((0, 0))),
            (1, WRITE_ABC, [1, 0], Some((0, 0))),
            (1, REWIND, [1, 0], Some((0, 0))),
            (
                1,
                Event::Ask(Request::Read { count: 2 }, Reply::Data { bytes: b"ab" }),
                [1, 0],
                Some((0, 0)),
            ),
            (1, Event::End, [0, 0], None),
        ],
        names: [b"ab", b"c", b""],
        failures: 0,
    },
];

#[test]
fn trouble_is_met_by_a_device_call_and_leaves_what_it_says(rt: HostRuntime) {
    for (at, table) in TROUBLED.iter().enumerate() {
        check_row(&rt, at, is_met(rt.alloc(), table));
    }
}
