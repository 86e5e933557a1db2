//! Two sessions that share two drives.

use super::check_row;
use super::two::{DONE, Event, INVALID, IO, ONE, OPEN, Row, Table, is_met};
use rmt_wire::{Reply, Request};

const NO_FILE: Reply<'static> = Reply::Error {
    number: 2,
    text: b"No such file or directory",
};

const NO_REEL: Reply<'static> = Reply::Error {
    number: 6,
    text: b"Device not configured",
};

const NO_DESCRIPTOR: Reply<'static> = Reply::Error {
    number: 9,
    text: b"Bad file descriptor",
};

const BUSY: Reply<'static> = Reply::Error {
    number: 16,
    text: b"Device busy",
};

/// Opens the second drive for reading and writing.
const OPEN_SECOND: Request<'static> = Request::Open {
    device: b"/dev/st1",
    mode: 2,
};

/// Opens a drive that does not exist.
const OPEN_OTHER: Request<'static> = Request::Open {
    device: b"/dev/st9",
    mode: 2,
};

/// Opens the first drive with a mode that has no access.
const OPEN_FOR_NONE: Request<'static> = Request::Open {
    device: b"/dev/st0",
    mode: 3,
};

/// Moves the reel to the bin.
const OFFLINE: Request<'static> = Request::Op { op: 6, count: 1 };

/// Each session has a drive. An open of a held drive is refused, and frees the drive that the
/// session had. The end of a session frees its drive.
const TWO_SESSIONS: &[Row] = &[
    (1, Event::Ask(OPEN, DONE), [1, 0], Some((0, 0))),
    (2, Event::Ask(OPEN_SECOND, DONE), [1, 2], Some((1, 0))),
    (2, Event::Ask(OPEN, BUSY), [1, 0], None),
    (1, Event::Ask(OPEN, DONE), [1, 0], Some((0, 0))),
    (1, Event::End, [0, 0], None),
    (2, Event::Ask(OPEN, DONE), [2, 0], Some((0, 0))),
];

/// An open that is refused first gives back what was open.
const REFUSED: &[Row] = &[
    (1, Event::Ask(Request::Close, NO_DESCRIPTOR), [0, 0], None),
    (1, Event::Ask(OPEN_SECOND, DONE), [0, 1], Some((1, 0))),
    (1, Event::Ask(OPEN_FOR_NONE, INVALID), [0, 0], None),
    (2, Event::Ask(OPEN, DONE), [2, 0], Some((0, 0))),
    (2, Event::Ask(OPEN_OTHER, NO_FILE), [0, 0], None),
    (1, Event::Ask(OPEN, DONE), [1, 0], Some((0, 0))),
    (1, Event::Ask(OFFLINE, ONE), [1, 0], None),
    (1, Event::Ask(OPEN_FOR_NONE, INVALID), [0, 0], None),
];

/// A drive whose reel is in the bin stays held, also if its stack is empty. The next open latches
/// the next reel.
const AWAY: &[Row] = &[
    (1, Event::Ask(OFFLINE, NO_DESCRIPTOR), [0, 0], None),
    (1, Event::Ask(OPEN_SECOND, DONE), [0, 1], Some((1, 0))),
    (1, Event::Ask(OFFLINE, ONE), [0, 1], None),
    (1, Event::Ask(OFFLINE, NO_REEL), [0, 1], None),
    (2, Event::Ask(OPEN_SECOND, BUSY), [0, 1], None),
    (1, Event::Ask(Request::Close, DONE), [0, 0], None),
    (2, Event::Ask(OPEN_SECOND, NO_REEL), [0, 0], None),
    (1, Event::Ask(OPEN, DONE), [1, 0], Some((0, 0))),
    (1, Event::Ask(OFFLINE, ONE), [1, 0], None),
    (2, Event::Ask(OPEN, BUSY), [1, 0], None),
    (1, Event::End, [0, 0], None),
    (2, Event::Ask(OPEN, DONE), [2, 0], Some((0, 0))),
    (2, Event::Ask(Request::Close, DONE), [0, 0], None),
];

/// An injected fault fails one latch, after what was open is closed.
const FAILED_LATCH: &[Row] = &[
    (2, Event::Ask(OPEN_SECOND, DONE), [0, 2], Some((1, 0))),
    (1, Event::Stacks, [0, 2], None),
    (2, Event::Ask(OPEN, IO), [0, 0], None),
    (2, Event::Ask(OPEN, DONE), [2, 0], Some((0, 0))),
    (2, Event::Ask(OFFLINE, ONE), [2, 0], None),
];

/// An injected fault fails one move, and the reel stays where it was.
const FAILED_MOVE: &[Row] = &[
    (1, Event::Ask(OPEN, DONE), [1, 0], Some((0, 0))),
    (1, Event::Stacks, [1, 0], Some((0, 0))),
    (1, Event::Ask(OFFLINE, IO), [1, 0], Some((0, 0))),
];

/// Afterwards the reel is moved.
const MOVED: &[Row] = &[(1, Event::Ask(OFFLINE, ONE), [1, 0], None)];

static SHARED: [Table; 6] = [
    Table {
        before: &[],
        rows: TWO_SESSIONS,
        names: [b"ab", b"c", b""],
        failures: 0,
    },
    Table {
        before: &[],
        rows: REFUSED,
        names: [b"b", b"c", b"a"],
        failures: 0,
    },
    Table {
        before: &[],
        rows: AWAY,
        names: [b"b", b"", b"ca"],
        failures: 0,
    },
    Table {
        before: &[],
        rows: FAILED_LATCH,
        names: [b"b", b"c", b"a"],
        failures: 1,
    },
    Table {
        before: FAILED_MOVE,
        rows: MOVED,
        names: [b"b", b"c", b"a"],
        failures: 1,
    },
    Table {
        before: &[],
        rows: FAILED_MOVE,
        names: [b"ab", b"c", b""],
        failures: 1,
    },
];

#[test]
fn drives_are_shared_as_was_written_by_hand(rt: HostRuntime) {
    for (at, table) in SHARED.iter().enumerate() {
        check_row(&rt, at, is_met(rt.alloc(), table));
    }
}
