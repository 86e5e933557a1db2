//! Dumps over a peer with given replies: what is printed.

use super::check_row;
use super::fake::{FakePeer, Replies};
use super::fixture::{PayloadDumper, TWO_BYTES, client};
use console::ExitStatus;
use dump_client::AttemptFault;
use rdump_net::{dump, failure_line};
use rmt_wire::Counted;
use std::alloc::Global;

/// A blank reel that takes two blocks of two bytes, and has no room for the third.
pub(super) const FULL: Replies = &[
    b"A0\n", b"A1\n", b"A0\n", b"A1\n", b"A1024\n", b"A2\n", b"A2\n", b"A0\n", b"A1\n", b"A1\n",
    b"A0\n",
];

/// A reel that takes one block, which is the last.
pub(super) const LAST: Replies = &[
    b"A0\n", b"A1\n", b"A0\n", b"A1\n", b"A1024\n", b"A2\n", b"A1\n", b"A1\n", b"A0\n",
];

/// A reel that takes the label alone.
const SMALL: Replies = &[b"A0\n", b"A1\n", b"A0\n", b"A1\n", b"A1024\n", b"A0\n"];

/// A reel that was counted: it has the first volume, with these two blocks. The zero bytes of its
/// label arrive as a separate piece.
const COUNTED: Replies = &[
    b"A0\n",
    b"A1\n",
    b"A1024\nname /usr\nlevel 1\ndate 951868800\nsince 951782400\nvolume 1\nfirst 0\n",
    &[0; 958],
];

/// A drive without a reel.
pub(super) const EMPTY: Replies = &[b"E6\nDevice not configured\n"];

/// A dump of three blocks: the replies of each connection, and the operator's input. Then what is
/// printed, and the exit status.
struct Row {
    connections: &'static [Replies],
    said: &'static [u8],
    printed: &'static [u8],
    status: ExitStatus,
}

/// In order:
/// - two volumes.
/// - a dump that is abandoned.
/// - a retry: the second connection is made after `yes`, and the third cannot be made.
/// - a reel that is too small.
/// - a counted reel that was put on the stack again.
static ROWS: [Row; 5] = [
    Row {
        connections: &[FULL, LAST],
        said: b"",
        printed: b"volume 1: 2 blocks from 0\nvolume 2: 1 blocks from 2\ndump complete: 2 volumes, 3 blocks\n",
        status: ExitStatus::Success,
    },
    Row {
        connections: &[FULL, EMPTY],
        said: b"",
        printed: b"volume 1: 2 blocks from 0\nvolume 2 failed: Refused 6\nretry?\ndump abandoned\n",
        status: ExitStatus::Abnormal,
    },
    Row {
        connections: &[EMPTY, FULL],
        said: b"yes\nno\n",
        printed: b"volume 1 failed: Refused 6\nretry?\nvolume 1: 2 blocks from 0\nvolume 2 failed: ConnectionEnded\nretry?\ndump abandoned\n",
        status: ExitStatus::Abnormal,
    },
    Row {
        connections: &[SMALL],
        said: b"",
        printed: b"volume 1 failed: ReelTooSmall\nretry?\ndump abandoned\n",
        status: ExitStatus::Abnormal,
    },
    Row {
        connections: &[FULL, COUNTED, LAST],
        said: b"yes\n",
        printed: b"volume 1: 2 blocks from 0\nvolume 2 failed: CountedReel 1\nretry?\nvolume 2: 1 blocks from 2\ndump complete: 2 volumes, 3 blocks\n",
        status: ExitStatus::Success,
    },
];

/// Whether a dump of this client goes as the row says.
fn goes(alloc: Global, client: &mut PayloadDumper, row: &Row) -> bool {
    let mut peer = FakePeer::new(alloc, row.connections);
    let mut operator = row.said;
    let mut printed = Vec::new(alloc);
    let mut out = Counted::new(&mut printed);
    let status = dump(alloc, client, &mut peer, &mut operator, &mut out);
    status == row.status && printed.as_slice() == row.printed
}

/// Runs `goes` with a new client.
fn is_dumped(alloc: Global, row: &Row) -> bool {
    match client(alloc, TWO_BYTES) {
        Some(mut client) => goes(alloc, &mut client, row),
        None => false,
    }
}

#[test]
fn dumps_and_their_lines(rt: HostRuntime) {
    for (at, row) in ROWS.iter().enumerate() {
        check_row(&rt, at, is_dumped(rt.alloc(), row));
    }
}

#[test]
fn failures(rt: HostRuntime) {
    let refused = failure_line(2, AttemptFault::Refused(16));
    assert!(rt; refused.as_str() == "volume 2 failed: Refused 16\n");
    let counted = failure_line(2, AttemptFault::CountedReel(1));
    assert!(rt; counted.as_str() == "volume 2 failed: CountedReel 1\n");
}
