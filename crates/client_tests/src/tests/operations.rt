//! Operations of mtio over a peer with given replies.

use super::check_row;
use super::fake::{FakePeer, Replies};
use super::fixture::DEVICE;
use rdump_net::mt;
use rmt_wire::Counted;
use std::alloc::Global;

/// An operation of count 1: its number, the replies on each connection, what the peer is sent, what
/// is printed, and the exit status.
type Row = (u8, &'static [Replies], &'static [u8], &'static [u8], u8);

/// The last row has no connection.
static ROWS: [Row; 9] = [
    (
        0,
        &[&[b"A0\n", b"A1\n", b"A0\n"]],
        b"O/dev/st0\n2\nI0\n1\nC\n",
        b"A1\n",
        0,
    ),
    (
        3,
        &[&[b"A0\n", b"E5\nInput/output error\n", b"A0\n"]],
        b"O/dev/st0\n0\nI3\n1\nC\n",
        b"E5 Input/output error\n",
        3,
    ),
    (
        7,
        &[&[
            b"E6\nDevice ",
            b"not configured\n",
            b"E9\nBad file descriptor\n",
        ]],
        b"O/dev/st0\n0\nC\n",
        b"E6 Device not configured\n",
        3,
    ),
    (
        6,
        &[&[b"A", b"0", b"\n", b"A1\n"]],
        b"O/dev/st0\n0\nI6\n1\nC\n",
        b"A1\n",
        0,
    ),
    (
        6,
        &[&[b"A0\n", b"A1\n", b"E9\nBad file descriptor\n"]],
        b"O/dev/st0\n0\nI6\n1\nC\n",
        b"A1\n",
        0,
    ),
    (5, &[&[b"A0\n", b"A"]], b"O/dev/st0\n0\nI5\n1\n", b"", 3),
    (
        5,
        &[&[b"A0\n", b"A1\nA0\n"]],
        b"O/dev/st0\n0\nI5\n1\n",
        b"",
        3,
    ),
    (5, &[&[b"X\n"]], b"O/dev/st0\n0\n", b"", 3),
    (7, &[], b"", b"", 3),
];

/// Whether an operation over this peer prints what the row says, with its status.
fn prints(alloc: Global, peer: &mut FakePeer, row: &Row) -> bool {
    let (op, _, _, wanted, status) = *row;
    let mut printed = Vec::new(alloc);
    let mut out = Counted::new(&mut printed);
    let told = mt(alloc, peer, DEVICE, u32::from(op), 1, &mut out).code();
    told == status && printed.as_slice() == wanted
}

/// Whether an operation over a peer with these replies goes as the row says.
fn goes(alloc: Global, row: &Row) -> bool {
    let mut peer = FakePeer::new(alloc, row.1);
    prints(alloc, &mut peer, row) && peer.sent.as_slice() == row.2
}

#[test]
fn operations(rt: HostRuntime) {
    for (at, row) in ROWS.iter().enumerate() {
        check_row(&rt, at, goes(rt.alloc(), row));
    }
}
