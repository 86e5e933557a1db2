//! Looks at a reel over a peer with given replies, and the reels on which a dump may write.

use super::check_row;
use super::fake::{FakePeer, Replies};
use super::fixture::DEVICE;
use rdump_net::{Protection, ReelFront, find_protection, look_at_reel};
use remote_tape::{CallFault, TapeCause, TapeFault, TapeRequest};
use std::alloc::Global;

/// The result of a look: the bytes of a record, no bytes for an empty reel, and `None` for a mark.
type Found = Result<Option<&'static [u8]>, TapeFault>;

/// The replies of the peer, what it is sent, and what is found.
type Row = (&'static [Replies], &'static [u8], Found);

/// The last row has no connection.
static ROWS: [Row; 7] = [
    (
        &[&[b"A0\n", b"A1\n", b"A3\nabc", b"A0\n"]],
        b"O/dev/st0\n0\nI5\n1\nR1024\nC\n",
        Ok(Some(b"abc")),
    ),
    (
        &[&[b"A0\n", b"A1\n", b"A0\n", b"A1\n", b"A1\n", b"A0\n"]],
        b"O/dev/st0\n0\nI5\n1\nR1024\nI5\n1\nI1\n1\nC\n",
        Ok(None),
    ),
    (
        &[&[
            b"A0\n",
            b"A1\n",
            b"A0\n",
            b"A1\n",
            b"E5\nInput/output error\n",
            b"A0\n",
        ]],
        b"O/dev/st0\n0\nI5\n1\nR1024\nI5\n1\nI1\n1\nC\n",
        Ok(Some(b"")),
    ),
    (
        &[&[b"E6\nDevice not configured\n"]],
        b"O/dev/st0\n0\n",
        Err(TapeFault {
            request: TapeRequest::Open,
            cause: TapeCause::Refused(6),
        }),
    ),
    (
        &[&[
            b"A0\n",
            b"A1\n",
            b"E5\nInput/output error\n",
            b"E9\nBad file descriptor\n",
        ]],
        b"O/dev/st0\n0\nI5\n1\nR1024\nC\n",
        Err(TapeFault {
            request: TapeRequest::Read,
            cause: TapeCause::Refused(5),
        }),
    ),
    (
        &[&[b"A0\n", b"A1\n", b"A3\nabc"]],
        b"O/dev/st0\n0\nI5\n1\nR1024\nC\n",
        Err(TapeFault {
            request: TapeRequest::Close,
            cause: TapeCause::NoReply(CallFault::ConnectionEnded),
        }),
    ),
    (
        &[],
        b"",
        Err(TapeFault {
            request: TapeRequest::Open,
            cause: TapeCause::NoReply(CallFault::ConnectionEnded),
        }),
    ),
];

/// Whether a look found this.
fn is_found(found: &Result<ReelFront, TapeFault>, wanted: Found) -> bool {
    match (found, wanted) {
        (Ok(ReelFront::Record(bytes)), Ok(Some(wanted))) => bytes.as_slice() == wanted,
        (Ok(ReelFront::Empty), Ok(Some(wanted))) => wanted.is_empty(),
        (Ok(ReelFront::Mark), Ok(None)) => true,
        (Err(fault), Err(wanted)) => *fault == wanted,
        _ => false,
    }
}

/// Whether a look over a peer with these replies goes as the row says.
fn goes(alloc: Global, row: &Row) -> bool {
    let (replies, sent, wanted) = *row;
    let mut peer = FakePeer::new(alloc, replies);
    let found = look_at_reel(alloc, &mut peer, DEVICE);
    is_found(&found, wanted) && peer.sent.as_slice() == sent
}

#[test]
fn looks(rt: HostRuntime) {
    for (at, row) in ROWS.iter().enumerate() {
        check_row(&rt, at, goes(rt.alloc(), row));
    }
}

/// The lines of a label of `/usr` at level 1.
const LABEL: &[u8] = b"name /usr\nlevel 1\ndate 951782400\nsince 0\nvolume 2\nfirst 7\n";

/// A dump's name, level and date, and whether it may write on a reel with that label.
static DUMPS: [(&str, u64, u64, bool); 4] = [
    ("/usr", 1, 951782400, true),
    ("/us", 1, 951782400, false),
    ("/usr", 0, 951782400, false),
    ("/usr", 1, 951782401, false),
];

/// Returns a reel with that label, with zero bytes after its lines.
fn labelled(alloc: Global) -> Option<ReelFront> {
    let mut bytes = Vec::from_slice(alloc, LABEL).ok()?;
    bytes.resize(1024, 0).ok()?;
    Some(ReelFront::Record(bytes))
}

#[test]
fn protected_reels(rt: HostRuntime) {
    let front = labelled(rt.alloc()).expect(&rt, "memory");
    for (at, (name, level, date, may)) in DUMPS.iter().enumerate() {
        let found = find_protection(&front, name, *level, *date);
        check_row(&rt, at, found.is_none() == *may);
    }
    let mark = find_protection(&ReelFront::Mark, "/usr", 1, 951782400);
    check_row(&rt, 4, mark == Some(Protection::Mark));
    check_row(
        &rt,
        5,
        find_protection(&ReelFront::Empty, "/usr", 1, 0).is_none(),
    );
}
