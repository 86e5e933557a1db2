//! Requests to a tape over a peer with given replies.

use super::check_row;
use super::fake::{FakePeer, Replies};
use remote_tape::{
    CallFault, FaultReport, MarkSearch, Peer, RemoteTape, TapeCause, TapeFault, TapeRequest,
    find_mark,
};
use std::alloc::Global;
use std::test::Fail;

/// A part of the text of an error.
const TEXT: &[u8] = &[b'x'; 65536];

/// An error whose text fills the buffer that it is received into, and goes on. Then a record.
static LONG_TEXT: [Replies; 1] = [&[
    b"E5\n",
    TEXT,
    TEXT,
    TEXT,
    TEXT,
    b"xxxxxxxxx",
    TEXT,
    b"\n",
    b"A3\nabc",
]];

#[test]
fn a_text_that_fills_the_buffer(rt: HostRuntime) {
    let mut peer = FakePeer::new(rt.alloc(), &LONG_TEXT);
    let mut tape = RemoteTape::new(rt.alloc()).expect(&rt, "memory");
    let refused = TapeFault {
        request: TapeRequest::Rewind,
        cause: TapeCause::Refused(5),
    };
    assert!(rt; peer.connect() && tape.rewind(&mut peer) == Err(refused));
    assert!(rt;
        tape.read(&mut peer, 3)
            .is_ok_and(|bytes| bytes == b"abc".as_slice())
    );
}

/// The replies of the peer, what it is sent, and what is found behind three records.
type Row = (
    &'static [Replies],
    &'static [u8],
    Result<MarkSearch, TapeFault>,
);

const NO_ROOM: &[u8] = b"E12\nCannot allocate memory\n";

const IO: &[u8] = b"E5\nInput/output error\n";

static SEARCHES: [Row; 7] = [
    (
        &[&[IO, b"A1\n", b"A3\n", b"A1\n"]],
        b"I4\n1\nI5\n1\nI3\n3\nI1\n1\n",
        Ok(MarkSearch::Found),
    ),
    (&[&[b"A1\n"]], b"I4\n1\n", Ok(MarkSearch::Missing)),
    (
        &[&[NO_ROOM]],
        b"I4\n1\n",
        Ok(MarkSearch::Refused {
            request: TapeRequest::Space,
            number: 12,
        }),
    ),
    (
        &[&[IO, IO]],
        b"I4\n1\nI5\n1\n",
        Ok(MarkSearch::Refused {
            request: TapeRequest::Rewind,
            number: 5,
        }),
    ),
    (
        &[&[IO, b"A1\n", b"A3\n", IO]],
        b"I4\n1\nI5\n1\nI3\n3\nI1\n1\n",
        Ok(MarkSearch::Refused {
            request: TapeRequest::Space,
            number: 5,
        }),
    ),
    (
        &[&[IO, b"A1\n", b"A3\nA1\n"]],
        b"I4\n1\nI5\n1\nI3\n3\n",
        Err(TapeFault {
            request: TapeRequest::Space,
            cause: TapeCause::NoReply(CallFault::Botched),
        }),
    ),
    (
        &[&[IO]],
        b"I4\n1\nI5\n1\n",
        Err(TapeFault {
            request: TapeRequest::Rewind,
            cause: TapeCause::NoReply(CallFault::ConnectionEnded),
        }),
    ),
];

/// Whether a search over a peer with these replies goes as the row says.
fn goes(alloc: Global, row: &Row) -> bool {
    let (replies, sent, wanted) = *row;
    let mut peer = FakePeer::new(alloc, replies);
    let Ok(mut tape) = RemoteTape::new(alloc) else {
        return false;
    };
    peer.connect() && find_mark(&mut tape, &mut peer, 3) == wanted && peer.sent.as_slice() == sent
}

#[test]
fn searches_for_a_mark(rt: HostRuntime) {
    for (at, row) in SEARCHES.iter().enumerate() {
        check_row(&rt, at, goes(rt.alloc(), row));
    }
}

#[test]
fn a_search_behind_too_many_records(rt: HostRuntime) {
    let mut peer = FakePeer::new(rt.alloc(), &[&[IO, b"A1\n"]]);
    let mut tape = RemoteTape::new(rt.alloc()).expect(&rt, "memory");
    assert!(rt; peer.connect());
    let found = find_mark(&mut tape, &mut peer, 2147483648);
    assert!(rt; found == Ok(MarkSearch::TooManyRecords));
    assert!(rt; peer.sent.as_slice() == b"I4\n1\nI5\n1\n".as_slice());
}

/// A fault, and what is printed of it.
static REPORTS: [(TapeFault, &str); 2] = [
    (
        TapeFault {
            request: TapeRequest::Open,
            cause: TapeCause::Refused(6),
        },
        "open refused with E6: no reel is on the stack of st?0: put one into its folder",
    ),
    (
        TapeFault {
            request: TapeRequest::Read,
            cause: TapeCause::NoReply(CallFault::Botched),
        },
        "no reply by the protocol",
    ),
];

#[test]
fn a_fault_is_reported(rt: HostRuntime) -> Result<(), Fail> {
    for (fault, text) in &REPORTS {
        let report = FaultReport {
            fault: *fault,
            device: "st\t0",
            failure: None,
        };
        assert!(rt; report.to_string(rt.alloc())?.as_str() == *text);
    }
    Ok(())
}
