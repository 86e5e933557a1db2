//! Volumes that are read over a peer with given replies.
ghost use Rattle.std.specs.Prelude.{⊤};

use super::check_row;
use super::fake::{FakePeer, Replies};
use super::fixture::DEVICE;
use rdump_net::{
    AfterVolume, ReadFault, SinkStopped, Verdict, VolumeSink, copy_volume, read_volume,
};
use remote_tape::{CallFault, TapeCause, TapeFault, TapeRequest};
use rmt_wire::Counted;
use std::alloc::Global;
use std::io::Write;
use std::test::Fail;

const ALL_SENT: &[u8] = b"O/dev/st0\n0\nI5\n1\nR262144\nR262144\nR262144\nR262144\nC\n";

/// A label of three bytes, and two records.
const REPLIES: &[Replies] = &[&[
    b"A0\n",
    b"A1\n",
    b"A5\none\0\0",
    b"A3\nabc",
    b"A2\nd",
    b"e",
    b"A0\n",
    b"A0\n",
]];

/// Whether a volume is read over a peer, with its label and its records.
fn is_read(alloc: Global, peer: &mut FakePeer) -> bool {
    let (mut file, mut text) = ([0; 5], [0; 3]);
    let mut out = Counted::new(file.as_mut_slice());
    let mut printed = Counted::new(text.as_mut_slice());
    let status = read_volume(alloc, peer, DEVICE, &mut out, &mut printed).code();
    status == 0 && text == *b"one" && file == *b"abcde"
}

/// Whether a volume is read, and exactly these requests are sent.
fn is_read_whole(alloc: Global) -> bool {
    let mut peer = FakePeer::new(alloc, REPLIES);
    is_read(alloc, &mut peer) && peer.sent.as_slice() == ALL_SENT
}

/// A sink that accepts labels and blocks of at most two bytes.
///
/// It keeps a line for each call: `L` with the label, `B` with the number and the bytes of a block,
/// `M` for the mark and `C` for the question whether the volume is kept.
#[derive(Drop)]
struct ShortSink {
    given: Vec<u8>,
    /// What it answers to `complete`.
    completes: bool,
}

impl ShortSink {
    /// Adds a line, and returns whether there was memory for it.
    fn add(&mut self, head: &[u8], bytes: &[u8]) -> bool {
        self.given.extend_from_slice(head).is_ok()
            && self.given.extend_from_slice(bytes).is_ok()
            && self.given.extend_from_slice(b"\n").is_ok()
    }
}

impl VolumeSink for ShortSink {
    ghost takes = { λ _ _ _ _. ⊤ };

    fn label(&mut self, record: &[u8]) -> Verdict {
        if self.add(b"L", record) && record.len() <= 2 {
            Verdict::GoOn
        } else {
            Verdict::Stop
        }
    }

    fn block(&mut self, number: u64, bytes: &[u8]) -> Result<(), SinkStopped> {
        let head = match number {
            0 => b"B0",
            1 => b"B1",
            _ => b"B?",
        };
        if self.add(head, bytes) && bytes.len() <= 2 {
            Ok(())
        } else {
            Err(SinkStopped)
        }
    }

    fn mark(&mut self) {
        self.add(b"M", b"");
    }

    fn complete(&mut self) -> Result<(), SinkStopped> {
        if self.add(b"C", b"") && self.completes {
            Ok(())
        } else {
            Err(SinkStopped)
        }
    }
}

/// The replies of a peer on its one connection, and the result of copying a volume into a
/// `ShortSink`.
type Row = (&'static [Replies], Result<(), ReadFault>);

/// A label alone, and faults.
static COPIES: [Row; 7] = [
    (&[&[b"A0\n", b"A1\n", b"A2\nab", b"A0\n", b"A0\n"]], Ok(())),
    (
        &[&[b"E6\nDevice not configured\n"]],
        Err(ReadFault::Tape(TapeFault {
            request: TapeRequest::Open,
            cause: TapeCause::Refused(6),
        })),
    ),
    (
        &[&[b"A0\n", b"A1\n", b"A1\na", b"E5\nInput/output error\n"]],
        Err(ReadFault::Tape(TapeFault {
            request: TapeRequest::Read,
            cause: TapeCause::Refused(5),
        })),
    ),
    (
        &[&[b"A0\n", b"A1\n", b"A0\n", b"E9\nBad file descriptor\n"]],
        Err(ReadFault::Tape(TapeFault {
            request: TapeRequest::Close,
            cause: TapeCause::Refused(9),
        })),
    ),
    (
        &[&[b"A0\n", b"A1\n", b"A5\nab"]],
        Err(ReadFault::Tape(TapeFault {
            request: TapeRequest::Read,
            cause: TapeCause::NoReply(CallFault::ConnectionEnded),
        })),
    ),
    (
        &[&[b"A0\n", b"A1\n", b"A262145\n"]],
        Err(ReadFault::Tape(TapeFault {
            request: TapeRequest::Read,
            cause: TapeCause::NoReply(CallFault::Botched),
        })),
    ),
    (&[&[b"A0\n", b"A1\n", b"A3\nabc"]], Err(ReadFault::Stopped)),
];

/// Like `Row`, for a volume whose reel is taken offline afterwards. The second field is what is
/// sent.
type OfflineRow = (&'static [Replies], &'static [u8], Result<(), ReadFault>);

/// In order:
/// - a label with a record.
/// - a volume without a mark, and one whose mark cannot be determined.
/// - a mark alone, whose reel stays.
/// - errors in reply to the last requests, and a connection that ends there.
/// - faults before the end of the volume.
static OFFLINES: [OfflineRow; 11] = [
    (
        &[&[
            b"A0\n",
            b"A1\n",
            b"A1\na",
            b"A2\nbc",
            b"A0\n",
            b"E5\nInput/output error\n",
            b"A1\n",
            b"A2\n",
            b"A1\n",
            b"A1\n",
            b"A0\n",
        ]],
        b"O/dev/st0\n0\nI5\n1\nR262144\nR262144\nR262144\nI4\n1\nI5\n1\nI3\n2\nI1\n1\nI6\n1\nC\n",
        Ok(()),
    ),
    (
        &[&[b"A0\n", b"A1\n", b"A1\na", b"A0\n", b"A1\n", b"A0\n"]],
        b"O/dev/st0\n0\nI5\n1\nR262144\nR262144\nI4\n1\nC\n",
        Err(ReadFault::NoMark),
    ),
    (
        &[&[
            b"A0\n",
            b"A1\n",
            b"A1\na",
            b"A0\n",
            b"E5\nInput/output error\n",
            b"A1\n",
            b"A1\n",
            b"E5\nInput/output error\n",
            b"E9\nBad file descriptor\n",
        ]],
        b"O/dev/st0\n0\nI5\n1\nR262144\nR262144\nI4\n1\nI5\n1\nI3\n1\nI1\n1\nC\n",
        Err(ReadFault::Undetermined),
    ),
    (
        &[&[b"A0\n", b"A1\n", b"A0\n", b"A0\n"]],
        b"O/dev/st0\n0\nI5\n1\nR262144\nC\n",
        Ok(()),
    ),
    (
        &[&[
            b"A0\n",
            b"A1\n",
            b"A1\na",
            b"A0\n",
            b"E5\nInput/output error\n",
            b"A1\n",
            b"A1\n",
            b"A1\n",
            b"E5\nInput/output error\n",
        ]],
        b"O/dev/st0\n0\nI5\n1\nR262144\nR262144\nI4\n1\nI5\n1\nI3\n1\nI1\n1\nI6\n1\n",
        Err(ReadFault::Tape(TapeFault {
            request: TapeRequest::Offline,
            cause: TapeCause::Refused(5),
        })),
    ),
    (
        &[&[
            b"A0\n",
            b"A1\n",
            b"A1\na",
            b"A0\n",
            b"E5\nInput/output error\n",
            b"A1\n",
            b"A1\n",
            b"A1\n",
            b"A1\n",
            b"E9\nBad file descriptor\n",
        ]],
        b"O/dev/st0\n0\nI5\n1\nR262144\nR262144\nI4\n1\nI5\n1\nI3\n1\nI1\n1\nI6\n1\nC\n",
        Err(ReadFault::Tape(TapeFault {
            request: TapeRequest::Close,
            cause: TapeCause::Refused(9),
        })),
    ),
    (
        &[&[
            b"A0\n",
            b"A1\n",
            b"A1\na",
            b"A0\n",
            b"E5\nInput/output error\n",
            b"A1\n",
            b"A1\n",
            b"A1\n",
        ]],
        b"O/dev/st0\n0\nI5\n1\nR262144\nR262144\nI4\n1\nI5\n1\nI3\n1\nI1\n1\nI6\n1\n",
        Err(ReadFault::Tape(TapeFault {
            request: TapeRequest::Offline,
            cause: TapeCause::NoReply(CallFault::ConnectionEnded),
        })),
    ),
    (
        &[&[b"A0\n", b"E5\nInput/output error\n"]],
        b"O/dev/st0\n0\nI5\n1\n",
        Err(ReadFault::Tape(TapeFault {
            request: TapeRequest::Rewind,
            cause: TapeCause::Refused(5),
        })),
    ),
    (
        &[&[b"A0\n", b"A1\n", b"A1\na", b"E5\nInput/output error\n"]],
        b"O/dev/st0\n0\nI5\n1\nR262144\nR262144\n",
        Err(ReadFault::Tape(TapeFault {
            request: TapeRequest::Read,
            cause: TapeCause::Refused(5),
        })),
    ),
    (
        &[&[b"A0\n", b"A1\n", b"A3\nabc", b"A0\n", b"A1\n", b"A0\n"]],
        b"O/dev/st0\n0\nI5\n1\nR262144\n",
        Err(ReadFault::Stopped),
    ),
    (
        &[&[
            b"A0\n", b"A1\n", b"A1\na", b"A3\nbcd", b"A0\n", b"A1\n", b"A0\n",
        ]],
        b"O/dev/st0\n0\nI5\n1\nR262144\nR262144\n",
        Err(ReadFault::Stopped),
    ),
];

/// What to do with the reel, whether the sink completes, the replies of a peer, what is sent, what
/// the sink is given, and the result of copying a volume.
type SinkRow = (
    AfterVolume,
    bool,
    &'static [Replies],
    &'static [u8],
    &'static [u8],
    Result<(), ReadFault>,
);

/// The replies for a label, two blocks, and the mark that ends them.
const MARKED: &[Replies] = &[&[
    b"A0\n",
    b"A1\n",
    b"A1\na",
    b"A2\nbc",
    b"A1\nd",
    b"A0\n",
    b"E5\nInput/output error\n",
    b"A1\n",
    b"A3\n",
    b"A1\n",
    b"A1\n",
    b"A0\n",
]];

/// In order:
/// - a label, and a block, that the sink does not accept.
/// - a sink that does not complete, and one that does.
/// - a volume without a mark, a reel without a label, and a reel that is not checked.
static SINKS: [SinkRow; 9] = [
    (
        AfterVolume::Offline,
        true,
        &[&[b"A0\n", b"A1\n", b"A3\nabc", b"A0\n", b"A0\n"]],
        b"O/dev/st0\n0\nI5\n1\nR262144\n",
        b"Labc\n",
        Err(ReadFault::Stopped),
    ),
    (
        AfterVolume::Offline,
        true,
        &[&[
            b"A0\n", b"A1\n", b"A1\na", b"A2\nbc", b"A3\ndef", b"A0\n", b"A0\n",
        ]],
        b"O/dev/st0\n0\nI5\n1\nR262144\nR262144\nR262144\n",
        b"La\nB0bc\nB1def\n",
        Err(ReadFault::Stopped),
    ),
    (
        AfterVolume::Check,
        false,
        MARKED,
        b"O/dev/st0\n0\nI5\n1\nR262144\nR262144\nR262144\nR262144\nI4\n1\nI5\n1\nI3\n3\nI1\n1\n",
        b"La\nB0bc\nB1d\nM\nC\n",
        Err(ReadFault::Stopped),
    ),
    (
        AfterVolume::Offline,
        false,
        MARKED,
        b"O/dev/st0\n0\nI5\n1\nR262144\nR262144\nR262144\nR262144\nI4\n1\nI5\n1\nI3\n3\nI1\n1\n",
        b"La\nB0bc\nB1d\nM\nC\n",
        Err(ReadFault::Stopped),
    ),
    (
        AfterVolume::Check,
        true,
        MARKED,
        b"O/dev/st0\n0\nI5\n1\nR262144\nR262144\nR262144\nR262144\nI4\n1\nI5\n1\nI3\n3\nI1\n1\nC\n",
        b"La\nB0bc\nB1d\nM\nC\n",
        Ok(()),
    ),
    (
        AfterVolume::Offline,
        true,
        MARKED,
        b"O/dev/st0\n0\nI5\n1\nR262144\nR262144\nR262144\nR262144\nI4\n1\nI5\n1\nI3\n3\nI1\n1\nI6\n1\nC\n",
        b"La\nB0bc\nB1d\nM\nC\n",
        Ok(()),
    ),
    (
        AfterVolume::Offline,
        true,
        &[&[b"A0\n", b"A1\n", b"A1\na", b"A0\n", b"A1\n", b"A0\n"]],
        b"O/dev/st0\n0\nI5\n1\nR262144\nR262144\nI4\n1\nC\n",
        b"La\n",
        Err(ReadFault::NoMark),
    ),
    (
        AfterVolume::Offline,
        false,
        &[&[b"A0\n", b"A1\n", b"A0\n", b"A0\n"]],
        b"O/dev/st0\n0\nI5\n1\nR262144\nC\n",
        b"",
        Ok(()),
    ),
    (
        AfterVolume::Stay,
        false,
        &[&[b"A0\n", b"A1\n", b"A1\na", b"A2\nbc", b"A0\n", b"A0\n"]],
        b"O/dev/st0\n0\nI5\n1\nR262144\nR262144\nR262144\nC\n",
        b"La\nB0bc\n",
        Ok(()),
    ),
];

/// Returns the result of copying a volume over this peer into a sink that completes.
fn copied(alloc: Global, peer: &mut FakePeer, after: AfterVolume) -> Result<(), ReadFault> {
    let mut sink = ShortSink {
        given: Vec::new(alloc),
        completes: true,
    };
    copy_volume(alloc, peer, DEVICE, after, &mut sink)
}

/// Whether copying a volume gives the row's result, requests and calls of the sink.
fn gives(alloc: Global, row: &SinkRow) -> bool {
    let mut peer = FakePeer::new(alloc, row.2);
    let mut sink = ShortSink {
        given: Vec::new(alloc),
        completes: row.1,
    };
    let result = copy_volume(alloc, &mut peer, DEVICE, row.0, &mut sink);
    result == row.5 && peer.sent.as_slice() == row.3 && sink.given.as_slice() == row.4
}

/// Whether copying a volume gives the row's result.
fn goes(alloc: Global, row: &Row) -> bool {
    let mut peer = FakePeer::new(alloc, row.0);
    copied(alloc, &mut peer, AfterVolume::Stay) == row.1
}

/// Whether copying a volume and taking its reel offline gives the row's result and requests.
fn goes_offline(alloc: Global, row: &OfflineRow) -> bool {
    let mut peer = FakePeer::new(alloc, row.0);
    let result = copied(alloc, &mut peer, AfterVolume::Offline);
    result == row.2 && peer.sent.as_slice() == row.1
}

#[test]
fn volumes(rt: HostRuntime) {
    assert!(rt; is_read_whole(rt.alloc()));
    for (at, row) in COPIES.iter().enumerate() {
        check_row(&rt, at, goes(rt.alloc(), row));
    }
}

#[test]
fn volumes_whose_reels_are_taken_away(rt: HostRuntime) {
    for (at, row) in OFFLINES.iter().enumerate() {
        check_row(&rt, at, goes_offline(rt.alloc(), row));
    }
}

#[test]
fn volumes_are_given_to_a_sink(rt: HostRuntime) {
    for (at, row) in SINKS.iter().enumerate() {
        check_row(&rt, at, gives(rt.alloc(), row));
    }
}

#[test]
fn a_fault_is_told(rt: HostRuntime) {
    let refused = ReadFault::Tape(TapeFault {
        request: TapeRequest::Rewind,
        cause: TapeCause::Refused(5),
    });
    let mut room = [0; 22];
    let told = write!(room.as_mut_slice(), "{refused}").is_ok();
    assert!(rt; told && room == *b"rewind refused with E5");
}

/// Why a request has no reply, and what is printed for it.
static CALL_FAULTS: [(CallFault, &str); 3] = [
    (CallFault::ConnectionEnded, "the connection ended"),
    (CallFault::Botched, "no reply by the protocol"),
    (CallFault::OutOfMemory, "out of memory"),
];

#[test]
fn a_fault_of_a_call_is_told(rt: HostRuntime) -> Result<(), Fail> {
    for (fault, text) in &CALL_FAULTS {
        assert!(rt; fault.to_string(rt.alloc())?.as_str() == *text);
    }
    Ok(())
}
