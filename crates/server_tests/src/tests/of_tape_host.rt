//! Connections of one server: the room that they have, and one conversation.

use drives::ListStacks;
use rmt_wire::{READER_LIMIT, WireFault};
use std::alloc::Global;
use tape::Trouble;
use world_host::{Answered, Carried, Host, RequestKind, Turn};

/// Admits the next connection, if there is memory for it.
fn join(host: &mut Host) {
    if host.prepare().is_ok() {
        host.admit();
    }
}

/// Returns the room of connections in bytes, how many bytes they accept, and the number of a drive.
/// Meanwhile two connections are made, the first one ends, and the server restarts.
fn told(host: &mut Host) -> [Option<usize>; 7] {
    let before = host.room(1);
    join(host);
    let begun = host.room(1);
    let taken = host.push(1, b"O/dev");
    let pushed = host.room(1);
    join(host);
    host.end(1);
    let ended = host.room(1);
    let other = host.room(2);
    host.restart();
    let lost = host.push(2, b"C");
    [
        before,
        begun,
        pushed,
        ended,
        other,
        Some(taken.saturating_add(lost)),
        host.drive(b"/dev/st0"),
    ]
}

/// A reader to which nothing was pushed has room for 262,156 bytes.
static TOLD: [Option<usize>; 7] = [
    None,
    Some(262156),
    Some(262151),
    None,
    Some(262156),
    Some(5),
    Some(0),
];

/// The bytes that are pushed, and the fault that is injected into the request's device call. Then
/// whether the reply is lost, and the outcome of the turn.
type Row<'a> = (&'a [u8], Trouble, bool, Turn);

/// A record is written, a second one meets a device failure, and the reply to marks is lost. Then
/// the record is read back. The beginning of a read is not a request yet. A byte in it that is not
/// a digit breaks the stream, and a request after it is not carried out.
static ROWS: [Row<'_>; 9] = [
    (
        b"O/dev/st0\n2\n",
        Trouble::None,
        false,
        Turn::Carried(Carried {
            asked: RequestKind::Open { writes: true },
            answered: Answered::Number(0),
        }),
    ),
    (
        b"W5\nhello",
        Trouble::None,
        false,
        Turn::Carried(Carried {
            asked: RequestKind::Write,
            answered: Answered::Number(5),
        }),
    ),
    (
        b"W1\nx",
        Trouble::Kept,
        false,
        Turn::Carried(Carried {
            asked: RequestKind::Write,
            answered: Answered::Error(5),
        }),
    ),
    (
        b"I0\n1\n",
        Trouble::None,
        true,
        Turn::Carried(Carried {
            asked: RequestKind::Marks,
            answered: Answered::Number(1),
        }),
    ),
    (
        b"I5\n1\n",
        Trouble::Lost,
        false,
        Turn::Carried(Carried {
            asked: RequestKind::Other,
            answered: Answered::Number(1),
        }),
    ),
    (
        b"R9\n",
        Trouble::None,
        false,
        Turn::Carried(Carried {
            asked: RequestKind::Other,
            answered: Answered::Data,
        }),
    ),
    (b"R9", Trouble::None, false, Turn::Nothing),
    (
        b"x",
        Trouble::None,
        false,
        Turn::Broken(WireFault::BadNumber),
    ),
    (b"C\n", Trouble::None, false, Turn::Nothing),
];

const REPLIES: &[u8] = b"A0\nA5\nE5\nInput/output error\nA1\nA5\nhello";

/// Whether a turn of connection 3 has the outcome of its row.
fn row_is_met(host: &mut Host, back: &mut Vec<u8>, row: &Row<'_>) -> bool {
    let (bytes, trouble, lost, turn) = *row;
    let Ok(()) = back.reserve(READER_LIMIT) else {
        return false;
    };
    host.push(3, bytes);
    host.serve(3, trouble, back, lost) == turn
}

/// Whether each turn of connection 3 has the outcome of its row, with these replies.
fn rows_are_met(alloc: Global, host: &mut Host) -> bool {
    let mut back = Vec::new(alloc);
    let mut met = true;
    join(host);
    for row in &ROWS {
        met = row_is_met(host, &mut back, row) && met;
    }
    met && back.as_slice() == REPLIES
}

/// Makes a server of the drive `/dev/st0` with one reel.
fn host_of(alloc: Global) -> Option<Host> {
    let mut stacks = ListStacks::new(alloc);
    let drive = stacks.add_drive(b"/dev/st0").ok()?;
    stacks.add_reel(drive, b"reel", 1024).ok()?;
    Host::new(alloc, 1, stacks).ok()
}

/// Whether a new server has the expected room, outcomes and replies.
fn host_is_met(alloc: Global) -> bool {
    let Some(mut host) = host_of(alloc) else {
        return false;
    };
    told(&mut host) == TOLD && rows_are_met(alloc, &mut host)
}

#[test]
fn connections_of_one_server(rt: HostRuntime) {
    assert!(rt; host_is_met(rt.alloc()));
}
