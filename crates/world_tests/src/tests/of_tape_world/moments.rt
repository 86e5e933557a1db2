//! What a world reports during a run, moment by moment.

use super::dump::Dump;
use super::line::{Line, stop_of};
use super::place::expect_none;
use super::reels::is_at_end;
use super::world::new_world;
use dump_client::{Answer, AttemptFault, State, VolumeCount};
use std::test::Fail;
use tape::Trouble;
use tape_world::{DriveSpec, Event, World, run};

/// One moment: what happens, and what the world then reports of its client and of a connection.
struct Moment {
    /// Whether the run of the dump is started first.
    starts: bool,
    lines: &'static [Line],
    connection: usize,
    /// The client's requests after the lines, on that connection: the number of bytes of each, and
    /// of its reply.
    rounds: &'static [(usize, usize)],
    /// The connection of the client's attempt.
    own: Option<usize>,
    /// How many bytes on the way can reach the server now, and how many the other end.
    way: Option<(usize, usize)>,
    /// The drive whose reel the session has online. The outer `None` means that the server's side
    /// is not live.
    online: Option<Option<usize>>,
    /// The client's state, the next volume and its first block, and the counted volumes.
    client: Option<(State, (u32, u32), &'static [VolumeCount])>,
    failure: Option<(u32, AttemptFault)>,
}

/// Each reel has room for a label, two blocks, and a mark.
static DRIVES: [DriveSpec<'static>; 1] = [DriveSpec {
    name: b"/dev/st0",
    capacity: 3100,
    reels: &[b"r1", b"r2", b"r3"],
}];

const ONE: VolumeCount = VolumeCount {
    volume: 1,
    first: 0,
    count: 2,
};

const TWO: VolumeCount = VolumeCount {
    volume: 2,
    first: 2,
    count: 1,
};

const OPEN: (usize, usize) = (12, 3);

const REWIND: (usize, usize) = (5, 3);

/// A look at a blank reel.
const LOOK: (usize, usize) = (6, 3);

const LABEL: (usize, usize) = (1030, 6);

const BLOCK: (usize, usize) = (1030, 6);

/// A block for which the reel has no room.
const REFUSED: (usize, usize) = (1030, 3);

const MARK: (usize, usize) = (5, 3);

const UNLOAD: (usize, usize) = (5, 3);

const CLOSE: (usize, usize) = (2, 3);

static MOMENTS: [Moment; 23] = [
    // Nothing has happened.
    Moment {
        starts: false,
        lines: &[],
        connection: 1,
        rounds: &[],
        own: None,
        way: None,
        online: None,
        client: None,
        failure: None,
    },
    // A run is started.
    Moment {
        starts: true,
        lines: &[],
        connection: 1,
        rounds: &[],
        own: None,
        way: None,
        online: None,
        client: Some((State::Ready, (1, 0), &[])),
        failure: None,
    },
    // An attempt starts.
    Moment {
        starts: false,
        lines: &[Line::Connect],
        connection: 1,
        rounds: &[],
        own: Some(1),
        way: Some((0, 0)),
        online: Some(None),
        client: Some((State::ToSend, (1, 0), &[])),
        failure: None,
    },
    // The open of the drive is on the way.
    Moment {
        starts: false,
        lines: &[Line::Send],
        connection: 1,
        rounds: &[],
        own: Some(1),
        way: Some((12, 0)),
        online: Some(None),
        client: Some((State::Waiting, (1, 0), &[])),
        failure: None,
    },
    // A part of the open is at the server.
    Moment {
        starts: false,
        lines: &[Line::ToServer(1, 5)],
        connection: 1,
        rounds: &[],
        own: Some(1),
        way: Some((7, 0)),
        online: Some(None),
        client: Some((State::Waiting, (1, 0), &[])),
        failure: None,
    },
    // The open is carried out, and its reply is on the way.
    Moment {
        starts: false,
        lines: &[Line::ToServer(1, 7), Line::Serve(1)],
        connection: 1,
        rounds: &[],
        own: Some(1),
        way: Some((0, 3)),
        online: Some(Some(0)),
        client: Some((State::Waiting, (1, 0), &[])),
        failure: None,
    },
    // A part of the reply arrives.
    Moment {
        starts: false,
        lines: &[Line::ToClient(1, 2)],
        connection: 1,
        rounds: &[],
        own: Some(1),
        way: Some((0, 1)),
        online: Some(Some(0)),
        client: Some((State::Waiting, (1, 0), &[])),
        failure: None,
    },
    // All of the reply has arrived.
    Moment {
        starts: false,
        lines: &[Line::ToClient(1, 1)],
        connection: 1,
        rounds: &[],
        own: Some(1),
        way: Some((0, 0)),
        online: Some(Some(0)),
        client: Some((State::ToSend, (1, 0), &[])),
        failure: None,
    },
    // The reel is rewound and found blank, a label and two blocks are written, the third block has
    // no room, and a mark is written.
    Moment {
        starts: false,
        lines: &[],
        connection: 1,
        rounds: &[REWIND, LOOK, REWIND, LABEL, BLOCK, BLOCK, REFUSED, MARK],
        own: Some(1),
        way: Some((0, 0)),
        online: Some(Some(0)),
        client: Some((State::ToSend, (1, 0), &[])),
        failure: None,
    },
    // The reel is moved to the bin, and the client does not know it yet.
    Moment {
        starts: false,
        lines: &[Line::Send, Line::ToServer(1, 5), Line::Serve(1)],
        connection: 1,
        rounds: &[],
        own: Some(1),
        way: Some((0, 3)),
        online: Some(None),
        client: Some((State::Waiting, (1, 0), &[])),
        failure: None,
    },
    // The volume is counted.
    Moment {
        starts: false,
        lines: &[Line::ToClient(1, 3)],
        connection: 1,
        rounds: &[],
        own: Some(1),
        way: Some((0, 0)),
        online: Some(None),
        client: Some((State::ToSend, (2, 2), &[ONE])),
        failure: None,
    },
    // The attempt is over. The session of its connection is not.
    Moment {
        starts: false,
        lines: &[],
        connection: 1,
        rounds: &[CLOSE],
        own: None,
        way: Some((0, 0)),
        online: Some(None),
        client: Some((State::Ready, (2, 2), &[ONE])),
        failure: None,
    },
    // The session is over too.
    Moment {
        starts: false,
        lines: &[Line::EndAtServer(1)],
        connection: 1,
        rounds: &[],
        own: None,
        way: Some((0, 0)),
        online: None,
        client: Some((State::Ready, (2, 2), &[ONE])),
        failure: None,
    },
    // The second volume is written up to its mark.
    Moment {
        starts: false,
        lines: &[Line::Connect],
        connection: 2,
        rounds: &[OPEN, REWIND, LOOK, REWIND, LABEL, BLOCK, MARK],
        own: Some(2),
        way: Some((0, 0)),
        online: Some(Some(0)),
        client: Some((State::ToSend, (2, 2), &[ONE])),
        failure: None,
    },
    // The run is finished.
    Moment {
        starts: false,
        lines: &[],
        connection: 2,
        rounds: &[UNLOAD, CLOSE],
        own: None,
        way: Some((0, 0)),
        online: Some(None),
        client: Some((State::Finished, (3, 3), &[ONE, TWO])),
        failure: None,
    },
    // The run is entered.
    Moment {
        starts: false,
        lines: &[Line::Enter],
        connection: 2,
        rounds: &[],
        own: None,
        way: Some((0, 0)),
        online: Some(None),
        client: Some((State::Finished, (3, 3), &[ONE, TWO])),
        failure: None,
    },
    // Another run is started, and its connection ends while its first request is on the way.
    Moment {
        starts: true,
        lines: &[
            Line::Connect,
            Line::Send,
            Line::Cut(3),
            Line::EndAtClient(3),
        ],
        connection: 3,
        rounds: &[],
        own: None,
        way: Some((12, 0)),
        online: Some(None),
        client: Some((State::Asking, (1, 0), &[])),
        failure: Some((1, AttemptFault::ConnectionEnded)),
    },
    // That run is abandoned. The request arrives.
    Moment {
        starts: false,
        lines: &[Line::Respond(Answer::Abandon), Line::ToServer(3, 12)],
        connection: 3,
        rounds: &[],
        own: None,
        way: Some((0, 0)),
        online: Some(None),
        client: Some((State::Abandoned, (1, 0), &[])),
        failure: None,
    },
    // The request is carried out, and its reply is lost.
    Moment {
        starts: false,
        lines: &[Line::Serve(3)],
        connection: 3,
        rounds: &[],
        own: None,
        way: Some((0, 0)),
        online: Some(Some(0)),
        client: Some((State::Abandoned, (1, 0), &[])),
        failure: None,
    },
    // A run is started, and the client restarts without a saved run. The session stays.
    Moment {
        starts: true,
        lines: &[Line::ClientRestart],
        connection: 3,
        rounds: &[],
        own: None,
        way: Some((0, 0)),
        online: Some(Some(0)),
        client: None,
        failure: None,
    },
    // A stranger sends bytes that are not a request.
    Moment {
        starts: false,
        lines: &[
            Line::Stranger,
            Line::Says(4, b"S\n"),
            Line::ToServer(4, 2),
            Line::Serve(4),
        ],
        connection: 4,
        rounds: &[],
        own: None,
        way: Some((0, 0)),
        online: None,
        client: None,
        failure: None,
    },
    // The server restarts, and what another stranger sent is lost.
    Moment {
        starts: false,
        lines: &[Line::Stranger, Line::Says(5, b"C\n"), Line::ServerRestart],
        connection: 5,
        rounds: &[],
        own: None,
        way: Some((0, 0)),
        online: None,
        client: None,
        failure: None,
    },
    // The operator puts the first reel back on the stack, after the third.
    Moment {
        starts: false,
        lines: &[Line::Arrange(b"/dev/st0", &[b"r3", b"r1"])],
        connection: 5,
        rounds: &[],
        own: None,
        way: Some((0, 0)),
        online: None,
        client: None,
        failure: None,
    },
];

/// Sends each of these requests, and delivers it and its reply. Returns whether that is possible.
fn makes_rounds(world: &mut World, connection: usize, rounds: &[(usize, usize)]) -> bool {
    for (request, reply) in rounds {
        let round = [
            Event::Send { fails: false },
            Event::ToServer {
                connection,
                count: *request,
            },
            Event::Serve {
                connection,
                trouble: Trouble::None,
            },
            Event::ToClient {
                connection,
                count: *reply,
            },
        ];
        if run(world, &round) != Ok(()) {
            return false;
        }
    }
    true
}

/// Makes what happens at this moment. Returns whether that is possible.
fn makes(world: &mut World, dump: &Dump, moment: &Moment) -> bool {
    let can_start = !moment.starts || run(world, &[dump.start()]) == Ok(());
    can_start
        && stop_of(world, moment.lines).is_none()
        && makes_rounds(world, moment.connection, moment.rounds)
}

/// Returns the drive whose reel the session of this connection has online. The outer `None` means
/// that the server's side is not live.
fn online(world: &World, connection: usize) -> Option<Option<usize>> {
    match world.session(connection)?.reel() {
        Some((drive, _)) => Some(Some(drive)),
        None => Some(None),
    }
}

/// Whether the client is as expected, or there is none.
fn has_client(world: &World, wanted: Option<(State, (u32, u32), &[VolumeCount])>) -> bool {
    match (world.client(), wanted) {
        (Some(client), Some((state, next, counted))) => {
            client.state() == state && client.checkpoint() == next && client.counted() == counted
        }
        (None, None) => true,
        _ => false,
    }
}

/// Whether the world reports what the moment says.
fn is_met(world: &World, moment: &Moment) -> bool {
    let connection = moment.connection;
    world.own() == moment.own
        && world.on_way(connection) == moment.way
        && online(world, connection) == moment.online
        && has_client(world, moment.client)
        && world.failure() == moment.failure
}

/// Makes the moments in order. Returns the first that is not as expected.
fn wrong_moment(world: &mut World, dump: &Dump) -> Option<usize> {
    for (at, moment) in MOMENTS.iter().enumerate() {
        if !makes(world, dump, moment) || !is_met(world, moment) {
            return Some(at);
        }
    }
    None
}

#[test]
fn a_world_tells_each_moment(rt: HostRuntime) -> Result<(), Fail> {
    let dump = Dump::new(rt.alloc(), 3)?;
    let mut world = new_world(rt.alloc(), &DRIVES)?;
    expect_none(&rt, wrong_moment(world.as_mut(), &dump));
    assert!(rt; is_at_end(world.as_ref())?);
    Ok(())
}
