//! Lines and lists of events that are not possible.

use super::dump::Dump;
use super::line::{Line, stop_of};
use super::place::expect_none;
use super::world::new_world;
use dump_client::Answer;
use std::test::Fail;
use tape_world::{DriveSpec, Event, World, WorldFault, run};

static DRIVES: [DriveSpec<'static>; 1] = [DriveSpec {
    name: b"/dev/st0",
    capacity: 3100,
    reels: &[b"r1", b"r2"],
}];

/// Lines that are run in one world, row by row. In each row only the last line is not possible. The
/// number is its place.
static STOPS: [(&[Line], usize); 18] = [
    (&[Line::Connect], 0),
    (&[Line::Send], 0),
    (&[Line::Enter], 0),
    (&[Line::Save], 0),
    (&[Line::ClientRestart], 0),
    (&[Line::Respond(Answer::Retry)], 0),
    (&[Line::Cut(0)], 0),
    (&[Line::Arrange(b"/dev/st0", &[b"r2", b"r2"])], 0),
    (&[Line::Arrange(b"/dev/st9", &[])], 0),
    (&[Line::Stranger, Line::EndAtServer(1)], 1),
    (&[Line::EndAtClient(1)], 0),
    (&[Line::ToClient(1, 1)], 0),
    (&[Line::Says(1, b"O/dev/st0\n0\n"), Line::ToServer(1, 0)], 1),
    (&[Line::ToServer(1, 13)], 0),
    (
        &[
            Line::ToServer(1, 12),
            Line::Serve(1),
            Line::Arrange(b"/dev/st0", &[b"r1"]),
        ],
        2,
    ),
    (&[Line::Serve(1)], 0),
    (&[Line::Cut(1), Line::Cut(1)], 1),
    (
        &[
            Line::Stranger,
            Line::ServerRestart,
            Line::Says(2, b"C"),
            Line::Cut(2),
        ],
        3,
    ),
];

/// Returns the first row in which another line is the first that fails.
fn wrong_stop(world: &mut World) -> Option<usize> {
    for (at, (lines, place)) in STOPS.iter().enumerate() {
        if stop_of(world, lines) != Some(*place) {
            return Some(at);
        }
    }
    None
}

#[test]
fn lines_that_are_not_possible(rt: HostRuntime) -> Result<(), Fail> {
    let mut world = new_world(rt.alloc(), &DRIVES)?;
    expect_none(&rt, wrong_stop(world.as_mut()));
    Ok(())
}

/// Whether a world has had exactly one connection, and `own` is the client's own.
fn has_one_connection(world: &World, own: Option<usize>) -> bool {
    world.on_way(1).is_some() && world.on_way(2).is_none() && world.own() == own
}

/// A list of events is run up to the first that is not possible, and no further.
#[test]
fn lists_with_an_event_that_is_not_possible(rt: HostRuntime) -> Result<(), Fail> {
    let dump = Dump::new(rt.alloc(), 3)?;
    let mut world = new_world(rt.alloc(), &DRIVES)?;
    let stop = run(
        world.as_mut(),
        &[dump.start(), Event::Connect, Event::Connect],
    );
    assert!(rt; stop == Err(WorldFault::NotPossible(2)));
    assert!(rt; has_one_connection(world.as_ref(), Some(1)));
    let mut world = new_world(rt.alloc(), &DRIVES)?;
    let cut = Event::Cut { connection: 1 };
    let stop = run(
        world.as_mut(),
        &[Event::Stranger, cut, Event::Cut { connection: 1 }],
    );
    assert!(rt; stop == Err(WorldFault::NotPossible(2)));
    assert!(rt; has_one_connection(world.as_ref(), None));
    Ok(())
}
