//! Many connections.

use super::line::{Line, stop_of};
use super::world::new_world;
use std::test::Fail;
use tape_world::{DriveSpec, Event, World, run};

static DRIVES: [DriveSpec<'static>; 1] = [DriveSpec {
    name: b"/dev/st0",
    capacity: 3100,
    reels: &[b"r1"],
}];

/// The hundredth stranger opens the drive, and then the first finds it busy.
static LINES: [Line; 6] = [
    Line::Says(100, b"O/dev/st0\n0\n"),
    Line::ToServer(100, 12),
    Line::Serve(100),
    Line::Says(1, b"O/dev/st0\n0\n"),
    Line::ToServer(1, 12),
    Line::Serve(1),
];

/// Connects a hundred strangers, and runs the lines.
fn makes_all(world: &mut World) -> bool {
    run(world, &[Event::Stranger; 100]) == Ok(()) && stop_of(world, &LINES).is_none()
}

/// Whether the session of this connection has a reel. Returns `None` if the server's side is not
/// live.
fn has_reel(world: &World, connection: usize) -> Option<bool> {
    let session = world.session(connection)?;
    Some(session.reel().is_some())
}

#[test]
fn a_hundred_connections(rt: HostRuntime) -> Result<(), Fail> {
    let mut world = new_world(rt.alloc(), &DRIVES)?;
    assert!(rt; makes_all(world.as_mut()));
    assert!(rt; has_reel(world.as_ref(), 100) == Some(true));
    assert!(rt; has_reel(world.as_ref(), 1) == Some(false));
    assert!(rt; has_reel(world.as_ref(), 101).is_none());
    assert!(rt; world.on_way(100) == Some((0, 3)));
    Ok(())
}
