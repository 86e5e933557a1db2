//! A dump of two volumes in which one connection is cut after each byte of one direction. It is
//! then retried to its end. The expected outcome follows from two tables with the sizes of all
//! requests and replies.

use super::dump::Dump;
use super::world::new_world;
use dump_client::{Answer, State};
use std::alloc::Global;
use std::boxed::Box;
use std::test::Fail;
use tape::Trouble;
use tape_world::{CountedVolume, DriveSpec, Event, World, run};

static DRIVES: [DriveSpec<'static>; 1] = [DriveSpec {
    name: b"/dev/st0",
    capacity: 3100,
    reels: &[b"r1", b"r2", b"r3", b"r4"],
}];

/// A request of an attempt: its number of bytes, and that of its reply.
type Round = (usize, usize);

/// The first attempt: open, rewind, a look at a blank reel, rewind, label, two blocks, a third
/// block without room, mark, move to the bin, close.
static FIRST_ATTEMPT: [Round; 11] = [
    (12, 3),
    (5, 3),
    (6, 3),
    (5, 3),
    (1030, 6),
    (1030, 6),
    (1030, 6),
    (1030, 3),
    (5, 3),
    (5, 3),
    (2, 3),
];

/// The second attempt: open, rewind, a look at a blank reel, rewind, label, the third block, mark,
/// move to the bin, close.
static SECOND_ATTEMPT: [Round; 9] = [
    (12, 3),
    (5, 3),
    (6, 3),
    (5, 3),
    (1030, 6),
    (1030, 6),
    (5, 3),
    (5, 3),
    (2, 3),
];

/// Returns the number of bytes of these requests.
fn sent(rounds: &[Round]) -> usize {
    let mut total: usize = 0;
    for (bytes, _) in rounds {
        total = total.saturating_add(*bytes);
    }
    total
}

/// Returns the number of bytes of their replies.
fn answered(rounds: &[Round]) -> usize {
    let mut total: usize = 0;
    for (_, bytes) in rounds {
        total = total.saturating_add(*bytes);
    }
    total
}

/// The text of the first label.
const FIRST: &[u8] = b"name /usr\nlevel 0\ndate 951782400\nsince 0\nvolume 1\nfirst 0\n";

/// The text of the second label.
const SECOND: &[u8] = b"name /usr\nlevel 0\ndate 951782400\nsince 0\nvolume 2\nfirst 2\n";

/// What follows a cut.
#[derive(Clone, Copy, PartialEq, Eq)]
enum After {
    Nothing,
    ServerRestart,
    ClientRestart,
}

static AFTER: [After; 3] = [After::Nothing, After::ServerRestart, After::ClientRestart];

/// A cut of one direction of one attempt, after `count` bytes.
#[derive(Clone, Copy)]
struct Cut {
    /// The attempt's connection, 1 or 2.
    connection: usize,
    to_server: bool,
    count: usize,
    after: After,
    /// Whether the server sees the end only after the next attempt.
    late: bool,
}

fn happens(world: &mut World, event: Event<'_>) -> bool {
    run(world, &[event]) == Ok(())
}

/// Has the client send its next request on this connection, if it has one to send. Returns whether
/// it sent.
fn sends(world: &mut World, connection: usize) -> bool {
    world.own() == Some(connection) && happens(world, Event::Send { fails: false })
}

/// Delivers at most `left` bytes to the server. Returns whether there were any.
fn delivers(world: &mut World, connection: usize, left: &mut usize) -> bool {
    let Some((toward, _)) = world.on_way(connection) else {
        return false;
    };
    let count = toward.min(*left);
    *left -= count;
    happens(world, Event::ToServer { connection, count })
}

/// Delivers at most `left` bytes to the client. Returns whether there were any.
fn answers(world: &mut World, connection: usize, left: &mut usize) -> bool {
    let Some((_, back)) = world.on_way(connection) else {
        return false;
    };
    let count = back.min(*left);
    *left -= count;
    happens(world, Event::ToClient { connection, count })
}

fn serves(world: &mut World, connection: usize) -> bool {
    let trouble = Trouble::None;
    happens(
        world,
        Event::Serve {
            connection,
            trouble,
        },
    )
}

/// Moves all that can move on the connection once. Returns whether something moved.
fn moves(world: &mut World, connection: usize, toward: &mut usize, back: &mut usize) -> bool {
    let sent = sends(world, connection);
    let delivered = delivers(world, connection, toward);
    let served = serves(world, connection);
    let answered = answers(world, connection, back);
    sent || delivered || served || answered
}

/// Moves all that can move on the connection, at most this many bytes in each direction.
fn pump(world: &mut World, connection: usize, toward: usize, back: usize) {
    let mut toward = toward;
    let mut back = back;
    for _ in 0..99 {
        if !moves(world, connection, &mut toward, &mut back) {
            return;
        }
    }
}

/// Makes a whole attempt on a new connection.
fn attempt(world: &mut World, connection: usize) {
    let _ = happens(world, Event::Connect);
    pump(world, connection, usize::MAX, usize::MAX);
}

/// Makes the attempts up to the one that is cut, and cuts it.
fn cut_short(world: &mut World, cut: &Cut) {
    if cut.connection == 2 {
        attempt(world, 1);
        let _ = happens(world, Event::EndAtServer { connection: 1 });
    }
    let connection = cut.connection;
    let _ = happens(world, Event::Connect);
    if cut.to_server {
        pump(world, connection, cut.count, usize::MAX);
    } else {
        pump(world, connection, usize::MAX, cut.count);
    }
    let _ = happens(world, Event::Cut { connection });
    let _ = happens(world, Event::EndAtClient { connection });
    if !cut.late {
        let _ = happens(world, Event::EndAtServer { connection });
    }
}

/// Makes what follows the cut. Returns whether it is possible.
fn follows(world: &mut World, dump: &Dump, after: After) -> bool {
    match after {
        After::Nothing => true,
        After::ServerRestart => happens(world, Event::ServerRestart),
        After::ClientRestart => {
            happens(world, Event::ClientRestart) && happens(world, dump.start())
        }
    }
}

/// Returns the state of the client, if there is one.
fn state(world: &World) -> Option<State> {
    Some(world.client()?.state())
}

/// Makes attempts until the dump is finished, and enters it. Gives up after five attempts.
fn is_finished(world: &mut World, cut: &Cut) -> bool {
    for number in 1..6 {
        if state(world) == Some(State::Finished) {
            return happens(world, Event::Enter);
        }
        if state(world) == Some(State::Asking) {
            let answer = Answer::Retry;
            let _ = happens(world, Event::Respond { answer });
        }
        let connection = cut.connection.saturating_add(number);
        attempt(world, connection);
        let first = cut.connection;
        let _ = happens(world, Event::EndAtServer { connection: first });
        let _ = happens(world, Event::EndAtServer { connection });
    }
    false
}

/// Whether the reel's first entry is this text, followed by zero bytes up to 1,024 bytes.
fn is_label(world: &World, reel: &[u8], text: &[u8]) -> bool {
    let mut bytes = [1; 1024];
    let told = world.entry(reel, 0, &mut bytes);
    let rest = bytes.get(text.len()..).unwrap_or(&[1]);
    told == Some(1024) && bytes.starts_with(text) && rest.iter().all(|byte| *byte == 0)
}

/// Whether the entry at this place is this block.
fn is_block(world: &World, reel: &[u8], place: usize, block: u32) -> bool {
    let mut bytes = [255; 1024];
    let told = world.entry(reel, place, &mut bytes);
    told == Some(1024) && bytes.iter().all(|byte| u32::from(*byte) == block)
}

/// Whether the reel has exactly the volume's blocks and one mark after the label.
fn has_blocks(world: &World, told: &CountedVolume<'_>) -> bool {
    let mut place: usize = 1;
    for block in told.first..told.first.saturating_add(told.count) {
        if !is_block(world, told.reel, place, block) {
            return false;
        }
        place = place.saturating_add(1);
    }
    world.entry(told.reel, place, &mut []) == Some(0)
        && world
            .entry(told.reel, place.saturating_add(1), &mut [])
            .is_none()
}

/// Whether the reel has exactly the volume that was counted.
fn has_volume(world: &World, told: &CountedVolume<'_>) -> bool {
    let text = if told.volume == 1 { FIRST } else { SECOND };
    is_label(world, told.reel, text) && has_blocks(world, told)
}

/// Whether each counted reel has its volume. There must be a count.
fn has_volumes(world: &World) -> bool {
    let counts = world.counts();
    for place in 0..counts.len() {
        match counts.get(place) {
            Some(told) if has_volume(world, &told) => {}
            _ => return false,
        }
    }
    !counts.is_empty()
}

/// Returns the reel of the first count, and the connection that made it.
fn first_count(world: &World) -> Option<(&[u8], usize)> {
    let told = world.counts().get(0)?;
    Some((told.reel, told.connection))
}

/// Whether the session of the first attempt, if it is cut there, has opened the drive and not
/// closed it.
fn holds_the_drive(cut: &Cut) -> bool {
    let whole = &FIRST_ATTEMPT;
    let (opened, _) = whole[0];
    let moved = answered(&whole[..10]);
    match cut.to_server {
        true => (opened..sent(whole)).contains(&cut.count),
        false => cut.count < moved,
    }
}

/// Returns the connection that counts the first volume if the first does not. It is the second, or
/// the third if the second finds the drive held by the cut session.
fn later_connection(cut: &Cut) -> usize {
    let is_held = cut.late && cut.after == After::Nothing && holds_the_drive(cut);
    if is_held { 3 } else { 2 }
}

/// Returns the reel that must have the first volume, and the connection that must have counted it.
/// Both follow from the number of bytes before the cut of the first attempt. The volume is counted
/// once the reply to the move to the bin arrives. If that reply is lost, the reel stays uncounted.
fn foretold(cut: &Cut) -> (&'static [u8], usize) {
    let moved = sent(&FIRST_ATTEMPT[..10]);
    let marked = answered(&FIRST_ATTEMPT[..9]);
    let counted = answered(&FIRST_ATTEMPT[..10]);
    match (cut.to_server, cut.count) {
        (true, count) if count >= moved => (b"r1", 1),
        (false, count) if count >= counted => (b"r1", 1),
        (false, count) if count >= marked => (b"r2", later_connection(cut)),
        _ => (b"r1", later_connection(cut)),
    }
}

/// Whether the first volume is where it must be. This is checked only for a cut of the first
/// attempt, and if the client was not restarted.
fn is_foretold(world: &World, cut: &Cut) -> bool {
    cut.connection == 2
        || cut.after == After::ClientRestart
        || first_count(world) == Some(foretold(cut))
}

/// Whether the dump ends as expected.
fn ends(world: &mut World, dump: &Dump, cut: &Cut) -> bool {
    if !happens(world, dump.start()) {
        return false;
    }
    cut_short(world, cut);
    follows(world, dump, cut.after)
        && is_finished(world, cut)
        && has_volumes(world)
        && is_foretold(world, cut)
}

/// Runs `ends` in a new world.
fn is_right(alloc: Global, dump: &Dump, cut: &Cut) -> Result<bool, Fail> {
    let mut world: Box<World> = new_world(alloc, &DRIVES)?;
    Ok(ends(world.as_mut(), dump, cut))
}

/// Whether the dump ends as expected, whatever follows the cut, and whenever the server sees the
/// end.
fn are_right(alloc: Global, dump: &Dump, cut: Cut) -> Result<bool, Fail> {
    for after in &AFTER {
        let seen = Cut {
            after: *after,
            late: false,
            ..cut
        };
        let late = Cut {
            after: *after,
            late: true,
            ..cut
        };
        if !is_right(alloc, dump, &seen)? || !is_right(alloc, dump, &late)? {
            return Ok(false);
        }
    }
    Ok(true)
}

/// Returns the smallest number of bytes after which a cut of the attempt does not end as expected.
/// It tries all numbers up to `total`, the bytes of the direction.
fn wrong_cut(
    alloc: Global,
    connection: usize,
    to_server: bool,
    total: usize,
) -> Result<Option<usize>, Fail> {
    let dump = Dump::new(alloc, 3)?;
    for count in 0..=total {
        let cut = Cut {
            connection,
            to_server,
            count,
            after: After::Nothing,
            late: false,
        };
        if !are_right(alloc, &dump, cut)? {
            return Ok(Some(count));
        }
    }
    Ok(None)
}

#[test]
fn cuts_on_the_way_to_the_server(rt: HostRuntime) -> Result<(), Fail> {
    let total = sent(&FIRST_ATTEMPT);
    assert!(rt; total == 4160);
    let wrong = wrong_cut(rt.alloc(), 1, true, total)?;
    assert!(rt; wrong.is_none(), "{wrong:?}");
    Ok(())
}

#[test]
fn cuts_of_the_second_attempt(rt: HostRuntime) -> Result<(), Fail> {
    let total = sent(&SECOND_ATTEMPT);
    assert!(rt; total == 2100);
    let wrong = wrong_cut(rt.alloc(), 2, true, total)?;
    assert!(rt; wrong.is_none(), "{wrong:?}");
    Ok(())
}

#[test]
fn cuts_of_the_answers(rt: HostRuntime) -> Result<(), Fail> {
    let totals = (answered(&FIRST_ATTEMPT), answered(&SECOND_ATTEMPT));
    assert!(rt; totals == (42, 33));
    let first = wrong_cut(rt.alloc(), 1, false, totals.0)?;
    let second = wrong_cut(rt.alloc(), 2, false, totals.1)?;
    assert!(rt; (first, second) == (None, None), "{first:?} {second:?}");
    Ok(())
}
