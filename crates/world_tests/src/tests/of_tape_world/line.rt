//! Events, as rows of tables.

use dump_client::Answer;
use tape::Trouble;
use tape_world::{Event, World, run};

/// An event other than the start of a run. Connections and bytes are given as numbers.
pub(crate) enum Line {
    Connect,
    Send,
    ToServer(usize, usize),
    Serve(usize),
    ToClient(usize, usize),
    Cut(usize),
    EndAtServer(usize),
    EndAtClient(usize),
    ServerRestart,
    ClientRestart,
    Respond(Answer),
    /// The drive, and the names of its reels.
    Arrange(&'static [u8], &'static [&'static [u8]]),
    Stranger,
    Says(usize, &'static [u8]),
    Enter,
    Save,
}

/// Returns the event of a line.
fn event(line: &Line) -> Event<'static> {
    match *line {
        Line::Connect => Event::Connect,
        Line::Send => Event::Send { fails: false },
        Line::ToServer(connection, count) => Event::ToServer { connection, count },
        Line::Serve(connection) => Event::Serve {
            connection,
            trouble: Trouble::None,
        },
        Line::ToClient(connection, count) => Event::ToClient { connection, count },
        Line::Cut(connection) => Event::Cut { connection },
        Line::EndAtServer(connection) => Event::EndAtServer { connection },
        Line::EndAtClient(connection) => Event::EndAtClient { connection },
        Line::ServerRestart => Event::ServerRestart,
        Line::ClientRestart => Event::ClientRestart,
        Line::Respond(answer) => Event::Respond { answer },
        Line::Arrange(drive, reels) => Event::Arrange { drive, reels },
        Line::Stranger => Event::Stranger,
        Line::Says(connection, bytes) => Event::Says { connection, bytes },
        Line::Enter => Event::Enter,
        Line::Save => Event::Save,
    }
}

/// Runs the lines in order, up to the first that fails. Returns the place of that line.
pub(crate) fn stop_of(world: &mut World, lines: &[Line]) -> Option<usize> {
    for (place, line) in lines.iter().enumerate() {
        if run(world, &[event(line)]) != Ok(()) {
            return Some(place);
        }
    }
    None
}
