//! The commands of a schedule, and how a line is read.

use crate::byte_count::ByteCount;
use crate::hex_text::HexText;
use crate::line_fields::LineFields;
use crate::names::Names;
use dump_client::Answer;
use tape::Trouble;
use tape_world::Event;

/// A command.
#[derive(Clone, Copy)]
pub(crate) enum ScheduleLine<'a> {
    /// Adds a drive. Its reels are empty and hold `capacity` bytes each.
    Drive {
        device: &'a [u8],
        capacity: u64,
        reels: Names<'a>,
    },
    /// Starts a run. `name` is the file system. The numbers are its level, date, base date, the
    /// bytes of a block, and the number of blocks.
    Run {
        device: &'a [u8],
        name: &'a str,
        numbers: [u64; 5],
    },
    /// The operator puts these reels on the stack of a drive.
    Arrange {
        device: &'a [u8],
        reels: Names<'a>,
    },
    /// A stranger sends bytes.
    Says {
        connection: usize,
        text: HexText<'a>,
    },
    /// Any other command.
    Action {
        act: Action,
    },
}

/// A command that has no device and no bytes.
#[derive(Clone, Copy)]
pub(crate) enum Action {
    /// Bytes on the way reach one end of a connection.
    Arrives {
        end: End,
        connection: usize,
        count: ByteCount,
    },
    /// Serves a connection for this many rounds.
    Pump {
        connection: usize,
        rounds: u64,
    },
    /// Any other event.
    Event {
        event: Event<'static>,
    },
}

/// An end of a connection.
#[derive(Clone, Copy)]
pub(crate) enum End {
    /// The server's.
    Server,
    /// The client's or the stranger's.
    Client,
}

/// Reads a command from a line that is neither empty nor a comment. Returns `None` if the line is
/// not valid.
pub(crate) fn read_command(text: &[u8]) -> Option<ScheduleLine<'_>> {
    let mut fields = LineFields::new(Some(text));
    let line = read_words(&mut fields);
    if fields.is_over() { line } else { None }
}

/// Reads a command and its fields. Fields may be left over.
fn read_words<'a>(fields: &mut LineFields<'a>) -> Option<ScheduleLine<'a>> {
    match fields.text_field()? {
        "drive" => read_drive(fields),
        "run" => read_run(fields),
        "arrange" => read_arrange(fields),
        "says" => read_says(fields),
        command => match read_act(command, fields) {
            Some(act) => Some(ScheduleLine::Action { act }),
            None => None,
        },
    }
}

/// Reads a drive: its device, the capacity of its reels in bytes, and their names.
fn read_drive<'a>(fields: &mut LineFields<'a>) -> Option<ScheduleLine<'a>> {
    match (fields.device(), fields.number(), fields.names()) {
        (Some(device), Some(capacity), Some(reels)) => Some(ScheduleLine::Drive {
            device,
            capacity,
            reels,
        }),
        _ => None,
    }
}

/// Reads a run: its device, the name of the file system, and its numbers.
fn read_run<'a>(fields: &mut LineFields<'a>) -> Option<ScheduleLine<'a>> {
    match (fields.device(), fields.text_field(), read_numbers(fields)) {
        (Some(device), Some(name), Some(numbers)) => Some(ScheduleLine::Run {
            device,
            name,
            numbers,
        }),
        _ => None,
    }
}

/// Reads the next five fields as numbers. Returns None if one is missing or is not a number.
fn read_numbers(fields: &mut LineFields<'_>) -> Option<[u64; 5]> {
    let mut numbers = [0; 5];
    for number in &mut numbers {
        *number = fields.number()?;
    }
    Some(numbers)
}

/// Reads the fields of an arrangement: a device, and the names of the reels for its stack.
fn read_arrange<'a>(fields: &mut LineFields<'a>) -> Option<ScheduleLine<'a>> {
    match (fields.device(), fields.names()) {
        (Some(device), Some(reels)) => Some(ScheduleLine::Arrange { device, reels }),
        _ => None,
    }
}

/// Reads the bytes that a stranger sends: a connection, and the bytes in hexadecimal.
fn read_says<'a>(fields: &mut LineFields<'a>) -> Option<ScheduleLine<'a>> {
    match (fields.connection(), fields.hex()) {
        (Some(connection), Some(text)) => Some(ScheduleLine::Says { connection, text }),
        _ => None,
    }
}

fn read_act(command: &str, fields: &mut LineFields<'_>) -> Option<Action> {
    match command {
        "to-server" => read_arrival(End::Server, fields),
        "to-client" => read_arrival(End::Client, fields),
        "pump" => read_pump(fields),
        "serve" => read_serve(fields),
        _ => read_event(command, fields),
    }
}

/// Reads the fields of an arrival: the connection, and how many of the bytes in transit reach
/// `end`.
fn read_arrival(end: End, fields: &mut LineFields<'_>) -> Option<Action> {
    let connection = fields.connection()?;
    let count = fields.count()?;
    Some(Action::Arrives {
        end,
        connection,
        count,
    })
}

/// Reads the fields of a pump: a connection and a number of rounds.
fn read_pump(fields: &mut LineFields<'_>) -> Option<Action> {
    let connection = fields.connection()?;
    let rounds = fields.number()?;
    Some(Action::Pump { connection, rounds })
}

/// Reads a connection and, if there are more fields, an injected fault.
fn read_serve(fields: &mut LineFields<'_>) -> Option<Action> {
    let connection = fields.connection()?;
    let trouble = read_trouble(fields)?;
    let event = Event::Serve {
        connection,
        trouble,
    };
    Some(Action::Event { event })
}

/// Reads a command that takes nothing, a connection, or `fault`.
fn read_event(command: &str, fields: &mut LineFields<'_>) -> Option<Action> {
    if fields.is_over() {
        return event_of(command);
    }
    if command == "send" {
        return read_send(fields);
    }
    event_at(command, fields.connection()?)
}

/// Returns the event of a command without fields, or None if there is no such command.
fn event_of(command: &str) -> Option<Action> {
    let event = match command {
        "connect" => Event::Connect,
        "send" => Event::Send { fails: false },
        "restart-server" => Event::ServerRestart,
        "restart-client" => Event::ClientRestart,
        "stranger" => Event::Stranger,
        "enter" => Event::Enter,
        "save" => Event::Save,
        _ => return answer_of(command),
    };
    Some(Action::Event { event })
}

/// Returns the operator's answer for a command.
fn answer_of(command: &str) -> Option<Action> {
    let answer = match command {
        "retry" => Answer::Retry,
        "abandon" => Answer::Abandon,
        _ => return None,
    };
    let event = Event::Respond { answer };
    Some(Action::Event { event })
}

/// Reads the field `fault` of a send: the client sends, and the read of the block fails.
fn read_send(fields: &mut LineFields<'_>) -> Option<Action> {
    if fields.text_field()? != "fault" {
        return None;
    }
    let event = Event::Send { fails: true };
    Some(Action::Event { event })
}

/// Returns the event of a command that takes only a connection.
fn event_at(command: &str, connection: usize) -> Option<Action> {
    let event = match command {
        "cut" => Event::Cut { connection },
        "end-server" => Event::EndAtServer { connection },
        "end-client" => Event::EndAtClient { connection },
        _ => return None,
    };
    Some(Action::Event { event })
}

/// Reads an injected fault. After the last field it returns `Trouble::None`.
fn read_trouble(fields: &mut LineFields<'_>) -> Option<Trouble> {
    if fields.is_over() {
        return Some(Trouble::None);
    }
    match fields.text_field()? {
        "kept" => Some(Trouble::Kept),
        "lost" => Some(Trouble::Lost),
        "written" => Some(Trouble::Written(written_of(fields.number()?))),
        _ => None,
    }
}

/// Returns this count as `Trouble::Written` has it: the count, or `u32::MAX` if it is greater.
fn written_of(count: u64) -> u32 {
    u32::try_from(count).unwrap_or(u32::MAX)
}
