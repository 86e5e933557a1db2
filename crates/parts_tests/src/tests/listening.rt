//! One drive in memory that serves a connection, and then a stream. Connections over a Unix socket,
//! and connections that are silent.

use reel_files::{Log, NoLog};
use rmt_server::Served;
use rmt_wire::Counted;
use rmtd_serve::{Connections, MemoryServer, serve_connections};
use sockets::Listener;
use std::alloc::{AllocError, Global};
use std::cell::Cell;
use std::io::{self, Read, Write};
use std::net::{Shutdown, TcpListener, TcpStream};
use std::os::unix::net::{UnixListener, UnixStream};
use std::rt::Clock;
use std::time::Duration;

/// The requests of a connection. They write a record and a mark, and read them back.
const SENT: &[u8] = b"O/dev/st0\n2\nW5\nhelloI0\n1\nI5\n1\nR10\nR10\nC\n";

/// Whether a connection sends all its requests before it receives a reply.
fn sends(stream: &mut TcpStream) -> bool {
    stream.write_all(SENT).is_ok() && stream.shutdown(Shutdown::Write).is_ok()
}

/// All replies.
const HEARD: &[u8] = b"A0\nA5\nA1\nA1\nA5\nhelloA0\nA0\n";

/// Whether the replies arrive on a connection, and then its end.
fn hears<S: Read>(stream: &mut S) -> bool {
    let mut bytes = [0; 26];
    let is_heard = stream.read_exact(&mut bytes).is_ok() && bytes.as_slice() == HEARD;
    is_heard && matches!(stream.read(&mut [0; 1]), Ok(0))
}

/// Whether a drive serves the next connection, and then a stream that reads its one record.
fn serves_both<C: Clock>(clock: &C, alloc: Global, listener: &Listener) -> bool {
    let Ok(mut server) = MemoryServer::new(alloc, 1024) else {
        return false;
    };
    serve_connections(
        &mut server,
        Connections::new(clock, listener, 1, None, NoLog),
    );
    let mut taken = Vec::new(alloc);
    let mut input = Counted::new(b"O/dev/st0\n0\nR10\nR10\n".as_slice());
    let mut output = Counted::new(&mut taken);
    server.serve(&mut input, &mut output) == Ok(Served::End)
        && taken.as_slice() == b"A0\nA5\nhelloA0\n".as_slice()
}

#[test]
fn a_connection_and_a_stream_after_it(rt: HostRuntime) -> io::Result<()> {
    let listener = TcpListener::bind(&rt, "127.0.0.1:0")?;
    let mut stream = TcpStream::connect(&rt, listener.local_addr()?)?;
    let listener = Listener::Tcp(listener);
    assert!(rt;
        sends(&mut stream) && serves_both(&rt, rt.alloc(), &listener) && hears(&mut stream)
    );
    Ok(())
}

/// A log that compares the start of each line with the next expected one. `right` is the number of
/// lines that begin as expected, or the greatest number after a line that does not.
#[derive(Drop)]
struct Starts<'a> {
    wanted: &'static [&'static str],
    right: &'a Cell<usize>,
}

impl Log for Starts<'_> {
    fn note(&self, line: &str) {
        let right = self.right.get();
        let is_wanted = match self.wanted.get(right) {
            Some(start) => line.starts_with(*start),
            None => false,
        };
        self.right.set(if is_wanted {
            right.saturating_add(1)
        } else {
            usize::MAX
        });
    }
}

/// Serves one connection with a drive in memory, and returns how many lines its log has. They must
/// begin as `wanted` says.
fn lines_of<C: Clock>(
    clock: &C,
    alloc: Global,
    listener: &Listener,
    idle: Option<Duration>,
    wanted: &'static [&'static str],
) -> Result<usize, AllocError> {
    let mut server = MemoryServer::new(alloc, 1024)?;
    let right = Cell::new(0);
    let log = Starts {
        wanted,
        right: &right,
    };
    serve_connections(&mut server, Connections::new(clock, listener, 1, idle, log));
    Ok(right.get())
}

/// The lines for a connection over a Unix socket.
static AT_A_PATH: [&str; 2] = [
    "connection 1: accepted at descriptor ",
    "connection 1: ended: end",
];

#[test]
fn a_connection_over_a_unix_socket(rt: HostRuntime) -> io::Result<()> {
    let listener = Listener::Unix(UnixListener::bind(&rt, "listening.socket")?);
    let mut stream = UnixStream::connect(&rt, "listening.socket")?;
    stream.write_all(SENT)?;
    stream.shutdown(Shutdown::Write)?;
    assert!(rt; lines_of(&rt, rt.alloc(), &listener, None, &AT_A_PATH)? == 2);
    assert!(rt; hears(&mut stream));
    Ok(())
}

/// The lines for a silent connection.
static SILENT: [&str; 2] = [
    "connection 1: accepted from 127.0.0.1:",
    "connection 1: ended: idle",
];

/// The client sends nothing, so the server waits for the whole limit, however long that is.
#[test]
fn a_silent_connection_is_ended(rt: HostRuntime) -> io::Result<()> {
    let listener = TcpListener::bind(&rt, "127.0.0.1:0")?;
    let mut stream = TcpStream::connect(&rt, listener.local_addr()?)?;
    let listener = Listener::Tcp(listener);
    let idle = Some(Duration::from_millis(1));
    assert!(rt; lines_of(&rt, rt.alloc(), &listener, idle, &SILENT)? == 2);
    assert!(rt; matches!(stream.read(&mut [0; 1]), Ok(0)));
    Ok(())
}
