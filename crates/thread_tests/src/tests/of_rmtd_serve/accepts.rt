//! Accepts that fail. The next is made after a wait, and a listener that is broken for good ends
//! the serving.

use super::table::serve_pairs;
use rmtd_serve::{
    Connections, ErrorLog, ExitStatus, Incoming, LineStart, MemoryServer, serve_connections,
};
use sockets::Listener;
use std::alloc::{AllocError, Global};
use std::cell::Cell;
use std::fmt::Display;
use std::fs;
use std::io::{self, ErrorKind};
use std::net::{SocketAddr, TcpListener, TcpStream};
use std::os::fd::OwnedFd;
use std::rt::Clock;
use std::test::Fail;
use std::time::Duration;

/// A standard error that counts its lines, with a clock that fails.
#[derive(Drop)]
struct Lines {
    count: Cell<u64>,
}

impl Eprint for Lines {
    fn eprint<D: Display + Drop>(&self, _value: D) -> io::Result<()> {
        Err(ErrorKind::Unsupported.into())
    }

    fn eprintln<D: Display + Drop>(&self, _value: D) -> io::Result<()> {
        self.count.set(self.count.get().saturating_add(1));
        Ok(())
    }
}

impl Clock for Lines {
    fn monotonic(&self) -> io::Result<Duration> {
        Err(ErrorKind::Unsupported.into())
    }

    fn since_1970(&self) -> io::Result<Duration> {
        Err(ErrorKind::Unsupported.into())
    }
}

/// A clock that does not wait, and adds up the milliseconds of the waits. At each third wait a
/// client connects, if there is an address.
#[derive(Drop)]
struct Waits<'a> {
    rt: &'a HostRuntime,
    address: Option<SocketAddr>,
    count: Cell<u64>,
    time: Cell<u128>,
}

impl<'a> Waits<'a> {
    fn new(rt: &'a HostRuntime, address: Option<SocketAddr>) -> Self {
        Waits {
            rt,
            address,
            count: Cell::new(0),
            time: Cell::new(0),
        }
    }
}

impl Clock for Waits<'_> {
    fn monotonic(&self) -> io::Result<Duration> {
        Err(ErrorKind::Unsupported.into())
    }

    fn since_1970(&self) -> io::Result<Duration> {
        Err(ErrorKind::Unsupported.into())
    }

    fn sleep(&self, duration: Duration) {
        let count = self.count.get().saturating_add(1);
        self.count.set(count);
        self.time
            .set(self.time.get().saturating_add(duration.as_millis()));
        if let Some(address) = self.address
            && count % 3 == 0
        {
            let _ = TcpStream::connect(self.rt, address);
        }
    }
}

/// Whether exactly two clients are accepted, each after three failed accepts and three waits of 100
/// milliseconds. The log has one line for the failures before each client, and one for each client.
fn two_come(clock: &Waits<'_>, listener: &Listener) -> bool {
    let lines = Lines {
        count: Cell::new(0),
    };
    let log = ErrorLog {
        rt: &lines,
        seat: None,
        start: LineStart::Time,
    };
    let mut connections = Connections::new(clock, listener, 2, None, log);
    let first = connections.next().is_some() && connections.left == 1 && clock.time.get() == 300;
    let second = connections.next().is_some() && connections.left == 0 && clock.time.get() == 600;
    let last = connections.next().is_none() && connections.status() == ExitStatus::Ended;
    first && second && last && lines.count.get() == 4
}

#[test]
fn a_failed_accept_is_made_again_after_a_wait(rt: HostRuntime) -> Result<(), Fail> {
    let listener = TcpListener::bind(&rt, "127.0.0.1:0")?;
    listener.set_nonblocking(true)?;
    let clock = Waits::new(&rt, Some(listener.local_addr()?));
    assert!(rt; two_come(&clock, &Listener::Tcp(listener)));
    Ok(())
}

/// Makes a listener that is not a socket. The system reports error 88 for it.
fn no_listener(rt: &HostRuntime) -> Result<Listener, Fail> {
    let file = OwnedFd::from(fs::open(rt, "/")?);
    Ok(Listener::Tcp(TcpListener::from(file)))
}

/// Whether a listener that is not a socket ends at once, with one line in the log, no wait, and the
/// status `Failed`.
fn none_come(clock: &Waits<'_>, listener: &Listener) -> bool {
    let lines = Lines {
        count: Cell::new(0),
    };
    let log = ErrorLog {
        rt: &lines,
        seat: None,
        start: LineStart::Time,
    };
    let mut connections = Connections::new(clock, listener, 2, None, log);
    let none = connections.next().is_none() && connections.left == 2;
    let told = connections.broken == Some(88) && connections.status() == ExitStatus::Failed;
    none && told && clock.count.get() == 0 && lines.count.get() == 1
}

#[test]
fn a_listener_that_is_none_has_no_connections(rt: HostRuntime) -> Result<(), Fail> {
    let listener = no_listener(&rt)?;
    let clock = Waits::new(&rt, None);
    assert!(rt; none_come(&clock, &listener));
    Ok(())
}

/// Returns the status of a server in memory with this listener.
fn status_in_memory(
    alloc: Global,
    clock: &Waits<'_>,
    listener: &Listener,
) -> Result<ExitStatus, AllocError> {
    let mut server = MemoryServer::new(alloc, 1024)?;
    let lines = Lines {
        count: Cell::new(0),
    };
    let log = ErrorLog {
        rt: &lines,
        seat: None,
        start: LineStart::Time,
    };
    let connections = Connections::new(clock, listener, 2, None, log);
    Ok(serve_connections(&mut server, connections).status())
}

#[test]
fn a_server_in_memory_ends_with_its_listener(rt: HostRuntime) -> Result<(), Fail> {
    let listener = no_listener(&rt)?;
    let clock = Waits::new(&rt, None);
    assert!(rt; status_in_memory(rt.alloc(), &clock, &listener)? == ExitStatus::Failed);
    Ok(())
}

#[test]
fn a_server_of_threads_ends_with_its_listener(rt: HostRuntime) -> Result<(), Fail> {
    let listener = no_listener(&rt)?;
    let clock = Waits::new(&rt, None);
    let lines = Lines {
        count: Cell::new(0),
    };
    let log = ErrorLog {
        rt: &lines,
        seat: None,
        start: LineStart::Time,
    };
    let connections = Connections::new(&clock, &listener, 2, None, log);
    let connections = serve_pairs(&rt, rt.alloc(), connections)?;
    assert!(rt; connections.status() == ExitStatus::Failed);
    Ok(())
}
