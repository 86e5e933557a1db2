//! A connection.
ghost use Rattle.std.specs.Prelude.{◌≡◌, IfOk, Ok};

use crate::path_of;
use std::io::{self, ErrorKind, Read, Write};
use std::net::{Net, OpenStream, TcpStream, ToSocketAddrs};
use std::os::unix::net::UnixStream;
use std::time::Duration;

/// A connection over TCP or a Unix socket. A call that a signal interrupted is made again. One that
/// waited for longer than `make_ready` allows fails with `TimedOut`.
#[derive(Drop)]
pub enum Stream<S> {
    Tcp(S),
    Unix(UnixStream),
}

/// Connects to the server at an address, and makes the connection ready with `wait`.
///
/// `wait` also limits how long each address of a host may take to answer (then `TimedOut`), but not
/// the search for these addresses or the connection to a Unix socket. Fails with the system's
/// error.
pub fn connect<R: Net>(
    net: &R,
    address: &str,
    wait: Option<Duration>,
) -> io::Result<Stream<R::Stream>> {
    let stream = match path_of(address) {
        Some(path) => Stream::Unix(UnixStream::connect(net, path)?),
        None => Stream::Tcp(connect_to_host(net, address, wait)?),
    };
    stream.make_ready(wait)?;
    Ok(stream)
}

fn connect_to_host<R: Net>(
    net: &R,
    address: &str,
    wait: Option<Duration>,
) -> io::Result<R::Stream> {
    match wait {
        Some(wait) => connect_within(net, address, wait),
        None => TcpStream::connect(net, address),
    }
}

fn connect_within<R: Net>(net: &R, address: &str, wait: Duration) -> io::Result<R::Stream> {
    let mut last = io::Error::from(ErrorKind::AddrNotAvailable);
    for place in address.to_socket_addrs(net)? {
        match net.connect_timeout(place, wait) {
            Ok(stream) => return Ok(stream),
            Err(why) => last = why,
        }
    }
    Err(last)
}

impl<S: OpenStream> Stream<S> {
    /// Sets `wait` as the timeout of each read and write of all handles; None sets no limit. Sets
    /// TCP_NODELAY over TCP. Fails with the system's error, and if `wait` is zero.
    pub fn make_ready(&self, wait: Option<Duration>) -> io::Result<()> {
        match self {
            Stream::Tcp(stream) => {
                stream.set_nodelay(true)?;
                if wait.is_some() {
                    stream.set_read_timeout(wait)?;
                    stream.set_write_timeout(wait)?;
                }
            }
            Stream::Unix(stream) => {
                if wait.is_some() {
                    stream.set_read_timeout(wait)?;
                    stream.set_write_timeout(wait)?;
                }
            }
        }
        Ok(())
    }

    /// Returns another handle. The last one that is dropped closes the connection.
    pub fn try_clone(&self) -> io::Result<Stream<S>> {
        match self {
            Stream::Tcp(stream) => Ok(Stream::Tcp(stream.try_clone()?)),
            Stream::Unix(stream) => Ok(Stream::Unix(stream.try_clone()?)),
        }
    }
}

/// `WouldBlock` means that the call waited for too long.
fn timed(found: io::Result<usize>) -> io::Result<usize>
    ensures { IfOk result (λ count. found ≡ Ok count) }
{
    match found {
        Err(why) if why.kind() == ErrorKind::WouldBlock => Err(ErrorKind::TimedOut.into()),
        found => found,
    }
}

/// Stopping and continuing a process interrupts its calls with a limit of time, even if it handles
/// no signal (signal(7)).
fn is_interrupted(why: &io::Error) -> bool {
    why.kind() == ErrorKind::Interrupted
}

impl<S: Read> Read for Stream<S> {
    fn read(&mut self, buf: &mut [u8]) -> io::Result<usize> {
        for _ in 0..u64::MAX {
            let found = match self {
                Stream::Tcp(stream) => stream.read(buf),
                Stream::Unix(stream) => stream.read(buf),
            };
            match found {
                Err(why) if is_interrupted(&why) => {}
                found => return timed(found),
            }
        }
        Err(ErrorKind::Interrupted.into())
    }
}

impl<S: Write> Write for Stream<S> {
    fn write(&mut self, buf: &[u8]) -> io::Result<usize> {
        for _ in 0..u64::MAX {
            let found = match self {
                Stream::Tcp(stream) => stream.write(buf),
                Stream::Unix(stream) => stream.write(buf),
            };
            match found {
                Err(why) if is_interrupted(&why) => {}
                found => return timed(found),
            }
        }
        Err(ErrorKind::Interrupted.into())
    }

    fn flush(&mut self) -> io::Result<()> {
        Ok(())
    }
}
