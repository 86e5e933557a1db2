//! A listener for connections.

use crate::path_of;
use crate::stream::Stream;
use std::fmt::{self, Display, Formatter};
use std::fs::{self, File, Files, TryLockError};
use std::io::{self, ErrorKind};
use std::net::{Net, SocketAddr, TcpListener, TcpStream};
use std::os::fd::{AsRawFd, RawFd};
use std::os::unix::fs::FileTypeExt;
use std::os::unix::net::{UnixListener, UnixStream};
use std::path::Path;
use std::rt::Clock;
use std::thread;
use std::time::Duration;

const TRIES: u32 = 10;

/// Milliseconds between two tries of a lock.
const PAUSE: u64 = 100;

const NO_SOCKET: &str = "a file that is no socket is there";

/// A listener over TCP or a Unix socket.
#[derive(Drop)]
pub enum Listener {
    Tcp(TcpListener),
    Unix(UnixListener),
}

/// The far end of an accepted connection, for a log line.
#[derive(Clone, Copy)]
pub enum Caller {
    /// A host and a port, printed as `from 127.0.0.1:50470`.
    Host(SocketAddr),
    /// A process of this machine, printed as `at descriptor 4`. This is the server's end: `ss -xp`
    /// shows both.
    Local(RawFd),
}

impl Display for Caller {
    fn fmt<W: fmt::Write>(&self, f: &mut Formatter<W>) -> fmt::Result {
        match self {
            Caller::Host(address) => write!(f, "from {address}"),
            Caller::Local(descriptor) => write!(f, "at descriptor {descriptor}"),
        }
    }
}

impl Listener {
    /// Makes a listener at an address. At a path, the system makes a socket file, of mode 0777
    /// without the bits of the umask, which stays after the listener. Only a socket file at which
    /// nobody listens is replaced: no other file, no link. A process that may write to the folder
    /// can change what is there in between.
    ///
    /// The call waits up to a second for the advisory lock of the folder (flock(2)), so that one of
    /// two servers that start at one path fails.
    ///
    /// Fails with the system's error: `AddrInUse` if something at the path is not replaced (the
    /// text says if that is no socket), `WouldBlock` if another process has the lock.
    pub fn bind<R>(rt: &R, address: &str) -> io::Result<Listener>
    where
        R: Files<File = File> + Net<Listener = TcpListener, Stream = TcpStream> + Clock,
    {
        match path_of(address) {
            Some(path) => Ok(Listener::Unix(bind_path(rt, path)?)),
            None => Ok(Listener::Tcp(TcpListener::bind(rt, address)?)),
        }
    }

    /// Waits for the next connection. Fails with the system's error.
    pub fn accept(&self) -> io::Result<(Stream<TcpStream>, Caller)> {
        match self {
            Listener::Tcp(listener) => {
                let (stream, address) = listener.accept()?;
                Ok((Stream::Tcp(stream), Caller::Host(address)))
            }
            Listener::Unix(listener) => {
                let (stream, _) = listener.accept()?;
                let caller = Caller::Local(stream.as_raw_fd());
                Ok((Stream::Unix(stream), caller))
            }
        }
    }

    /// Returns the host and the port, or `None` at a path. Fails with the system's error.
    pub fn local_addr(&self) -> io::Result<Option<SocketAddr>> {
        match self {
            Listener::Tcp(listener) => Ok(Some(listener.local_addr()?)),
            Listener::Unix(_) => Ok(None),
        }
    }
}

/// The folder's lock keeps another start from taking the new file for one that was left.
fn bind_path<R: Files<File = File> + Net + Clock>(rt: &R, path: &str) -> io::Result<UnixListener> {
    let _folder = locked_folder(rt, path)?;
    match UnixListener::bind(rt, path) {
        Err(why) if why.kind() == ErrorKind::AddrInUse => {
            remove_left(rt, path, why)?;
            UnixListener::bind(rt, path)
        }
        bound => bound,
    }
}

fn locked_folder<R: Files<File = File> + Clock>(rt: &R, path: &str) -> io::Result<Option<File>> {
    let Some(folder) = Path::new(path).parent() else {
        return Ok(None);
    };
    if !fs::metadata(rt, folder.as_str())?.is_dir() {
        return Ok(None);
    }
    let folder = File::open(rt, folder.as_str())?;
    lock(rt, &folder)?;
    Ok(Some(folder))
}

fn lock<R: Clock>(rt: &R, folder: &File) -> io::Result<()> {
    for _ in 0..TRIES {
        match folder.try_lock() {
            Ok(()) => return Ok(()),
            Err(TryLockError::WouldBlock) => thread::sleep(rt, Duration::from_millis(PAUSE)),
            Err(TryLockError::Error(why)) => return Err(why),
        }
    }
    Err(io::Error::new(
        ErrorKind::WouldBlock,
        "another process has the lock of its folder",
    ))
}

/// Removes a socket file at which nobody listens, or fails.
fn remove_left<R: Files + Net>(rt: &R, path: &str, why: io::Error) -> io::Result<()> {
    match fs::symlink_metadata(rt, path) {
        Ok(found) if !found.file_type().is_socket() => {
            Err(io::Error::new(ErrorKind::AddrInUse, NO_SOCKET))
        }
        Ok(_) if is_refused(rt, path) => fs::remove_file(rt, path),
        _ => Err(why),
    }
}

fn is_refused<R: Net>(rt: &R, path: &str) -> bool {
    match UnixStream::connect(rt, path) {
        Err(why) => why.kind() == ErrorKind::ConnectionRefused,
        Ok(_) => false,
    }
}
