//! Why `rdump ls` failed.
use catalog::CatalogFault;
use console::plain;
use dumpdates::DatesFault;
use linux_dates::ZonedLine;
use remote_tape::{FaultReport, TapeFault};
use std::alloc::AllocError;
use std::fmt::{self, Display, Formatter, Write};
use std::io::{self, ErrorKind};

/// Why `rdump ls` failed, or what it goes on without.
#[derive(Drop)]
pub(crate) enum ListFault<'a> {
    OutOfMemory,
    /// The system's error for the file or the folder at this path.
    System(&'a str, io::Error),
    /// The file or the folder at this path is of no use, for this reason.
    Unfit(&'a str, &'static str),
    /// The file at this path is not a catalog.
    NoCatalog(&'a str, CatalogFault),
    /// The file at this path is not a dumpdates file: its first fault, and the line at fault if it
    /// has a zone offset.
    NoDates(&'a str, DatesFault, Option<ZonedLine>),
    /// There is no session with a server.
    NoSession {
        to: &'a str,
        device: &'a str,
        /// The request that failed.
        fault: TapeFault,
        /// The system's error, if the connection failed with one.
        failure: Option<io::Error>,
    },
    /// Standard output could not be written.
    Unwritten,
    /// All that was named could be read, and there is no reel.
    NoReel,
}

impl From<AllocError> for ListFault<'_> {
    fn from(_: AllocError) -> Self {
        ListFault::OutOfMemory
    }
}

impl ListFault<'_> {
    /// Prints the fault on standard error; out of memory is printed on standard output. If it
    /// cannot be printed, the exit status is the same.
    pub(crate) fn print<R: Eprint + Print>(self, rt: &R) {
        let _ = match self {
            ListFault::OutOfMemory => println!(rt; "out of memory"),
            fault => eprintln!(rt; "rdump: {fault}"),
        };
    }
}

impl Display for ListFault<'_> {
    fn fmt<W: Write>(&self, f: &mut Formatter<W>) -> fmt::Result {
        match self {
            ListFault::OutOfMemory => f.write_str("out of memory"),
            ListFault::System(path, error) => {
                let path = plain(path);
                write!(f, "{path}: {error}")
            }
            ListFault::Unfit(path, why) => {
                let path = plain(path);
                write!(f, "{path}: {why}")
            }
            ListFault::NoCatalog(path, fault) => {
                let path = plain(path);
                write!(f, "{path}: it is no catalog: {fault}")
            }
            ListFault::NoDates(path, fault, zoned) => {
                let path = plain(path);
                write!(f, "{path}: {fault}")?;
                match zoned {
                    Some(line) => write!(f, "\nrdump: {path}: {line}"),
                    None => Ok(()),
                }
            }
            ListFault::NoSession {
                to,
                device,
                fault,
                failure,
            } => {
                let to = plain(to);
                let report = FaultReport {
                    fault: *fault,
                    device,
                    failure: failure.as_ref(),
                };
                write!(f, "{to}: {report}")
            }
            ListFault::Unwritten => f.write_str("standard output could not be written"),
            ListFault::NoReel => f.write_str("no reel was found"),
        }
    }
}

/// Turns an error of the system into a fault with this path.
pub(crate) fn at<V>(path: &str, found: io::Result<V>) -> Result<V, ListFault<'_>> {
    found.map_err(|error| {
        match error.kind() {
            ErrorKind::OutOfMemory => ListFault::OutOfMemory,
            _ => ListFault::System(path, error),
        }
    })
}

/// Prints a fault that `rdump ls` goes on after, and returns None for it. Fails if an allocation
/// failed.
pub(crate) fn go_on<R: Eprint + Print, V>(
    rt: &R,
    found: Result<V, ListFault<'_>>,
) -> Result<Option<V>, AllocError> {
    match found {
        Ok(found) => Ok(Some(found)),
        Err(ListFault::OutOfMemory) => Err(AllocError),
        Err(fault) => {
            fault.print(rt);
            Ok(None)
        }
    }
}
