//! The system's limit on the size of a file. A write past it ends a server that does not ignore
//! SIGXFSZ.
ghost use Rattle.std.specs.Prelude.{◌≤◌, IfOk, length};

use crate::error_log::text_of;
use reel_files::{FolderSystem, Log};
use std::fmt::{self, Display, Formatter, Write};
use std::io::{self, ErrorKind, Read};
use std::{fs, str};

const LIMITS: &str = "/proc/self/limits";

/// The file with the signals that this process ignores.
const STATUS: &str = "/proc/self/status";

/// The bit of SIGXFSZ in a mask of signals.
const XFSZ: u64 = 1 << 24;

/// How many bytes of these files are read, at most.
const ROOM: usize = 4096;

/// Logs a line if a reel of this capacity can reach the limit and the signal is not ignored.
///
/// If the system reports no limit, it logs nothing. It fails only if an allocation fails.
pub(crate) fn log_limit<R: FolderSystem, L: Log>(rt: &R, log: &L, capacity: u64) -> io::Result<()> {
    let Some(limit) = limit_of(rt)? else {
        return Ok(());
    };
    if limit < capacity && is_fatal(rt)? {
        log.note(text_of(LimitLog { limit, capacity }).as_str());
    }
    Ok(())
}

#[derive(Clone, Copy)]
struct LimitLog {
    limit: u64,
    capacity: u64,
}

impl Display for LimitLog {
    fn fmt<W: Write>(&self, f: &mut Formatter<W>) -> fmt::Result {
        let LimitLog { limit, capacity } = self;
        write!(
            f,
            "a file may have {limit} bytes here and a reel {capacity}: "
        )?;
        f.write_str("a longer one ends the server by the signal SIGXFSZ; ")?;
        f.write_str(
            "if the server ignores that signal (trap '' XFSZ), the write is answered with E5",
        )
    }
}

/// Returns the greatest size of a file in bytes, if the system reports a limit.
fn limit_of<R: FolderSystem>(rt: &R) -> io::Result<Option<u64>> {
    let mut bytes = [0; ROOM];
    let count = read_start(rt, LIMITS, bytes.as_mut_slice())?;
    let limit = value_of(&bytes[..count], "Max file size");
    Ok(limit.and_then(|text| text.parse().ok()))
}

fn is_fatal<R: FolderSystem>(rt: &R) -> io::Result<bool> {
    let mut bytes = [0; ROOM];
    let count = read_start(rt, STATUS, bytes.as_mut_slice())?;
    let ignored = value_of(&bytes[..count], "SigIgn:");
    let ignored = ignored.and_then(|text| u64::from_str_radix(text, 16).ok());
    Ok(ignored.is_some_and(|signals| signals & XFSZ == 0))
}

/// Reads the first bytes of a file. Returns how many, or 0 if it cannot be opened or read. It fails
/// only if an allocation fails.
fn read_start<R: FolderSystem>(rt: &R, path: &str, into: &mut [u8]) -> io::Result<usize>
    ensures { IfOk result (λ n. n ≤ length into.new) }
{
    match fs::open(rt, path) {
        Ok(mut file) => Ok(file.read(into).unwrap_or(0)),
        Err(why) if why.kind() == ErrorKind::OutOfMemory => Err(why),
        Err(_) => Ok(0),
    }
}

fn value_of<'a>(bytes: &'a [u8], name: &str) -> Option<&'a str> {
    for line in str::from_utf8(bytes).ok()?.lines() {
        if let Some(rest) = line.strip_prefix(name) {
            return rest.split_whitespace().next();
        }
    }
    None
}
