//! The beginning of a log line.

use crate::error_log::text_of;
use jiff::Timestamp;
use reel_files::FolderSystem;
use std::fmt::{self, Display, Formatter, Write};
use std::fs;
use std::io::{self, ErrorKind};
use std::os::unix::fs::MetadataExt;
use std::rt::{Clock, Env};

/// The variable in which systemd names the stream that leads to its journal, as `DEVICE:INODE`
/// (systemd.exec(5)).
const JOURNAL_STREAM: &str = "JOURNAL_STREAM";

/// The link to the file of standard error.
const ERROR: &str = "/proc/self/fd/2";

/// The greatest length in bytes of two numbers of 64 bits and a colon.
const STREAM_ROOM: usize = 41;

/// Whether a log line begins with the time.
#[derive(Clone, Copy, Debug, PartialEq, Eq)]
pub enum LineStart {
    /// It does: `2026-11-27T22:31:57Z rmtd: accept failed: ..`.
    Time,
    /// It does not: `rmtd: accept failed: ..`. The journal of systemd adds the time itself.
    Name,
}

impl LineStart {
    /// Returns `Name` if the environment says that standard error leads to systemd's journal. It
    /// fails only if an allocation fails.
    pub(crate) fn of<R: FolderSystem + Env>(rt: &R) -> io::Result<LineStart> {
        let mut room = [0; STREAM_ROOM];
        let Ok(count) = rt.var(JOURNAL_STREAM, room.as_mut_slice()) else {
            return Ok(LineStart::Time);
        };
        if is_error(rt, &room[..count])? {
            Ok(LineStart::Name)
        } else {
            Ok(LineStart::Time)
        }
    }

    /// Returns the time now, if lines begin with it, the clock can be read, and its year has four
    /// digits.
    pub(crate) fn time<C: Clock>(self, clock: &C) -> Option<Timestamp> {
        if self == LineStart::Name {
            return None;
        }
        let since = clock.since_1970().ok()?;
        Timestamp::from_second(i64::try_from(since.as_secs()).ok()?).ok()
    }
}

/// Whether `stream` is `DEVICE:INODE` of standard error, in decimal.
fn is_error<R: FolderSystem>(rt: &R, stream: &[u8]) -> io::Result<bool> {
    match fs::metadata(rt, ERROR) {
        Ok(found) => {
            let named = text_of(format_args!("{}:{}", found.dev(), found.ino()));
            Ok(named.as_str().as_bytes() == stream)
        }
        Err(why) if why.kind() == ErrorKind::OutOfMemory => Err(why),
        Err(_) => Ok(false),
    }
}

/// The part of a log line before its text.
#[derive(Clone, Copy)]
pub(crate) struct LineHead {
    pub(crate) time: Option<Timestamp>,
    pub(crate) seat: Option<usize>,
}

impl Display for LineHead {
    fn fmt<W: Write>(&self, f: &mut Formatter<W>) -> fmt::Result {
        if let Some(time) = self.time {
            write!(f, "{time} ")?;
        }
        f.write_str("rmtd: ")?;
        match self.seat {
            Some(seat) => write!(f, "seat {seat}: "),
            None => Ok(()),
        }
    }
}
