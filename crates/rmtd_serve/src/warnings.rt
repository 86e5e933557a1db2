//! A log of warnings on standard error, for a server whose replies are on standard output.

use crate::error_log::ErrorLog;
use crate::line_start::LineStart;
use reel_files::{FolderSystem, Log};
use std::fs;
use std::io::{self, ErrorKind};
use std::path::PathBuf;
use std::rt::Clock;

const OUTPUT: &str = "/proc/self/fd/1";

const ERROR: &str = "/proc/self/fd/2";

/// A log of failures alone. If standard error and standard output are the same stream, as with
/// inetd, it logs nothing, because the lines would be mixed with the replies. It also logs nothing
/// if the system does not report what the streams are.
#[derive(Drop)]
pub(crate) struct Warnings<R> {
    log: Option<ErrorLog<R>>,
}

impl<R: FolderSystem> Warnings<R> {
    /// Makes the log. It fails only if an allocation fails.
    pub(crate) fn new(rt: R, start: LineStart) -> io::Result<Warnings<R>> {
        if !is_apart(&rt)? {
            return Ok(Warnings { log: None });
        }
        Ok(Warnings {
            log: Some(ErrorLog {
                rt,
                seat: None,
                start,
            }),
        })
    }
}

impl<R: Eprint + Clock> Log for Warnings<R> {
    fn note(&self, _line: &str) {}

    fn warn(&self, line: &str) {
        if let Some(log) = &self.log {
            log.note(line);
        }
    }
}

/// Whether the system reports that standard error is another stream than standard output.
fn is_apart<R: FolderSystem>(rt: &R) -> io::Result<bool> {
    match (end_of(rt, OUTPUT)?, end_of(rt, ERROR)?) {
        (Some(output), Some(error)) => Ok(output != error),
        _ => Ok(false),
    }
}

/// Returns the target of a link, or None if the system does not report it. It fails only if an
/// allocation fails.
fn end_of<R: FolderSystem>(rt: &R, link: &str) -> io::Result<Option<PathBuf>> {
    match fs::read_link(rt, link) {
        Ok(end) => Ok(Some(end)),
        Err(why) if why.kind() == ErrorKind::OutOfMemory => Err(why),
        Err(_) => Ok(None),
    }
}
