//! The log of the server on standard error.

use crate::line_start::{LineHead, LineStart};
use arrayvec::ArrayString;
use reel_files::Log;
use std::fmt::{Display, Write};
use std::rt::Clock;

/// The most bytes of a text that `text_of` formats.
const TEXT_ROOM: usize = 255;

/// A log on standard error, of one seat or of the server.
///
/// A line begins with the time, unless `start` says otherwise, and then `rmtd: `, or for a seat
/// `rmtd: seat 3: `. A line with up to 980 bytes of its own is one write. A line that cannot be
/// written is dropped.
#[derive(Drop)]
pub struct ErrorLog<R> {
    /// The runtime, which prints and has the clock.
    pub rt: R,
    /// The number of the seat, or None for the server's own log.
    pub seat: Option<usize>,
    /// Whether a line begins with the time.
    pub start: LineStart,
}

impl<R: Eprint + Clock> Log for ErrorLog<R> {
    fn note(&self, line: &str) {
        let rt = &self.rt;
        let head = LineHead {
            time: self.start.time(rt),
            seat: self.seat,
        };
        let _ = eprintln!(rt; "{head}{line}");
    }
}

/// Formats a text without allocating. If it needs more than `TEXT_ROOM` bytes its end is left out.
pub(crate) fn text_of<D: Display + Drop>(what: D) -> ArrayString<TEXT_ROOM> {
    let mut text = ArrayString::new();
    let _ = write!(text, "{what}");
    text
}
