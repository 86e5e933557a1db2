//! Shows how far a list of reels is.
use crate::ListSystem;
use console::{LiveLine, LiveText};
use std::fmt::Write as _;
use std::io::Write;

const MIB: u64 = 1024 * 1024;

/// A line on a terminal that shows which reel is read, and how much was read. It is updated at most
/// ten times a second.
#[derive(Drop)]
pub struct ListProgress<'a, R: ListSystem, W: Write> {
    line: LiveLine<'a, R, W>,
    reels: u64,
    bytes: u64,
}

impl<'a, R: ListSystem, W: Write> ListProgress<'a, R, W> {
    /// Makes a line at this terminal, if there is one, with nothing shown yet.
    pub fn at(clock: &'a R, terminal: Option<W>) -> Option<Self> {
        match terminal {
            Some(terminal) => Some(ListProgress {
                line: LiveLine::new(clock, terminal),
                reels: 0,
                bytes: 0,
            }),
            None => None,
        }
    }

    /// Begins the next reel.
    pub fn begin_reel(&mut self) {
        self.reels = self.reels.saturating_add(1);
    }

    /// Shows the line if it is due, and then counts the bytes that were read.
    pub(crate) fn add(&mut self, bytes: usize) {
        if let Some(rate) = self.line.due() {
            let (reels, mib) = (self.reels, self.bytes / MIB);
            let mut text = LiveText::new();
            let _ = write!(text, "reel {reels}, {mib} MiB, {rate}");
            self.line.print(&text);
        }
        self.line.add(bytes);
        self.bytes = self.bytes.saturating_add(bytes as u64);
    }

    /// Clears the line.
    pub fn clear(&mut self) {
        self.line.clear();
    }
}
