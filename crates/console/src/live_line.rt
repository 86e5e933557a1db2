//! A line of progress.
use arrayvec::ArrayString;
use std::fmt::{self, Display, Formatter};
use std::io::Write;
use std::time::{Clock, Instant};

const BETWEEN_MILLIS: u128 = 100;

/// Clears a terminal's line (ECMA-48, EL).
pub const CLEAR: &[u8] = b"\r\x1b[K";

const KIB: u64 = 1024;

const MIB: u64 = 1024 * KIB;

/// A line of progress: at most 128 bytes.
pub type LiveText = ArrayString<128>;

/// Bytes a second, printed in KiB, or from 10 MiB on in MiB: `317 KiB/s`.
#[derive(Clone, Copy)]
pub struct Rate(u64);

impl Display for Rate {
    fn fmt<W: fmt::Write>(&self, f: &mut Formatter<W>) -> fmt::Result {
        if self.0 < 10 * MIB {
            write!(f, "{} KiB/s", self.0 / KIB)
        } else {
            write!(f, "{} MiB/s", self.0 / MIB)
        }
    }
}

/// A line on a terminal that shows progress, updated at most ten times a second. A write that fails
/// is ignored. If the clock cannot be read, nothing is shown.
#[derive(Drop)]
pub struct LiveLine<'a, R: Clock, W: Write> {
    clock: &'a R,
    terminal: W,
    began: Option<Instant>,
    bytes: u64,
    shown: Option<Instant>,
}

impl<'a, R: Clock, W: Write> LiveLine<'a, R, W> {
    /// Makes a line, and shows nothing yet.
    pub fn new(clock: &'a R, terminal: W) -> Self {
        LiveLine {
            clock,
            terminal,
            began: None,
            bytes: 0,
            shown: None,
        }
    }

    /// Restarts the rate at the next call of `due`.
    pub fn begin(&mut self) {
        self.began = None;
        self.bytes = 0;
    }

    /// Adds to the bytes from which the rate is computed.
    pub fn add(&mut self, bytes: usize) {
        self.bytes = self.bytes.saturating_add(bytes as u64);
    }

    /// Returns the rate since the first `due` after the last `begin`, if it is time to update the
    /// line.
    pub fn due(&mut self) -> Option<Rate> {
        let now = Instant::now(self.clock).ok()?;
        let began = self.began.unwrap_or(now);
        self.began = Some(began);
        if !self.is_due(now) {
            return None;
        }
        self.shown = Some(now);
        Some(self.rate(began, now))
    }

    /// Shows a text in place of the previous one.
    pub fn print(&mut self, text: &LiveText) {
        let mut line = ArrayString::<136>::new();
        line.push_str("\r");
        line.push_str(text);
        line.push_str("\x1b[K");
        let _ = self.terminal.write_all(line.as_bytes());
    }

    /// Clears the line, if it was shown.
    pub fn clear(&mut self) {
        if self.shown.take().is_some() {
            let _ = self.terminal.write_all(CLEAR);
        }
    }

    fn is_due(&self, now: Instant) -> bool {
        match self.shown {
            Some(shown) => now.duration_since(shown).as_millis() >= BETWEEN_MILLIS,
            None => true,
        }
    }

    fn rate(&self, began: Instant, now: Instant) -> Rate {
        let millis = now.duration_since(began).as_millis();
        let rate = u128::from(self.bytes) * 1000 / millis.max(1);
        Rate(u64::try_from(rate).unwrap_or(u64::MAX))
    }
}
