//! The log of drives in folders, in lines.

/// Receives lines about reels in folders.
pub trait Log {
    /// Logs a line, which must not contain a line feed. The contract promises nothing: a line that
    /// cannot be written is dropped.
    fn note(&self, line: &str);

    /// Like `note`, for a line that describes a failure. A log may mark such lines.
    fn warn(&self, line: &str) {
        self.note(line);
    }
}

/// A log that keeps nothing.
#[derive(Clone, Copy)]
pub struct NoLog;

impl Log for NoLog {
    fn note(&self, _line: &str) {}
}
