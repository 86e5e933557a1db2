//! Streams that record whether a read or a write waited for too long.

use std::cell::Cell;
use std::io::{self, ErrorKind, Read, Write};

/// A stream that records in a cell whether one of its calls failed with `ErrorKind::TimedOut`.
#[derive(Drop)]
pub(crate) struct IdleWatch<'w, T> {
    inner: T,
    is_idle: &'w Cell<bool>,
}

impl<'w, T> IdleWatch<'w, T> {
    /// If a call of `inner` waited for too long, `is_idle` becomes true.
    pub(crate) fn new(inner: T, is_idle: &'w Cell<bool>) -> Self {
        IdleWatch { inner, is_idle }
    }

    /// Records whether a call with this result waited for longer than the limit of the stream.
    /// ETIMEDOUT is no such error: the system gave the connection up.
    fn record(&self, found: &io::Result<usize>) {
        if let Err(why) = found
            && why.kind() == ErrorKind::TimedOut
            && why.raw_os_error().is_none()
        {
            self.is_idle.set(true);
        }
    }
}

impl<T: Read> Read for IdleWatch<'_, T> {
    fn read(&mut self, buf: &mut [u8]) -> io::Result<usize> {
        let found = self.inner.read(buf);
        self.record(&found);
        found
    }
}

impl<T: Write> Write for IdleWatch<'_, T> {
    fn write(&mut self, buf: &[u8]) -> io::Result<usize> {
        let found = self.inner.write(buf);
        self.record(&found);
        found
    }

    fn flush(&mut self) -> io::Result<()> {
        self.inner.flush()
    }
}
