//! Streams that wait for one another, and pairs of them.

use std::io::{self, ErrorKind, Read, Write};
use std::sync::atomic::{AtomicU64, Ordering};
use std::thread;

/// How often a stream yields to other threads before it gives up.
const TURNS: u32 = 1_000_000;

/// Whether the count reaches `wanted`, while other threads run.
pub(crate) fn reaches(count: &AtomicU64, wanted: u64) -> bool {
    for _ in 0..TURNS {
        if count.load(Ordering::SeqCst) >= wanted {
            return true;
        }
        thread::yield_now();
    }
    false
}

/// A reader that gives `early` at once, and `late` when `sign` has reached `wanted`. If it does
/// not, the read fails.
#[derive(Drop)]
pub(crate) struct Gated<'a> {
    pub(crate) early: &'static [u8],
    pub(crate) late: &'static [u8],
    pub(crate) sign: &'a AtomicU64,
    pub(crate) wanted: u64,
}

impl Read for Gated<'_> {
    fn read(&mut self, buf: &mut [u8]) -> io::Result<usize> {
        if !self.early.is_empty() {
            return self.early.read(buf);
        }
        if self.late.is_empty() || reaches(self.sign, self.wanted) {
            return self.late.read(buf);
        }
        Err(ErrorKind::TimedOut.into())
    }
}

/// Counts for one or more sessions. Each short reply is one write.
#[derive(Drop)]
pub(crate) struct Counts {
    /// The replies that are not errors.
    pub(crate) done: AtomicU64,
    /// The error replies.
    pub(crate) errors: AtomicU64,
    /// The streams that were dropped.
    pub(crate) ended: AtomicU64,
}

impl Counts {
    pub(crate) fn new() -> Counts {
        Counts {
            done: AtomicU64::new(0),
            errors: AtomicU64::new(0),
            ended: AtomicU64::new(0),
        }
    }

    /// Returns the number of replies that are not errors, of error replies, and of dropped streams.
    pub(crate) fn all(&self) -> (u64, u64, u64) {
        (
            self.done.load(Ordering::SeqCst),
            self.errors.load(Ordering::SeqCst),
            self.ended.load(Ordering::SeqCst),
        )
    }
}

/// A writer that counts the replies.
pub(crate) struct Told<'a> {
    pub(crate) counts: &'a Counts,
}

impl Write for Told<'_> {
    fn write(&mut self, buf: &[u8]) -> io::Result<usize> {
        let kind = if buf.first() == Some(&b'A') {
            &self.counts.done
        } else {
            &self.counts.errors
        };
        kind.fetch_add(1, Ordering::SeqCst);
        Ok(buf.len())
    }

    fn flush(&mut self) -> io::Result<()> {
        Ok(())
    }
}

impl Drop for Told<'_> {
    fn drop(self) {
        let Self { counts } = self;
        counts.ended.fetch_add(1, Ordering::SeqCst);
    }
}
