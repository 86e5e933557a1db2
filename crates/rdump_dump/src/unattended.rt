//! Answers the questions of a dump while nobody is there.

use dump_client::AttemptFault;
use rdump_net::{Retries, Setback};
use rdump_system::ClientSystem;
use std::thread;
use std::time::Duration;

/// Tries a volume again while waiting can help, at most so many times in a row, and waits before
/// each.
#[derive(Drop)]
pub(crate) struct Unattended {
    retries: Retries,
    pause: Duration,
}

impl Unattended {
    pub(crate) fn new(times: u32, pause: Duration) -> Self {
        Unattended {
            retries: Retries::new(times),
            pause,
        }
    }

    /// Notes that a volume was counted: all tries are left again.
    pub(crate) fn counted(&mut self) {
        self.retries.counted();
    }

    /// Returns whether to try again after this setback. Says so on standard error and waits first,
    /// if so.
    pub(crate) fn waits<R: ClientSystem>(&mut self, rt: &R, setback: Option<Setback>) -> bool {
        let setback = setback.unwrap_or(Setback::Attempt(AttemptFault::OutOfMemory));
        if !self.retries.take(setback) {
            return false;
        }
        let seconds = self.pause.as_secs();
        let _ = eprintln!(rt; "rdump: it is tried again in {seconds} seconds");
        thread::sleep(rt, self.pause);
        true
    }
}
