//! Advisory locks, which belong to the handle that took them.

use crate::FolderSystem;
use std::fs::{File, TryLockError};
use std::io::{self, ErrorKind};
use std::thread;
use std::time::{Duration, Instant};

const WAIT_MILLIS: u64 = 1_000;

const PAUSE_MILLIS: u64 = 5;

const PAUSES: u64 = WAIT_MILLIS / PAUSE_MILLIS;

/// Takes the lock of the file. Fails with `WouldBlock` if another handle has it.
pub(super) fn take_lock(file: &File) -> io::Result<()> {
    match file.try_lock() {
        Ok(()) => Ok(()),
        Err(TryLockError::WouldBlock) => {
            Err(io::Error::new(ErrorKind::WouldBlock, "another has the lock"))
        }
        Err(TryLockError::Error(error)) => Err(error),
    }
}

/// Like `take_lock`, but retries for about a second while another handle has it.
pub(super) fn wait_for_lock<R: FolderSystem>(rt: &R, folder: &File) -> io::Result<()> {
    let began = Instant::now(rt)?;
    for _ in 0..PAUSES {
        match take_lock(folder) {
            Err(error) if error.kind() == ErrorKind::WouldBlock && !is_over(rt, began)? => {
                thread::sleep(rt, Duration::from_millis(PAUSE_MILLIS));
            }
            taken => return taken,
        }
    }
    take_lock(folder)
}

fn is_over<R: FolderSystem>(rt: &R, began: Instant) -> io::Result<bool> {
    Ok(began.elapsed(rt)? >= Duration::from_millis(WAIT_MILLIS))
}
