//! Locks, names and folders of files.
use std::fs::{File, Metadata, TryLockError};
use std::io::{self, ErrorKind};
use std::os::unix::fs::MetadataExt;
use std::rt::Files;

/// How many times to try to open a file while others keep removing it before it is locked.
pub(crate) const MOST_TRIES: u32 = 100;

/// Takes the advisory lock of a file, which is released when the file is closed. If the file system
/// has no such locks, the file is written without one.
///
/// Fails with `WouldBlock` if another run has the lock.
pub(crate) fn lock(file: &File) -> io::Result<()> {
    match file.try_lock() {
        Err(TryLockError::WouldBlock) => Err(taken()),
        _ => Ok(()),
    }
}

pub(crate) fn taken() -> io::Error {
    io::Error::new(ErrorKind::WouldBlock, "another run writes it")
}

/// Whether what was found at a path is this file. False if nothing was found there.
pub(crate) fn is_file(found: io::Result<Metadata>, file: &File) -> io::Result<bool> {
    let opened = file.metadata()?;
    match found {
        Ok(found) => Ok(found.dev() == opened.dev() && found.ino() == opened.ino()),
        Err(error) if error.kind() == ErrorKind::NotFound => Ok(false),
        Err(error) => Err(error),
    }
}

/// Waits until the names in a folder are on the disk. A file system that cannot sync folders is not
/// waited for.
pub(crate) fn sync_folder<R: Files<File = File>>(rt: &R, folder: &str) -> io::Result<()> {
    match File::open(rt, folder).and_then(|it| it.sync_all()) {
        Err(error) if error.kind() != ErrorKind::InvalidInput => {
            Err(io::Error::new(error.kind(), "its folder could not be synced"))
        }
        _ => Ok(()),
    }
}
