//! Files whose names others may take meanwhile.

use std::alloc::Global;
use std::fs::{self, File, Metadata, OpenOptions, TryLockError};
use std::io::{self, ErrorKind};
use std::os::unix::fs::{MetadataExt, OpenOptionsExt};
use std::rt::Files;

pub(crate) const PRIVATE_MODE: u32 = 0o600;

const MOST_NAMES: u32 = 1000;

/// Fails with `AlreadyExists` if anything is there, a link too.
pub(crate) fn create_new<R: Files<File = File>>(rt: &R, path: &str, mode: u32) -> io::Result<File> {
    let mut options = OpenOptions::new();
    options.read(true).write(true).create_new(true).mode(mode);
    options.open(rt, path)
}

/// Creates a file named `before` and the first free number from `first` on. Returns none if 1000
/// are taken.
pub(crate) fn create_numbered<R: Files<File = File>>(
    rt: &R,
    alloc: Global,
    before: &str,
    first: u32,
    mode: u32,
) -> io::Result<Option<(String, File)>> {
    for number in first..first.saturating_add(MOST_NAMES) {
        let path = format!(in alloc; "{before}{number}")?;
        match create_new(rt, path.as_str(), mode) {
            Ok(file) => return Ok(Some((path, file))),
            Err(error) if error.kind() == ErrorKind::AlreadyExists => {}
            Err(error) => return Err(error),
        }
    }
    Ok(None)
}

pub(crate) fn try_lock(file: &File) -> io::Result<bool> {
    match file.try_lock() {
        Ok(()) => Ok(true),
        Err(TryLockError::WouldBlock) => Ok(false),
        Err(TryLockError::Error(error)) => Err(error),
    }
}

/// Returns the metadata of what is at this path, of a link itself, or none if nothing is there.
pub(crate) fn found_at<R: Files<File = File>>(rt: &R, path: &str) -> io::Result<Option<Metadata>> {
    match fs::symlink_metadata(rt, path) {
        Ok(found) => Ok(Some(found)),
        Err(error) if error.kind() == ErrorKind::NotFound => Ok(None),
        Err(error) => Err(error),
    }
}

pub(crate) fn is_one(one: &Metadata, other: &Metadata) -> bool {
    one.dev() == other.dev() && one.ino() == other.ino()
}

/// Returns the metadata of this file, if this path still names it.
pub(crate) fn found_as<R: Files<File = File>>(
    rt: &R,
    path: &str,
    file: &File,
) -> io::Result<Option<Metadata>> {
    let opened = file.metadata()?;
    match found_at(rt, path)? {
        Some(found) if is_one(&found, &opened) => Ok(Some(found)),
        _ => Ok(None),
    }
}

pub(crate) fn remove_own<R: Files<File = File>>(
    rt: &R,
    path: &str,
    file: &File,
) -> io::Result<bool> {
    let is_own = found_as(rt, path, file)?.is_some();
    if is_own {
        fs::remove_file(rt, path)?;
    }
    Ok(is_own)
}

pub(crate) fn taken() -> io::Error {
    io::Error::new(ErrorKind::WouldBlock, "another run has it")
}

pub(crate) fn exchanged() -> io::Error {
    let error = "another file took its place while it was opened";
    io::Error::new(ErrorKind::InvalidInput, error)
}
