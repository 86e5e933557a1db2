//! The lock of a file that is replaced: an empty file beside it.

use crate::open_file::{create_new, found_as, found_at, remove_own, try_lock};
use std::alloc::Global;
use std::fs::{self, File, OpenOptions};
use std::io::{self, ErrorKind};
use std::path::Path;
use std::rt::Files;

const NOT_LEFT: &str = "its .new is not one that rdump left: it is not touched";

const LOST: &str = "its .new was taken away or written: another run may have replaced it";

/// A lock that this run has.
///
/// If this is dropped, the lock is removed and then unlocked. It stays if it has got bytes, or if
/// another file has its name by now.
pub(crate) struct LockFile<'a, R: Files<File = File>> {
    rt: &'a R,
    path: String,
    file: File,
}

impl<R: Files<File = File>> Drop for LockFile<'_, R> {
    fn drop(self) {
        let LockFile { rt, path, file } = self;
        if is_ours(rt, path.as_str(), &file).unwrap_or(false) {
            let _ = fs::remove_file(rt, path.as_str());
        }
    }
}

impl<'a, R: Files<File = File>> LockFile<'a, R> {
    pub(crate) fn try_take(
        rt: &'a R,
        alloc: Global,
        named: Path<'_>,
        mode: u32,
    ) -> io::Result<Option<Self>> {
        let path = beside(alloc, named)?;
        match try_lock_at(rt, path.as_str(), mode) {
            Ok(Some(file)) => Ok(Some(LockFile { rt, path, file })),
            Ok(None) => Ok(None),
            Err(error) => Err(of_new(alloc, error)),
        }
    }

    pub(crate) fn system(&self) -> &'a R {
        self.rt
    }

    /// Fails if this run has lost the lock: whoever takes the name of the lock away takes the lock.
    pub(crate) fn check(&self) -> io::Result<()> {
        if is_ours(self.rt, self.path.as_str(), &self.file)? {
            return Ok(());
        }
        Err(io::Error::new(ErrorKind::Other, LOST))
    }
}

pub(crate) fn beside(alloc: Global, named: Path<'_>) -> io::Result<String> {
    let named = named.as_str();
    Ok(format!(in alloc; "{named}.new")?)
}

pub(crate) fn of_new(alloc: Global, error: io::Error) -> io::Error {
    if error.raw_os_error().is_none() {
        return error;
    }
    match format!(in alloc; "its .new: {error}") {
        Ok(words) => io::Error::new(error.kind(), words.as_str()),
        Err(refused) => refused.into(),
    }
}

/// Returns none if another run has the lock. A lock that was made here is removed if it cannot be
/// locked.
fn try_lock_at<R: Files<File = File>>(rt: &R, path: &str, mode: u32) -> io::Result<Option<File>> {
    let (file, is_made) = match create_new(rt, path, mode) {
        Ok(file) => (file, true),
        Err(error) if error.kind() == ErrorKind::AlreadyExists => match open_lock(rt, path)? {
            Some(file) => (file, false),
            None => return Ok(None),
        },
        Err(error) => return Err(error),
    };
    let locked = is_locked(rt, path, &file);
    if is_made && locked.is_err() {
        let _ = remove_own(rt, path, &file);
    }
    Ok(locked?.then_some(file))
}

fn is_locked<R: Files<File = File>>(rt: &R, path: &str, file: &File) -> io::Result<bool> {
    Ok(try_lock(file)? && is_ours(rt, path, file)?)
}

/// Opens the lock for writing too if that is permitted: a lock over a network requires that.
fn open_lock<R: Files<File = File>>(rt: &R, path: &str) -> io::Result<Option<File>> {
    let Some(found) = found_at(rt, path)? else {
        return Ok(None);
    };
    if !found.is_file() {
        return Err(io::Error::new(ErrorKind::AlreadyExists, "its .new is no plain file"));
    }
    if found.len() > 0 {
        return Err(io::Error::new(ErrorKind::AlreadyExists, NOT_LEFT));
    }
    let opened = match OpenOptions::new().read(true).write(true).open(rt, path) {
        Err(error) if error.kind() == ErrorKind::PermissionDenied => File::open(rt, path),
        opened => opened,
    };
    match opened {
        Err(error) if error.kind() == ErrorKind::NotFound => Ok(None),
        opened => Ok(Some(opened?)),
    }
}

fn is_ours<R: Files<File = File>>(rt: &R, path: &str, file: &File) -> io::Result<bool> {
    match found_as(rt, path, file)? {
        Some(found) => Ok(found.is_file() && found.len() == 0),
        None => Ok(false),
    }
}
