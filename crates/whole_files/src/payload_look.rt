//! Opens a payload, and checks whether it changed since.

use crate::open_file::{exchanged, is_one};
use std::fs::{self, File, Metadata};
use std::io;
use std::os::unix::fs::FileTypeExt;
use std::rt::Files;
use std::time::SystemTime;

/// Opens the file of a payload, and returns it with its metadata. Opening a pipe or a terminal may
/// wait for its other end.
///
/// Fails with `InvalidInput` if a regular file or a block device was exchanged for another file
/// before it was opened.
pub fn open_payload<R: Files<File = File>>(rt: &R, path: &str) -> io::Result<(File, Metadata)> {
    let looked = fs::metadata(rt, path)?;
    let file = File::open(rt, path)?;
    let found = file.metadata()?;
    let lasts = looked.is_file() || looked.file_type().is_block_device();
    if lasts && !is_one(&looked, &found) {
        return Err(exchanged());
    }
    Ok((file, found))
}

/// How a payload changed while it was dumped.
#[derive(Clone, Copy, Debug, PartialEq, Eq)]
pub enum PayloadChange {
    /// The length in bytes: before, and now.
    Length(u64, u64),
    /// The modification time.
    Time,
}

/// A payload that is a regular file, with its length and modification time when its dump began.
#[derive(Drop)]
pub struct PayloadLook {
    file: File,
    len: u64,
    modified: Option<SystemTime>,
}

impl PayloadLook {
    /// Records the length and the modification time in `found`, the metadata of the open payload.
    /// Returns none if it is not a regular file.
    pub fn new(file: &File, found: &Metadata) -> io::Result<Option<PayloadLook>> {
        if !found.is_file() {
            return Ok(None);
        }
        Ok(Some(PayloadLook {
            file: file.try_clone()?,
            len: found.len(),
            modified: found.modified().ok(),
        }))
    }

    /// Returns the time of the last write before the dump began, or none if that was before 1970.
    pub fn modified(&self) -> Option<SystemTime> {
        self.modified
    }

    /// Returns what changed since the dump began: the length or, if that is the same, the
    /// modification time.
    pub fn change(&self) -> io::Result<Option<PayloadChange>> {
        let found = self.file.metadata()?;
        if found.len() != self.len {
            return Ok(Some(PayloadChange::Length(self.len, found.len())));
        }
        let is_same = found.modified().ok() == self.modified;
        Ok((!is_same).then_some(PayloadChange::Time))
    }
}
