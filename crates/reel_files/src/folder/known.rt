//! The system's metadata of a file or folder.

use crate::FolderSystem;
use std::fs::{self, Metadata};
use std::io::{self, ErrorKind};
use std::os::unix::fs::MetadataExt;

/// Identifies a file or folder, whatever its name is.
#[derive(Clone, Copy, PartialEq, Eq)]
pub(super) struct FileId {
    device: u64,
    number: u64,
}

impl FileId {
    pub(super) fn of(known: &Metadata) -> FileId {
        FileId {
            device: known.dev(),
            number: known.ino(),
        }
    }

    /// Whether both are on the same file system.
    pub(super) fn is_beside(self, other: FileId) -> bool {
        self.device == other.device
    }

    /// Whether this is the metadata of this file, and it is a regular file.
    pub(super) fn is_same_file(self, known: &Metadata) -> bool {
        known.is_file() && FileId::of(known) == self
    }
}

/// Returns the metadata of what has this path, if anything has it. Follows no link.
pub(super) fn known_at<R: FolderSystem>(rt: &R, path: &str) -> io::Result<Option<Metadata>> {
    match fs::symlink_metadata(rt, path) {
        Ok(known) => Ok(Some(known)),
        Err(error) if error.kind() == ErrorKind::NotFound => Ok(None),
        Err(error) => Err(error),
    }
}

/// The state of a reel's name in the bin.
#[derive(Clone, Copy, PartialEq, Eq)]
pub(super) enum InBin {
    Nothing,
    /// The reel's own file, because a move was interrupted between its two steps.
    SameFile,
    /// Another file, or a folder or a link.
    Another,
}

pub(super) fn look_in_bin<R: FolderSystem>(rt: &R, path: &str, id: FileId) -> io::Result<InBin> {
    Ok(match known_at(rt, path)? {
        None => InBin::Nothing,
        Some(known) if id.is_same_file(&known) => InBin::SameFile,
        Some(_) => InBin::Another,
    })
}
