//! Checks folders before they are used.

use super::known::FileId;
use crate::FolderSystem;
use std::alloc::AllocError;
use std::fs::{self, Metadata};
use std::io::{self, ErrorKind};
use std::os::unix::fs::MetadataExt;

/// Returns the user that runs the program: the owner of its own entry in `/proc`, if there is one.
fn user<R: FolderSystem>(rt: &R) -> Option<u32> {
    let own = fs::metadata(rt, "/proc/self").ok()?;
    Some(own.uid())
}

/// A user who is not the owner may be in the group.
fn may_write(found: &Metadata, user: Option<u32>) -> bool {
    match user {
        Some(0) | None => !found.permissions().readonly(),
        Some(user) if user == found.uid() => found.mode() & 0o200 != 0,
        Some(_) => found.mode() & 0o022 != 0,
    }
}

/// Returns the identity of a folder that can be read and, as far as that shows without changing
/// anything, be written to.
pub(super) fn look_at<R: FolderSystem>(rt: &R, folder: &str) -> io::Result<FileId> {
    fs::read_dir(rt, folder)?;
    let inside = format!(in rt.alloc(); "{folder}/.")?;
    let found = fs::metadata(rt, inside.as_str())?;
    if !may_write(&found, user(rt)) {
        return Err(io::Error::from(ErrorKind::PermissionDenied));
    }
    Ok(FileId::of(&found))
}

pub(super) fn look_at_next<R: FolderSystem>(
    rt: &R,
    folder: &str,
    seen: &mut Vec<FileId>,
) -> io::Result<()> {
    seen.push(look_at(rt, folder)?)?;
    Ok(())
}

fn too_long<R: FolderSystem>(rt: &R, folder: &str) -> Result<String, AllocError> {
    format!(in rt.alloc(); "{folder}/.{:0255}", 0)
}

/// Fails if the folders are on different mounts or allow no writes. It tries a rename with a name
/// that is too long. The system checks the mounts before the names, so this changes nothing.
pub(super) fn look_between<R: FolderSystem>(rt: &R, folder: &str, bin: &str) -> io::Result<()> {
    let from = too_long(rt, folder)?;
    let to = too_long(rt, bin)?;
    match fs::rename(rt, from.as_str(), to.as_str()) {
        Err(error) if error.kind() == ErrorKind::CrossesDevices => {
            let words = "the bin is on another mount";
            Err(io::Error::new(ErrorKind::CrossesDevices, words))
        }
        Err(error) if error.kind() == ErrorKind::ReadOnlyFilesystem => Err(error),
        _ => Ok(()),
    }
}

pub(super) fn clash_of(seen: &[FileId], drive: usize, bin: FileId) -> Option<io::Error> {
    let own = *seen.get(drive)?;
    if own == bin {
        let words = "the bin is this folder too";
        Some(io::Error::new(ErrorKind::InvalidInput, words))
    } else if !own.is_beside(bin) {
        let words = "the bin is on another file system";
        Some(io::Error::new(ErrorKind::CrossesDevices, words))
    } else if seen.iter().take(drive).any(|other| *other == own) {
        let words = "an earlier drive has this folder too";
        Some(io::Error::new(ErrorKind::InvalidInput, words))
    } else {
        None
    }
}
