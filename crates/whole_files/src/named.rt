//! Finds the file that a path names.

use crate::read::no_plain_file;
use std::alloc::Global;
use std::fs::{self, File};
use std::io::{self, ErrorKind};
use std::path::{Path, PathBuf};
use std::rt::Files;

/// How many links are followed at most, as in the system's own path lookup.
const MOST_LINKS: u32 = 40;

/// Returns the path of the regular file that this path names, after following links. Nothing need
/// exist there.
///
/// Fails if something else is there, or if the links form a loop.
pub fn named_file<R: Files<File = File>>(rt: &R, alloc: Global, path: &str) -> io::Result<PathBuf> {
    let mut named = PathBuf::from_str(alloc, path)?;
    for _ in 0..MOST_LINKS {
        match fs::symlink_metadata(rt, &named) {
            Ok(found) if found.is_symlink() => named = link_target(rt, alloc, named.as_path())?,
            Ok(found) if found.is_file() => return Ok(named),
            Ok(_) => return Err(no_plain_file()),
            Err(error) if error.kind() == ErrorKind::NotFound => return Ok(named),
            Err(error) => return Err(error),
        }
    }
    Err(io::Error::from(ErrorKind::FilesystemLoop))
}

pub(crate) fn folder_of(path: Path<'_>) -> Path<'_> {
    match path.parent() {
        Some(folder) if !folder.as_str().is_empty() => folder,
        _ => Path::new("."),
    }
}

/// Syncs the folder of this file, so that the names in it survive a power loss.
pub(crate) fn sync_folder<R: Files<File = File>>(rt: &R, named: &PathBuf) -> io::Result<()> {
    File::open(rt, folder_of(named.as_path()))?.sync_all()
}

fn link_target<R: Files<File = File>>(
    rt: &R,
    alloc: Global,
    link: Path<'_>,
) -> io::Result<PathBuf> {
    let target = rt.read_link(alloc, link.as_str())?;
    let folder = link.parent().unwrap_or(Path::new(""));
    Ok(folder.join(alloc, &target)?)
}
