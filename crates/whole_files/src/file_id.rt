//! Tells files apart, also those that do not exist yet.

use crate::lock_file::beside;
use crate::named::{folder_of, named_file};
use crate::open_file::found_at;
use std::alloc::Global;
use std::fs::{self, File, Metadata};
use std::io::{self, ErrorKind};
use std::os::unix::fs::MetadataExt;
use std::path::Path;
use std::rt::Files;

/// Identifies a file by its device and inode. A file that does not exist is identified by those of
/// its folder and by its name.
#[derive(Drop)]
pub struct FileId {
    device: u64,
    inode: u64,
    missing: Option<String>,
}

impl FileId {
    /// Identifies the file that has this metadata.
    pub fn of(found: &Metadata) -> FileId {
        FileId {
            device: found.dev(),
            inode: found.ino(),
            missing: None,
        }
    }

    /// Identifies the file that this path names, following links. Returns none if neither it nor
    /// its folder exists.
    pub fn of_path<R: Files<File = File>>(
        rt: &R,
        alloc: Global,
        path: &str,
    ) -> io::Result<Option<FileId>> {
        match fs::metadata(rt, path) {
            Ok(found) => Ok(Some(FileId::of(&found))),
            Err(error) if error.kind() == ErrorKind::NotFound => {
                let named = named_file(rt, alloc, path)?;
                FileId::of_missing(rt, alloc, named.as_path())
            }
            Err(error) => Err(error),
        }
    }

    /// Identifies the lock of the file that this path names. Returns none if that is not a regular
    /// file, which is never replaced, or if neither the lock nor its folder exists.
    pub fn of_lock<R: Files<File = File>>(
        rt: &R,
        alloc: Global,
        path: &str,
    ) -> io::Result<Option<FileId>> {
        let named = match named_file(rt, alloc, path) {
            Ok(named) => named,
            Err(error) if error.kind() == ErrorKind::InvalidInput => return Ok(None),
            Err(error) => return Err(error),
        };
        let lock = beside(alloc, named.as_path())?;
        match found_at(rt, lock.as_str())? {
            Some(found) => Ok(Some(FileId::of(&found))),
            None => FileId::of_missing(rt, alloc, Path::new(lock.as_str())),
        }
    }

    fn of_missing<R: Files<File = File>>(
        rt: &R,
        alloc: Global,
        path: Path<'_>,
    ) -> io::Result<Option<FileId>> {
        let Some(name) = path.file_name() else {
            return Ok(None);
        };
        let missing = String::from_str(alloc, name)?;
        match fs::metadata(rt, folder_of(path)) {
            Ok(found) => Ok(Some(FileId {
                device: found.dev(),
                inode: found.ino(),
                missing: Some(missing),
            })),
            Err(error) if error.kind() == ErrorKind::NotFound => Ok(None),
            Err(error) => Err(error),
        }
    }

    /// Whether both are the same file.
    pub fn is(&self, other: &FileId) -> bool {
        let same_place = self.device == other.device && self.inode == other.inode;
        same_place && self.missing == other.missing
    }
}
