//! The file of a copy that is made: `.NAME.part` in the folder, until it gets its name.
use crate::named::{MOST_TRIES, is_file, lock, taken};
use file_medium::FileMedium;
use std::alloc::Global;
use std::fs::{self, File, Metadata, OpenOptions};
use std::io::{self, ErrorKind};
use std::os::unix::fs::{FileExt, MetadataExt};
use std::rt::Files;
use tape::Medium;
use whole_files::no_plain_file;

/// How many bytes of two files are compared at once.
const PIECE: usize = 16384;

/// The name of a copy, and the paths of the copy and its part.
#[derive(Drop)]
pub(crate) struct CopyPaths {
    pub name: String,
    pub copy: String,
    pub part: String,
}

impl CopyPaths {
    pub(crate) fn new(alloc: Global, folder: &str, name: String) -> io::Result<CopyPaths> {
        let between = if folder.ends_with("/") { "" } else { "/" };
        let copy = format!(in alloc; "{folder}{between}{name}")?;
        let part = format!(in alloc; "{folder}{between}.{name}.part")?;
        Ok(CopyPaths { name, copy, part })
    }
}

/// An open part, which is locked, so that no other run writes it meanwhile. Contracts do not know
/// its contents.
#[derive(Drop)]
pub(crate) struct Part {
    medium: FileMedium,
}

impl Part {
    /// Opens or creates the part at this path, locks it, and empties it. If the file has another
    /// name too, as after a run that was stopped while it gave the copy its name, the part is
    /// removed and created anew.
    ///
    /// Fails with the system's error, with `InvalidInput` if something other than a regular file
    /// has the name, or with `WouldBlock` if another run has the part.
    pub(crate) fn open<R: Files<File = File>>(rt: &R, path: &str) -> io::Result<Part> {
        for _ in 0..MOST_TRIES {
            let Some(file) = open_or_create(rt, path)? else {
                continue;
            };
            lock(&file)?;
            if !has_name(rt, path, &file)? {
                continue;
            }
            if file.metadata()?.nlink() > 1 {
                fs::remove_file(rt, path)?;
                continue;
            }
            file.set_len(0)?;
            return Ok(Part {
                medium: FileMedium::new(file),
            });
        }
        Err(taken())
    }

    /// Appends the frame, the bytes and the frame. Makes one call of the system if it takes them
    /// all.
    pub(crate) fn append_framed(&mut self, frame: &[u8], bytes: &[u8]) -> io::Result<()> {
        match self.medium.append_framed(frame, bytes) {
            Ok(()) => Ok(()),
            Err(_) => Err(self.medium.last_error().unwrap_or(ErrorKind::Other.into())),
        }
    }

    pub(crate) fn sync(&self) -> io::Result<()> {
        self.medium.sync()
    }

    /// Gives the copy its name, and removes that of the part. If a file has the copy's name already
    /// and the same bytes, that file is synced in place of this.
    ///
    /// Fails with the system's error. Fails with `AlreadyExists` if a file with other bytes has the
    /// name, and with `InvalidInput` if what has it is no regular file, or if the part was
    /// exchanged.
    pub(crate) fn place<R: Files<File = File>>(&self, rt: &R, paths: &CopyPaths) -> io::Result<()> {
        let (part, copy) = (paths.part.as_str(), paths.copy.as_str());
        if !has_name(rt, part, self.medium.file())? {
            return Err(exchanged());
        }
        match fs::hard_link(rt, part, copy) {
            Ok(()) if !has_name(rt, copy, self.medium.file())? => return Err(exchanged()),
            Ok(()) => {}
            Err(error) if error.kind() == ErrorKind::AlreadyExists => self.match_copy(rt, copy)?,
            Err(error) => return Err(error),
        }
        fs::remove_file(rt, part)
    }

    /// Checks that the file at this path has the same bytes as the part, and syncs it.
    fn match_copy<R: Files<File = File>>(&self, rt: &R, copy: &str) -> io::Result<()> {
        match found_at(rt, copy)? {
            Some(found) if found.is_file() => {}
            _ => return Err(no_plain_file()),
        }
        let file = File::open(rt, copy)?;
        if !has_name(rt, copy, &file)? {
            return Err(exchanged());
        }
        if !have_same_bytes(&file, self.medium.file())? {
            let error = "it is there already, and is not equal to the reel";
            return Err(io::Error::new(ErrorKind::AlreadyExists, error));
        }
        file.sync_all()
    }
}

/// Returns none if the part went or came meanwhile. Fails with `InvalidInput` if something other
/// than a regular file is there. A link is not followed.
fn open_or_create<R: Files<File = File>>(rt: &R, path: &str) -> io::Result<Option<File>> {
    let mut options = OpenOptions::new();
    options.read(true).append(true);
    let raced = match found_at(rt, path)? {
        Some(found) if !found.is_file() => return Err(no_plain_file()),
        Some(_) => ErrorKind::NotFound,
        None => {
            options.create_new(true);
            ErrorKind::AlreadyExists
        }
    };
    match options.open(rt, path) {
        Ok(file) => Ok(Some(file)),
        Err(error) if error.kind() == raced => Ok(None),
        Err(error) => Err(error),
    }
}

fn have_same_bytes(one: &File, other: &File) -> io::Result<bool> {
    let length = one.metadata()?.len();
    if other.metadata()?.len() != length {
        return Ok(false);
    }
    let (mut bytes, mut others) = ([0; PIECE], [0; PIECE]);
    let mut at = 0;
    while at < length {
        let count = (length - at).min(PIECE as u64) as usize;
        one.read_exact_at(&mut bytes[..count], at)?;
        other.read_exact_at(&mut others[..count], at)?;
        if bytes[..count] != others[..count] {
            return Ok(false);
        }
        at += count as u64;
    }
    Ok(true)
}

/// Whether this path names this file, and not by a link that is followed.
fn has_name<R: Files<File = File>>(rt: &R, path: &str, file: &File) -> io::Result<bool> {
    is_file(fs::symlink_metadata(rt, path), file)
}

/// Does not follow a link. Returns none if nothing is at this path.
fn found_at<R: Files<File = File>>(rt: &R, path: &str) -> io::Result<Option<Metadata>> {
    match fs::symlink_metadata(rt, path) {
        Ok(found) => Ok(Some(found)),
        Err(error) if error.kind() == ErrorKind::NotFound => Ok(None),
        Err(error) => Err(error),
    }
}

fn exchanged() -> io::Error {
    io::Error::new(ErrorKind::InvalidInput, "another file took its place")
}
