//! The file into which a volume is read back.
use crate::named::{MOST_TRIES, is_file, lock, sync_folder, taken};
use std::alloc::Global;
use std::fs::{self, File, Metadata, OpenOptions};
use std::io::{self, ErrorKind, Write};
use std::os::unix::fs::FileTypeExt;
use std::path::PathBuf;
use std::rt::Files;
use whole_files::named_file;

#[derive(Clone, Copy, PartialEq, Eq)]
enum FileKind {
    /// A regular file.
    Plain,
    /// A block device.
    Disk,
    /// Anything else, such as a pipe or a terminal, which is not on a disk.
    Stream,
}

/// A regular file is locked, so that no other run writes or removes it meanwhile. Contracts do not
/// know the contents.
#[derive(Drop)]
pub(crate) struct OutFile<'a, R> {
    rt: &'a R,
    file: File,
    made: Option<PathBuf>,
    kind: FileKind,
    has_begun: bool,
}

impl<'a, R: Files<File = File>> OutFile<'a, R> {
    /// Opens or creates the file at this path. Its contents are unchanged.
    ///
    /// Fails with the system's error, with `OutOfMemory`, or with `WouldBlock` if another run has
    /// it.
    pub(crate) fn open(rt: &'a R, alloc: Global, path: &str) -> io::Result<Self> {
        for _ in 0..MOST_TRIES {
            let Some((file, made)) = open_or_make(rt, alloc, path)? else {
                continue;
            };
            let kind = kind_of(&file.metadata()?);
            if kind == FileKind::Plain {
                lock(&file)?;
                if !is_file(fs::metadata(rt, path), &file)? {
                    continue;
                }
            }
            return Ok(OutFile {
                rt,
                file,
                made,
                kind,
                has_begun: false,
            });
        }
        Err(taken())
    }

    /// Begins to write: removes the bytes of a regular file.
    pub(crate) fn begin(&mut self) -> io::Result<()> {
        if self.kind == FileKind::Plain {
            self.file.set_len(0)?;
        }
        self.has_begun = true;
        Ok(())
    }

    pub(crate) fn append(&mut self, bytes: &[u8]) -> io::Result<()> {
        let mut file = &self.file;
        file.write_all(bytes)
    }

    /// Waits until everything written is on disk and, if this run created the file, also its name
    /// in the folder.
    pub(crate) fn sync(&self) -> io::Result<()> {
        if self.kind == FileKind::Stream {
            return Ok(());
        }
        self.file.sync_all()?;
        match &self.made {
            Some(made) => sync_folder(self.rt, folder_of(made)),
            None => Ok(()),
        }
    }

    /// Removes the file if this run created it, did not begin to write it, and it is still at its
    /// path.
    pub(crate) fn end(self) {
        let Some(path) = &self.made else {
            return;
        };
        let path = path.as_path().as_str();
        if !self.has_begun && is_file(fs::metadata(self.rt, path), &self.file).unwrap_or(false) {
            let _ = fs::remove_file(self.rt, path);
        }
    }
}

fn kind_of(found: &Metadata) -> FileKind {
    if found.is_file() {
        FileKind::Plain
    } else if found.file_type().is_block_device() {
        FileKind::Disk
    } else {
        FileKind::Stream
    }
}

fn folder_of(path: &PathBuf) -> &str {
    match path.as_path().parent() {
        Some(folder) if !folder.as_str().is_empty() => folder.as_str(),
        _ => ".",
    }
}

/// A file that was opened, and its path if this run created it.
type Opened = (File, Option<PathBuf>);

/// Returns none if another run created the file meanwhile.
fn open_or_make<R: Files<File = File>>(
    rt: &R,
    alloc: Global,
    path: &str,
) -> io::Result<Option<Opened>> {
    match OpenOptions::new().write(true).open(rt, path) {
        Ok(file) => Ok(Some((file, None))),
        Err(error) if error.kind() == ErrorKind::NotFound => make(rt, alloc, path),
        Err(error) => Err(error),
    }
}

/// Creates the file at this path or, if that is a link to nothing, the file that the link leads to.
/// Returns none if the file exists by now.
fn make<R: Files<File = File>>(rt: &R, alloc: Global, path: &str) -> io::Result<Option<Opened>> {
    let named = named_file(rt, alloc, path)?;
    match File::create_new(rt, &named) {
        Ok(file) => Ok(Some((file, Some(named)))),
        Err(error) if error.kind() == ErrorKind::AlreadyExists => Ok(None),
        Err(error) => Err(error),
    }
}
