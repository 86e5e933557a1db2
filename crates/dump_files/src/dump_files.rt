//! The files of a dump.

use std::alloc::Global;
use std::fs::{File, Metadata};
use std::io;
use std::rt::Files;
use whole_files::FileId;

/// One of the files of a dump. The *lock* of a file is the file beside it with `.new` after its
/// name.
#[derive(Clone, Copy, Debug, PartialEq, Eq)]
pub enum DumpFile {
    /// The payload.
    Payload,
    /// The dumpdates file.
    Dates,
    /// Its lock.
    NewDates,
    /// The checkpoint file.
    Checkpoint,
    /// Its lock.
    NewCheckpoint,
    /// The catalog.
    Catalog,
    /// Its lock.
    NewCatalog,
}

/// Two of the files of a dump that are the same file.
#[derive(Clone, Copy, Debug, PartialEq, Eq)]
pub struct SameFile {
    /// The file that was to be added.
    pub file: DumpFile,
    /// The same file, which was added before.
    pub other: DumpFile,
}

/// The files of a dump that were added. They are all different.
#[derive(Drop)]
pub struct DumpFiles {
    known: Vec<(DumpFile, FileId)>,
}

impl DumpFiles {
    /// Makes an empty list.
    pub fn new(alloc: Global) -> DumpFiles {
        DumpFiles {
            known: Vec::new(alloc),
        }
    }

    /// Adds the payload, which is open and has this metadata. If it is the same as a file added
    /// before, returns the two. Fails only if an allocation fails.
    pub fn add_payload(&mut self, found: &Metadata) -> io::Result<Option<SameFile>> {
        self.add(DumpFile::Payload, Some(FileId::of(found)))
    }

    /// Adds the dumpdates file at this path, and its lock if the file is to be updated. If one of
    /// them is the same as a file added before, returns the two, and adds nothing more. A file
    /// whose folder does not exist is not added.
    ///
    /// Fails if the system does not identify a file, or if an allocation fails.
    pub fn add_dates<R: Files<File = File>>(
        &mut self,
        rt: &R,
        alloc: Global,
        path: &str,
        is_updated: bool,
    ) -> io::Result<Option<SameFile>> {
        if is_updated {
            return self.add_locked(rt, alloc, path, DumpFile::Dates, DumpFile::NewDates);
        }
        let dates = FileId::of_path(rt, alloc, path)?;
        self.add(DumpFile::Dates, dates)
    }

    /// Adds the checkpoint file and its lock, as `add_dates` does.
    pub fn add_checkpoint<R: Files<File = File>>(
        &mut self,
        rt: &R,
        alloc: Global,
        path: &str,
    ) -> io::Result<Option<SameFile>> {
        self.add_locked(
            rt,
            alloc,
            path,
            DumpFile::Checkpoint,
            DumpFile::NewCheckpoint,
        )
    }

    /// Adds the catalog and its lock, as `add_dates` does.
    pub fn add_catalog<R: Files<File = File>>(
        &mut self,
        rt: &R,
        alloc: Global,
        path: &str,
    ) -> io::Result<Option<SameFile>> {
        self.add_locked(rt, alloc, path, DumpFile::Catalog, DumpFile::NewCatalog)
    }

    fn add_locked<R: Files<File = File>>(
        &mut self,
        rt: &R,
        alloc: Global,
        path: &str,
        file: DumpFile,
        lock: DumpFile,
    ) -> io::Result<Option<SameFile>> {
        let id = FileId::of_path(rt, alloc, path)?;
        let same = self.add(file, id)?;
        if same.is_some() {
            return Ok(same);
        }
        let id = FileId::of_lock(rt, alloc, path)?;
        self.add(lock, id)
    }

    fn add(&mut self, file: DumpFile, id: Option<FileId>) -> io::Result<Option<SameFile>> {
        let Some(id) = id else {
            return Ok(None);
        };
        if let Some(other) = self.find(&id) {
            return Ok(Some(SameFile { file, other }));
        }
        self.known.push((file, id))?;
        Ok(None)
    }

    fn find(&self, id: &FileId) -> Option<DumpFile> {
        for (file, known) in &self.known {
            if known.is(id) {
                return Some(*file);
            }
        }
        None
    }
}
