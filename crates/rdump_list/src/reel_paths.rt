//! The paths of record files.
use crate::ListSystem;
use crate::fault::{ListFault, at, go_on};
use crate::folder::names_in;
use std::alloc::AllocError;
use std::fs;
use std::io::{self, ErrorKind};

const NO_FILE: &str = "it is no plain file and no folder";

/// The path of a record file.
#[derive(Drop)]
pub struct ReelPath {
    pub path: String,
    /// Whether it is a name in a folder that was listed: what has the name may be no plain file.
    pub is_listed: bool,
}

impl ReelPath {
    /// Whether there is a record file to read. A name that was listed in a folder counts if a plain
    /// file still has it. Fails if the system does.
    pub fn is_there<R: ListSystem>(&self, rt: &R) -> io::Result<bool> {
        if !self.is_listed {
            return Ok(true);
        }
        match fs::symlink_metadata(rt, self.path.as_str()) {
            Ok(found) => Ok(found.is_file()),
            Err(error) if error.kind() == ErrorKind::NotFound => Ok(false),
            Err(error) => Err(error),
        }
    }
}

/// The paths of record files, in the order in which they were named.
#[derive(Drop)]
pub struct ReelPaths<'a, R: ListSystem> {
    rt: &'a R,
    paths: Vec<ReelPath>,
    has_failed: bool,
}

impl<'a, R: ListSystem> ReelPaths<'a, R> {
    /// Makes a list without a path.
    pub fn new(rt: &'a R) -> Self {
        ReelPaths {
            rt,
            paths: Vec::new(rt.alloc()),
            has_failed: false,
        }
    }

    /// Adds the record file at this path, or the names in the folder at this path, in the order of
    /// their bytes. It skips names that begin with a dot. If there is neither, or a name is not
    /// UTF-8, it prints why and goes on. Fails if an allocation fails.
    pub fn add(&mut self, path: &str) -> Result<(), AllocError> {
        let added = self.add_found(path);
        self.go_on(added)
    }

    /// Returns the paths, and whether all that was named could be found.
    pub fn into_paths(self) -> (Vec<ReelPath>, bool) {
        (self.paths, !self.has_failed)
    }

    fn add_found<'b>(&mut self, path: &'b str) -> Result<(), ListFault<'b>> {
        let (rt, alloc) = (self.rt, self.rt.alloc());
        let found = at(path, fs::metadata(rt, path))?;
        if found.is_file() {
            self.push(String::from_str(alloc, path)?, false)?;
            return Ok(());
        }
        if !found.is_dir() {
            return Err(ListFault::Unfit(path, NO_FILE));
        }
        let between = if path.ends_with("/") { "" } else { "/" };
        for name in at(path, names_in(rt, path))? {
            match str::from_utf8(&name) {
                Ok(name) => self.push(format!(in alloc; "{path}{between}{name}")?, true)?,
                Err(_) => self.go_on(Err(ListFault::Unfit(path, "a name in it is not UTF-8")))?,
            }
        }
        Ok(())
    }

    fn push(&mut self, path: String, is_listed: bool) -> Result<(), AllocError> {
        self.paths.push(ReelPath { path, is_listed })?;
        Ok(())
    }

    /// Prints a fault, remembers it, and goes on.
    fn go_on(&mut self, added: Result<(), ListFault<'_>>) -> Result<(), AllocError> {
        if go_on(self.rt, added)?.is_none() {
            self.has_failed = true;
        }
        Ok(())
    }
}

/// Opens the plain file at this path for reading. Fails if the system does, and with `InvalidInput`
/// if it is no plain file.
pub fn open_plain<R: ListSystem>(rt: &R, path: &str) -> io::Result<fs::File> {
    let file = fs::File::open(rt, path)?;
    if !file.metadata()?.is_file() {
        return Err(io::Error::new(ErrorKind::InvalidInput, NO_FILE));
    }
    Ok(file)
}
