//! Copies of reels in a folder.
use crate::named::sync_folder;
use crate::part::{CopyPaths, Part};
use crate::progress::VolumeProgress;
use dump_run::VolumeLabel;
use rdump_fetch::{CopyFile, push_copy_name};
use rdump_system::ClientSystem;
use std::alloc::Global;
use std::io::{self, ErrorKind, Write};

/// The most bytes of a copy's name: that of its part has six more, and a file system takes 255.
const MOST_NAME: usize = 249;

/// The copies of reels in a folder: one file for each reel. Contracts do not know what the files
/// contain. `T` is the terminal that shows the progress.
#[derive(Drop)]
pub(crate) struct FolderCopy<'a, R: ClientSystem, T: Write + Drop> {
    rt: &'a R,
    folder: &'a str,
    paths: Option<CopyPaths>,
    part: Option<Part>,
    progress: Option<VolumeProgress<'a, R, T>>,
}

impl<'a, R: ClientSystem, T: Write + Drop> FolderCopy<'a, R, T> {
    pub(crate) fn new(rt: &'a R, folder: &'a str, terminal: Option<T>) -> Self {
        FolderCopy {
            rt,
            folder,
            paths: None,
            part: None,
            progress: terminal.map(|it| VolumeProgress::new(rt, it)),
        }
    }

    /// Returns the paths of the copy that was begun last, if one was.
    pub(crate) fn paths(&self) -> Option<&CopyPaths> {
        self.paths.as_ref()
    }

    /// Returns the path of the copy that was begun last, or that of the folder if none was.
    pub(crate) fn path(&self) -> &str {
        match &self.paths {
            Some(paths) => paths.copy.as_str(),
            None => self.folder,
        }
    }

    fn open(&mut self, label: &VolumeLabel) -> io::Result<()> {
        self.paths = None;
        let alloc = self.rt.alloc();
        let paths = CopyPaths::new(alloc, self.folder, name_of(alloc, label)?)?;
        let part = open_part(self.rt, alloc, &paths);
        self.paths = Some(paths);
        self.part = Some(part?);
        Ok(())
    }
}

impl<'a, R: ClientSystem, T: Write + Drop> CopyFile for FolderCopy<'a, R, T> {
    ghost holds = { λ _ _. ⊥ };

    ghost synced = { λ _ _. ⊥ };

    ghost placed = { λ _ _. ⊥ };

    ghost kept = { λ _ _. ⊥ };

    fn begin(&mut self, label: &VolumeLabel) -> io::Result<()> {
        self.leave();
        if let Some(progress) = &mut self.progress {
            progress.begin(Some(label.volume()));
        }
        self.open(label)
    }

    fn append_framed(&mut self, frame: &[u8], bytes: &[u8]) -> io::Result<()> {
        if let Some(progress) = &mut self.progress {
            // A mark has no frame.
            if !frame.is_empty() {
                progress.show(bytes.len());
            }
        }
        match &mut self.part {
            Some(part) => part.append_framed(frame, bytes),
            None => Err(not_begun()),
        }
    }

    fn sync(&mut self) -> io::Result<()> {
        match &self.part {
            Some(part) => part.sync(),
            None => Err(not_begun()),
        }
    }

    fn place(&mut self) -> io::Result<()> {
        match (&self.part, &self.paths) {
            (Some(part), Some(paths)) => part.place(self.rt, paths),
            _ => Err(not_begun()),
        }
    }

    fn sync_name(&mut self) -> io::Result<()> {
        sync_folder(self.rt, self.folder)
    }

    /// Closes the part, which releases its lock.
    fn leave(&mut self) {
        self.part = None;
        if let Some(progress) = &mut self.progress {
            progress.clear();
        }
    }
}

fn name_of(alloc: Global, label: &VolumeLabel) -> io::Result<String> {
    let mut name = Vec::new(alloc);
    push_copy_name(&mut name, label)?;
    match str::from_utf8(&name) {
        Ok(name) => Ok(String::from_str(alloc, name)?),
        Err(_) => Err(ErrorKind::InvalidData.into()),
    }
}

/// Opens the part of a copy. Fails with `InvalidInput` if the copy's name is too long. Errors of
/// the part begin with `its .part: `.
fn open_part<R: ClientSystem>(rt: &R, alloc: Global, paths: &CopyPaths) -> io::Result<Part> {
    let length = paths.name.len();
    if length > MOST_NAME {
        let text = format!(in alloc; "its name has {length} bytes, and {MOST_NAME} are the most")?;
        return Err(io::Error::new(ErrorKind::InvalidInput, text.as_str()));
    }
    match Part::open(rt, paths.part.as_str()) {
        Ok(part) => Ok(part),
        Err(error) => Err(of_part(alloc, error)),
    }
}

/// Puts `its .part: ` in front. If an allocation for that fails, returns that error.
fn of_part(alloc: Global, error: io::Error) -> io::Error {
    match format!(in alloc; "its .part: {error}") {
        Ok(text) => io::Error::new(error.kind(), text.as_str()),
        Err(refused) => refused.into(),
    }
}

fn not_begun() -> io::Error {
    io::Error::from(ErrorKind::Other)
}
