//! Keeps standard input in a file, to dump it more than once.
ghost use Rattle.std.specs.Prelude.{◌≡◌, ◌<◌, Some, IfOk, IfSome, OnOk, length};
ghost use Rattle.std.specs.Io.Iter.{u64_saturate};
ghost use Rattle.std.specs.Io.KnownBytes.{Appends, GrowsBy, IsAtEnd};
ghost use Rattle.whole_files.specs.Spool.{IsMoved};

use crate::named::{folder_of, named_file, sync_folder};
use crate::open_file::{
    PRIVATE_MODE, create_new, create_numbered, exchanged, found_as, found_at, remove_own, taken,
    try_lock,
};
use crate::read::no_plain_file;
use std::alloc::Global;
use std::fs::{self, File, OpenOptions};
use std::io::{self, ErrorKind, Read, Write};
use std::path::{Path, PathBuf};
use std::rt::Files;
use thiserror::Error;

const BUFFER_SIZE: usize = 128 << 10;

/// How messages name standard input.
pub const INPUT_NAME: &str = "standard input";

/// Why a stream was not read into a file.
#[derive(Clone, Copy, Debug, Error)]
pub enum SpoolFault {
    /// The stream could not be read.
    #[error("{0}")]
    Input(io::Error),
    /// The file could not be created, written or synced.
    #[error("{0}")]
    Spool(io::Error),
    /// The stream gave no byte, and that was not allowed.
    #[error("it gave no byte: a dump of nothing needs --allow-empty")]
    Empty,
    /// An earlier run left a file of this name.
    #[error("it is there without a checkpoint: if a run of this command left it, remove it, and run the command with its pipe again")]
    Left,
}

/// Returns the folder in which a dump without a checkpoint keeps standard input: `named`, or that
/// of the dumpdates file.
pub fn spool_folder<'a>(named: Option<&'a str>, dumpdates: &'a str) -> &'a str {
    named.unwrap_or(folder_of(Path::new(dumpdates)).as_str())
}

/// Reads a stream to its end into a new file in this folder, syncs the file, and returns it with
/// its length in bytes. Its position is then at its end. The file has no name, so nothing is left
/// of it when it is closed.
///
/// Fails with `Empty` if the stream gives no byte, unless `may_be_empty` is true.
pub fn spool_unnamed<R: Files<File = File>, I: Read>(
    rt: &R,
    alloc: Global,
    folder: &str,
    input: &mut I,
    may_be_empty: bool,
) -> Result<(File, u64), SpoolFault> {
    match make_unnamed(rt, alloc, folder) {
        Ok(mut file) => {
            let len = fill(alloc, &mut file, input, may_be_empty)?;
            Ok((file, len))
        }
        Err(error) => Err(SpoolFault::Spool(error)),
    }
}

fn make_unnamed<R: Files<File = File>>(rt: &R, alloc: Global, folder: &str) -> io::Result<File> {
    let before = Path::new(folder).join(alloc, ".rdump-spool.")?;
    let before = before.as_path().as_str();
    match create_numbered(rt, alloc, before, 0, PRIVATE_MODE)? {
        Some((path, file)) => {
            fs::remove_file(rt, path.as_str())?;
            Ok(file)
        }
        None => {
            let error =
                "its names .rdump-spool.0 to .rdump-spool.999 are taken: remove these files";
            Err(io::Error::new(ErrorKind::AlreadyExists, error))
        }
    }
}

fn fill<I: Read>(
    alloc: Global,
    file: &mut File,
    input: &mut I,
    may_be_empty: bool,
) -> Result<u64, SpoolFault> {
    let len = copy_all(alloc, input, file)?;
    if len == 0 && !may_be_empty {
        return Err(SpoolFault::Empty);
    }
    match file.sync_all() {
        Ok(()) => Ok(len),
        Err(error) => Err(SpoolFault::Spool(error)),
    }
}

/// Copies what a reader gives up to its end, and returns how many bytes that is.
///
/// Fails with `Input` if the reader fails, and with `Spool` if the writer or an allocation fails.
pub fn copy_all<I: Read, O: Write>(
    alloc: Global,
    from: &mut I,
    to: &mut O,
) -> Result<u64, SpoolFault>
    ensures bytes { OnOk result (IfSome (I.remaining from.old) (Appends (O.contents to.old) (O.contents to.new))) }
    ensures count { IfOk result (λ n. IfSome (I.remaining from.old) (λ xs. n ≡ u64_saturate (length xs))) }
    ensures end { OnOk result (IsAtEnd (I.remaining from.new)) }
    ensures grows { IfOk result (GrowsBy (O.contents to.old) (O.contents to.new)) }
{
    match Vec::from_elem(alloc, 0u8, BUFFER_SIZE) {
        Ok(mut buffer) => copy_through(from, to, &mut buffer),
        Err(refused) => Err(SpoolFault::Spool(refused.into())),
    }
}

fn copy_through<I: Read, O: Write>(
    from: &mut I,
    to: &mut O,
    buffer: &mut [u8],
) -> Result<u64, SpoolFault>
    requires { 0 < length buffer.old }
    ensures bytes { OnOk result (IfSome (I.remaining from.old) (Appends (O.contents to.old) (O.contents to.new))) }
    ensures count { IfOk result (λ n. IfSome (I.remaining from.old) (λ xs. n ≡ u64_saturate (length xs))) }
    ensures end { OnOk result (IsAtEnd (I.remaining from.new)) }
    ensures grows { IfOk result (GrowsBy (O.contents to.old) (O.contents to.new)) }
{
    let mut copied = 0u64;
    for _ in 0..u64::MAX {
        let count = copy_piece(from, to, buffer)?;
        if count == Some(0) {
            return Ok(copied);
        }
        copied = copied.saturating_add(count.unwrap_or(0) as u64);
    }
    Err(SpoolFault::Input(ErrorKind::TimedOut.into()))
}

fn copy_piece<I: Read, O: Write>(
    from: &mut I,
    to: &mut O,
    buffer: &mut [u8],
) -> Result<Option<usize>, SpoolFault>
    requires { 0 < length buffer.old }
    ensures length { length buffer.new ≡ length buffer.old }
    ensures moved { IfOk result (IsMoved (I.remaining from.old) (I.remaining from.new) (O.contents to.old) (O.contents to.new)) }
    ensures end { IfOk result (λ count. count ≡ Some 0 → IsAtEnd (I.remaining from.new)) }
{
    match from.read(buffer) {
        Ok(count) => match to.write_all(&buffer[..count]) {
            Ok(()) => Ok(Some(count)),
            Err(error) => Err(SpoolFault::Spool(error)),
        },
        Err(error) if error.kind() == ErrorKind::Interrupted => Ok(None),
        Err(error) => Err(SpoolFault::Input(error)),
    }
}

/// Returns the path at which a dump with this checkpoint keeps standard input: that of the
/// checkpoint file, after following links, with `.payload` after it.
pub fn named_spool_path<R: Files<File = File>>(
    rt: &R,
    alloc: Global,
    checkpoint: &str,
) -> io::Result<String> {
    let named = named_file(rt, alloc, checkpoint)?;
    let checkpoint = named.as_path().as_str();
    Ok(format!(in alloc; "{checkpoint}.payload")?)
}

/// The file in which a dump with a checkpoint keeps standard input, with its advisory lock.
#[derive(Drop)]
pub struct NamedSpool<'a, R: Files<File = File>> {
    rt: &'a R,
    path: PathBuf,
    file: File,
}

impl<'a, R: Files<File = File>> NamedSpool<'a, R> {
    /// Creates a file at this path, reads a stream to its end into it, and syncs the file and its
    /// folder. If that fails, the file is removed.
    ///
    /// Fails with `Left` if a regular file is there that no other run has locked, and with `Empty`
    /// as `spool_unnamed` does. Nothing is read from the stream if the file cannot be created.
    pub fn make<I: Read>(
        rt: &'a R,
        alloc: Global,
        path: &str,
        input: &mut I,
        may_be_empty: bool,
    ) -> Result<Self, SpoolFault> {
        let mut spool = NamedSpool::create(rt, alloc, path)?;
        match spool.fill(alloc, input, may_be_empty) {
            Ok(()) => Ok(spool),
            Err(fault) => {
                let _ = spool.remove();
                Err(fault)
            }
        }
    }

    fn create(rt: &'a R, alloc: Global, path: &str) -> Result<Self, SpoolFault> {
        let named = match PathBuf::from_str(alloc, path) {
            Ok(named) => named,
            Err(refused) => return Err(SpoolFault::Spool(refused.into())),
        };
        match create_new(rt, path, PRIVATE_MODE) {
            Ok(file) => Ok(NamedSpool {
                rt,
                path: named,
                file,
            }),
            Err(error) if error.kind() == ErrorKind::AlreadyExists => {
                Err(NamedSpool::taken(rt, alloc, path, error))
            }
            Err(error) => Err(SpoolFault::Spool(error)),
        }
    }

    fn taken(rt: &'a R, alloc: Global, path: &str, error: io::Error) -> SpoolFault {
        match NamedSpool::find(rt, alloc, path) {
            Ok(Some(_)) => SpoolFault::Left,
            Ok(None) => SpoolFault::Spool(error),
            Err(error) => SpoolFault::Spool(error),
        }
    }

    /// Opens and locks the file at this path. Returns none if nothing is there.
    ///
    /// Fails with `InvalidInput` if it is no regular file, or if another file took its place while
    /// it was opened. Fails with `WouldBlock` if another run has locked it.
    pub fn find(rt: &'a R, alloc: Global, path: &str) -> io::Result<Option<Self>> {
        match found_at(rt, path)? {
            None => return Ok(None),
            Some(found) if !found.is_file() => return Err(no_plain_file()),
            Some(_) => {}
        }
        let spool = NamedSpool {
            rt,
            path: PathBuf::from_str(alloc, path)?,
            file: OpenOptions::new().read(true).write(true).open(rt, path)?,
        };
        spool.lock()?;
        match found_as(rt, path, &spool.file)? {
            Some(_) => Ok(Some(spool)),
            None => Err(exchanged()),
        }
    }

    /// Returns another handle of the same open file, at its current position.
    pub fn file(&self) -> io::Result<File> {
        self.file.try_clone()
    }

    /// Removes the file, and syncs its folder. Succeeds if it is gone. Another file of its name
    /// stays.
    pub fn remove(&self) -> io::Result<()> {
        if remove_own(self.rt, self.path.as_path().as_str(), &self.file)? {
            let _ = sync_folder(self.rt, &self.path);
        }
        Ok(())
    }

    fn lock(&self) -> io::Result<()> {
        if try_lock(&self.file)? {
            return Ok(());
        }
        Err(taken())
    }

    fn fill<I: Read>(
        &mut self,
        alloc: Global,
        input: &mut I,
        may_be_empty: bool,
    ) -> Result<(), SpoolFault> {
        self.lock().map_err(SpoolFault::Spool)?;
        fill(alloc, &mut self.file, input, may_be_empty)?;
        sync_folder(self.rt, &self.path).map_err(SpoolFault::Spool)
    }
}
