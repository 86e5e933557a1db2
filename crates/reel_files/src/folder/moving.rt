//! Moves the file of a reel from its stack to the bin.

use super::known::{FileId, InBin, known_at, look_in_bin};
use super::lock::wait_for_lock;
use super::refusal::{Refusal, at};
use crate::{FileMedium, FolderSystem, MovableFile};
use std::fs::{self, File};
use std::io::{self, ErrorKind};

/// The latch allocates both paths, so that the move allocates nothing.
#[derive(Drop)]
pub(super) struct ReelFile {
    pub(super) name: String,
    pub(super) from: String,
    pub(super) to: String,
    pub(super) id: FileId,
}

#[derive(Drop)]
pub(super) struct Latched<'a, R: FolderSystem> {
    pub(super) rt: &'a R,
    pub(super) file: &'a ReelFile,
    pub(super) medium: &'a FileMedium,
    pub(super) stack: &'a str,
    pub(super) bin: &'a str,
}

impl<R: FolderSystem> MovableFile for Latched<'_, R> {
    type Moved = Moved;

    type Refusal = Refusal;

    ghost told = { λ _ _. ⊥ };

    ghost truncations = { λ f. f.medium.now.truncations };

    ghost written = { λ f. f.medium.now.written };

    fn truncations(&self) -> u64 {
        self.medium.truncations()
    }

    fn is_written(&self) -> bool {
        self.medium.is_written()
    }

    fn sync(&mut self) -> Result<(), Refusal> {
        at(self.file.from.as_str(), "sync", self.medium.sync())
    }

    fn rename(&mut self) -> Result<Moved, Refusal> {
        move_file(self.rt, self.file, self.stack, self.bin)
    }
}

/// Why a file that is in the bin still has its name in the stack too.
#[derive(Clone, Copy)]
pub(super) enum NameLeft {
    /// The bin's folder could not be synced.
    Unsynced(io::Error),
    NotRemoved(io::Error),
}

impl NameLeft {
    fn refusal(self, file: &ReelFile, bin: &str) -> Refusal {
        match self {
            NameLeft::Unsynced(reason) => Refusal::new(bin, "sync", reason),
            NameLeft::NotRemoved(reason) => Refusal::new(file.from.as_str(), "remove", reason),
        }
    }
}

#[derive(Clone, Copy)]
pub(super) enum MoveFlaw {
    /// The stack's folder could not be synced. After a rename it is one of the folders.
    Unsynced(io::Error),
    /// The file still has its name in the stack too. The next latch removes that name.
    NameLeft(NameLeft),
}

#[derive(Clone, Copy)]
pub(super) enum Moved {
    /// The file is in the bin. Unless the flaw is `NameLeft`, it is no longer in the stack.
    Done(Option<MoveFlaw>),
    /// The bin has that name. Nothing is changed.
    NameTaken,
}

#[derive(Drop)]
struct Folders {
    stack: File,
    bin: File,
}

/// Opens a folder. Opens nothing else: opening a pipe could wait for others.
fn open_folder<R: FolderSystem>(rt: &R, path: &str) -> io::Result<File> {
    if !fs::metadata(rt, path)?.is_dir() {
        return Err(io::Error::from(ErrorKind::NotADirectory));
    }
    File::open(rt, path)
}

fn open_folders<R: FolderSystem>(rt: &R, stack: &str, bin: &str) -> Result<Folders, Refusal> {
    Ok(Folders {
        stack: at(stack, "open", open_folder(rt, stack))?,
        bin: at(bin, "open", open_folder(rt, bin))?,
    })
}

/// Fails unless the path leads to the file that was latched.
fn look_again<R: FolderSystem>(rt: &R, file: &ReelFile) -> io::Result<()> {
    let found = fs::symlink_metadata(rt, file.from.as_str())?;
    if file.id.is_same_file(&found) {
        Ok(())
    } else {
        Err(io::Error::from(ErrorKind::StaleNetworkFileHandle))
    }
}

fn makes_no_links(error: &io::Error) -> bool {
    matches!(
        error.kind(),
        ErrorKind::PermissionDenied | ErrorKind::Unsupported | ErrorKind::TooManyLinks
    )
}

/// Moves the file to the bin by a hard link, or else by a rename, under the lock of the bin's
/// folder. Allocates nothing. If it fails, nothing is changed.
fn move_file<R: FolderSystem>(
    rt: &R,
    file: &ReelFile,
    stack: &str,
    bin: &str,
) -> Result<Moved, Refusal> {
    let (from, to) = (file.from.as_str(), file.to.as_str());
    let folders = open_folders(rt, stack, bin)?;
    at(bin, "lock", wait_for_lock(rt, &folders.bin))?;
    at(from, "stat", look_again(rt, file))?;
    match fs::hard_link(rt, from, to) {
        Ok(()) => leave_linked(rt, file, bin, &folders),
        Err(error) if error.kind() == ErrorKind::AlreadyExists => {
            // A network file system can report that a link exists which it has just made itself.
            match at(to, "stat", look_in_bin(rt, to, file.id))? {
                InBin::SameFile => leave_linked(rt, file, bin, &folders),
                InBin::Another | InBin::Nothing => Ok(Moved::NameTaken),
            }
        }
        Err(error) if makes_no_links(&error) => rename_file(rt, file, bin, &folders),
        Err(error) => Err(Refusal::new(from, "link", error)),
    }
}

/// Finishes a move after the link was made, or removes the link and fails. If neither is possible,
/// the move succeeds with a flaw.
fn leave_linked<R: FolderSystem>(
    rt: &R,
    file: &ReelFile,
    bin: &str,
    folders: &Folders,
) -> Result<Moved, Refusal> {
    // Others need not wait for the syncs: they cannot replace what is in the bin.
    let _ = folders.bin.unlock();
    let left = match leave_stack(rt, file, folders) {
        Ok(flaw) => return Ok(Moved::Done(flaw)),
        Err(left) => left,
    };
    if undo_link(rt, file).is_err() {
        return Ok(Moved::Done(Some(MoveFlaw::NameLeft(left))));
    }
    let _ = folders.bin.sync_all();
    Err(left.refusal(file, bin))
}

/// Removes the name in the stack of a file that is in the bin. Syncs the bin's folder before, so
/// that a power loss leaves one of the names, and the stack's folder after.
fn leave_stack<R: FolderSystem>(
    rt: &R,
    file: &ReelFile,
    folders: &Folders,
) -> Result<Option<MoveFlaw>, NameLeft> {
    let flaw = match sync_bin(folders) {
        Ok(flaw) => flaw,
        Err(reason) => return Err(NameLeft::Unsynced(reason)),
    };
    match remove_moved(rt, file) {
        Ok(()) => Ok(flaw.or(flaw_of(folders.stack.sync_all()))),
        Err(reason) => Err(NameLeft::NotRemoved(reason)),
    }
}

/// A file system that syncs no folders (`EINVAL`) does not stop the move.
fn sync_bin(folders: &Folders) -> io::Result<Option<MoveFlaw>> {
    match folders.bin.sync_all() {
        Ok(()) => Ok(None),
        Err(reason) if reason.kind() == ErrorKind::InvalidInput => {
            Ok(Some(MoveFlaw::Unsynced(reason)))
        }
        Err(reason) => Err(reason),
    }
}

/// Removes the file's name from the stack, if the file still has it. Fails also if the bin does not
/// have the file.
fn remove_moved<R: FolderSystem>(rt: &R, file: &ReelFile) -> io::Result<()> {
    if look_in_bin(rt, file.to.as_str(), file.id)? != InBin::SameFile {
        return Err(io::Error::from(ErrorKind::StaleNetworkFileHandle));
    }
    // The system cannot compare and remove in one call. Another file that takes the name after this
    // look is removed.
    let from = file.from.as_str();
    match known_at(rt, from)? {
        Some(known) if file.id.is_same_file(&known) => fs::remove_file(rt, from),
        _ => Ok(()),
    }
}

/// Removes the link to the file in the stack, even if another file had the name when the link was
/// made. Fails if the latched file is in the bin afterwards.
fn undo_link<R: FolderSystem>(rt: &R, file: &ReelFile) -> io::Result<()> {
    let to = file.to.as_str();
    let here = known_at(rt, file.from.as_str());
    // The look at the name comes directly before its removal.
    let Some(there) = known_at(rt, to)? else {
        return Ok(());
    };
    match here? {
        Some(here) if FileId::of(&here).is_same_file(&there) => fs::remove_file(rt, to),
        _ if file.id.is_same_file(&there) => Err(io::Error::from(ErrorKind::NotFound)),
        _ => Ok(()),
    }
}

/// Renames the file into the bin, if nothing there has its name. If the bin's folder cannot be
/// synced, renames it back and fails.
fn rename_file<R: FolderSystem>(
    rt: &R,
    file: &ReelFile,
    bin: &str,
    folders: &Folders,
) -> Result<Moved, Refusal> {
    let (from, to) = (file.from.as_str(), file.to.as_str());
    at(from, "stat", look_again(rt, file))?;
    // This look comes directly before the rename, which would replace a file.
    if at(to, "stat", known_at(rt, to))?.is_some() {
        return Ok(Moved::NameTaken);
    }
    at(from, "rename", fs::rename(rt, from, to))?;
    // Others need not wait for the syncs. The bin's comes first, so that at least one folder has
    // the name.
    let _ = folders.bin.unlock();
    match sync_bin(folders) {
        Ok(flaw) => Ok(Moved::Done(flaw.or(flaw_of(folders.stack.sync_all())))),
        Err(reason) => leave_unsynced(rt, file, bin, folders, reason),
    }
}

/// Renames the file back and fails with this reason. If that is not possible, the move succeeds
/// with a flaw.
fn leave_unsynced<R: FolderSystem>(
    rt: &R,
    file: &ReelFile,
    bin: &str,
    folders: &Folders,
    reason: io::Error,
) -> Result<Moved, Refusal> {
    if undo_rename(rt, file).is_err() {
        // The stack's folder is not synced: the disk may have the name only there.
        return Ok(Moved::Done(Some(MoveFlaw::Unsynced(reason))));
    }
    let _ = folders.stack.sync_all();
    let _ = folders.bin.sync_all();
    Err(Refusal::new(bin, "sync", reason))
}

fn undo_rename<R: FolderSystem>(rt: &R, file: &ReelFile) -> io::Result<()> {
    let (from, to) = (file.from.as_str(), file.to.as_str());
    if look_in_bin(rt, to, file.id)? != InBin::SameFile {
        return Err(io::Error::from(ErrorKind::StaleNetworkFileHandle));
    }
    // This look comes directly before the rename, which would replace a file.
    match known_at(rt, from)? {
        None => fs::rename(rt, to, from),
        Some(_) => Err(io::Error::from(ErrorKind::AlreadyExists)),
    }
}

fn flaw_of(synced: io::Result<()>) -> Option<MoveFlaw> {
    match synced {
        Ok(()) => None,
        Err(reason) => Some(MoveFlaw::Unsynced(reason)),
    }
}

/// Finishes the interrupted move of a locked file.
pub(super) fn finish_move<R: FolderSystem>(
    rt: &R,
    file: &ReelFile,
    stack: &str,
    bin: &str,
) -> Result<Option<MoveFlaw>, Refusal> {
    let folders = open_folders(rt, stack, bin)?;
    match leave_stack(rt, file, &folders) {
        Ok(flaw) => Ok(flaw),
        Err(left) => Err(left.refusal(file, bin)),
    }
}
