//! Puts a text in place of a file, through a new file.

use crate::lock_file::{LockFile, of_new};
use crate::open_file::{create_numbered, remove_own};
use crate::replaced_file::Form;
use std::alloc::Global;
use std::fs::{self, File};
use std::io::{self, ErrorKind, Write};
use std::os::fd::AsFd;
use std::os::unix::fs::{MetadataExt, fchown};
use std::path::PathBuf;
use std::rt::Files;

/// Writes the text to a new file, syncs it and renames it, if this run still has the lock. The new
/// file has the old name, `.new.` and the first free number from 1 on.
///
/// After an error the file at `named` is as it was, and the new file is removed.
pub(crate) fn put_text<R: Files<File = File>>(
    lock: &LockFile<'_, R>,
    alloc: Global,
    named: &PathBuf,
    form: Form,
    text: &[u8],
) -> io::Result<File> {
    let rt = lock.system();
    let (path, mut file) = create_beside(rt, alloc, named, form)?;
    take_rights(rt, named, form, &file);
    match place(lock, path.as_str(), named, &mut file, text) {
        Ok(()) => Ok(file),
        Err(error) => {
            let _ = remove_own(rt, path.as_str(), &file);
            Err(error)
        }
    }
}

fn place<R: Files<File = File>>(
    lock: &LockFile<'_, R>,
    path: &str,
    named: &PathBuf,
    file: &mut File,
    text: &[u8],
) -> io::Result<()> {
    write_synced(file, text)?;
    lock.check()?;
    fs::rename(lock.system(), path, named)
}

/// Creates a new file, as `put_text` does, and removes it.
pub(crate) fn try_new<R: Files<File = File>>(
    rt: &R,
    alloc: Global,
    named: &PathBuf,
    form: Form,
) -> io::Result<()> {
    let (path, file) = create_beside(rt, alloc, named, form)?;
    remove_own(rt, path.as_str(), &file)?;
    Ok(())
}

fn create_beside<R: Files<File = File>>(
    rt: &R,
    alloc: Global,
    named: &PathBuf,
    form: Form,
) -> io::Result<(String, File)> {
    let named = named.as_path().as_str();
    let before = format!(in alloc; "{named}.new.")?;
    match create_numbered(rt, alloc, before.as_str(), 1, form.mode()) {
        Ok(Some(created)) => Ok(created),
        Ok(None) => {
            let error = "its .new.1 to .new.1000 are taken: remove these files";
            Err(io::Error::new(ErrorKind::AlreadyExists, error))
        }
        Err(error) => Err(of_new(alloc, error)),
    }
}

/// Gives the new file the owner and the group of the old one and, if it is shared, its permissions,
/// as far as the system allows.
fn take_rights<R: Files<File = File>>(rt: &R, named: &PathBuf, form: Form, file: &File) {
    let Ok(found) = fs::metadata(rt, named) else {
        return;
    };
    let (owner, group) = (found.uid(), found.gid());
    if fchown(file.as_fd(), Some(owner), Some(group)).is_err() {
        let _ = fchown(file.as_fd(), None, Some(group));
    }
    if form == Form::Shared {
        let _ = file.set_permissions(found.permissions());
    }
}

fn write_synced(file: &mut File, text: &[u8]) -> io::Result<()> {
    file.write_all(text)?;
    file.sync_all()
}
