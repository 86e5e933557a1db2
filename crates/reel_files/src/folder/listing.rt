//! Finds the first reel of a folder.

use super::known::{FileId, InBin, known_at, look_in_bin};
use super::lock::take_lock;
use super::refusal::{Refusal, at};
use crate::FolderSystem;
use std::alloc::Global;
use std::fs::{File, OpenOptions};
use std::io::{self, BufRead, BufReader, ErrorKind, Split};

/// How many times one latch lists a folder in which files change meanwhile.
const LIST_TURNS: u32 = 100;

#[derive(Drop)]
struct Listed {
    name: String,
    path: String,
    id: FileId,
}

/// The result of looking up one name, or all names of a folder.
#[derive(Drop)]
enum Seen {
    /// A regular file. For a folder, it is the first one.
    File(Listed),
    NoFile,
    /// A name that was listed is gone, so an earlier name may be new in the folder.
    Gone,
}

#[derive(Drop)]
pub(super) struct Opened {
    pub(super) file: File,
    pub(super) reads_only: bool,
    pub(super) name: String,
    pub(super) path: String,
    pub(super) bin_path: String,
    pub(super) id: FileId,
    pub(super) in_bin: InBin,
}

fn names_in<R: FolderSystem>(rt: &R, folder: &str) -> io::Result<Split<BufReader<R::Dir>, Global>> {
    let path = format!(in rt.alloc(); "{folder}/")?;
    let names = BufReader::new(rt.alloc(), rt.open_dir(path.as_str())?)?;
    Ok(names.split(rt.alloc(), 0))
}

fn text_of(folder: &str, name: Vec<u8>) -> Result<String, Refusal> {
    match String::from_utf8(name) {
        Ok(text) => Ok(text),
        Err(error) => Err(Refusal::of_name(folder, error.as_bytes())),
    }
}

fn is_before(name: &str, first: &Seen) -> bool {
    match first {
        Seen::File(first) => name.as_bytes() < first.name.as_bytes(),
        _ => true,
    }
}

fn look_up<R: FolderSystem>(rt: &R, folder: &str, name: String) -> Result<Seen, Refusal> {
    let path = format!(in rt.alloc(); "{folder}/{name}")?;
    match at(path.as_str(), "stat", known_at(rt, path.as_str()))? {
        Some(known) if known.is_file() => {
            let id = FileId::of(&known);
            Ok(Seen::File(Listed { name, path, id }))
        }
        Some(_) => Ok(Seen::NoFile),
        None => Ok(Seen::Gone),
    }
}

/// Returns the first regular file of the folder, in the order of the names' bytes. Skips names that
/// begin with a dot. Fails also if any other name is not UTF-8.
fn first_file<R: FolderSystem>(rt: &R, folder: &str) -> Result<Seen, Refusal> {
    let mut first = Seen::NoFile;
    for name in at(folder, "open", names_in(rt, folder))? {
        let name = at(folder, "list", name)?;
        if name.starts_with(b".") {
            continue;
        }
        let name = text_of(folder, name)?;
        if !is_before(name.as_str(), &first) {
            continue;
        }
        match look_up(rt, folder, name)? {
            Seen::File(listed) => first = Seen::File(listed),
            Seen::NoFile => {}
            Seen::Gone => return Ok(Seen::Gone),
        }
    }
    Ok(first)
}

/// Opens a file to read and to append, or only to read (`true`) if the system allows no more.
fn open_file<R: FolderSystem>(rt: &R, path: &str) -> io::Result<(File, bool)> {
    let error = match OpenOptions::new().read(true).append(true).open(rt, path) {
        Ok(file) => return Ok((file, false)),
        Err(error) => error,
    };
    match error.kind() {
        ErrorKind::PermissionDenied | ErrorKind::ReadOnlyFilesystem => {
            Ok((File::open(rt, path)?, true))
        }
        _ => Err(error),
    }
}

/// Like `open_file`, but only to read if the bin has another file with its name.
fn open_there<R: FolderSystem>(
    rt: &R,
    path: &str,
    in_bin: InBin,
) -> io::Result<Option<(File, bool)>> {
    let opened = match in_bin {
        InBin::Another => File::open(rt, path).map(|file| (file, true)),
        InBin::Nothing | InBin::SameFile => open_file(rt, path),
    };
    match opened {
        Ok(opened) => Ok(Some(opened)),
        Err(error) if error.kind() == ErrorKind::NotFound => Ok(None),
        Err(error) => Err(error),
    }
}

/// Like `open_there`, and takes the file's lock. Returns `None` if the path does not lead to the
/// file `id`, before or after that.
fn open_locked<R: FolderSystem>(
    rt: &R,
    path: &str,
    id: FileId,
    in_bin: InBin,
) -> Result<Option<(File, bool)>, Refusal> {
    let Some((file, reads_only)) = at(path, "open", open_there(rt, path, in_bin))? else {
        return Ok(None);
    };
    let opened = at(path, "stat", file.metadata())?;
    if !id.is_same_file(&opened) {
        return Ok(None);
    }
    at(path, "lock", take_lock(&file))?;
    match at(path, "stat", known_at(rt, path))? {
        Some(locked) if id.is_same_file(&locked) => Ok(Some((file, reads_only))),
        _ => Ok(None),
    }
}

/// Opens and locks a listed file. Returns `None` if it, or what the bin has under its name, has
/// changed.
fn open_listed<R: FolderSystem>(
    rt: &R,
    listed: Listed,
    bin: &str,
) -> Result<Option<Opened>, Refusal> {
    let Listed { name, path, id } = listed;
    let bin_path = format!(in rt.alloc(); "{bin}/{name}")?;
    let there = bin_path.as_str();
    let in_bin = at(there, "stat", look_in_bin(rt, there, id))?;
    let Some((file, reads_only)) = open_locked(rt, path.as_str(), id, in_bin)? else {
        return Ok(None);
    };
    if at(there, "stat", look_in_bin(rt, there, id))? != in_bin {
        return Ok(None);
    }
    Ok(Some(Opened {
        file,
        reads_only,
        name,
        path,
        bin_path,
        id,
        in_bin,
    }))
}

/// Opens and locks the first reel of the folder. If a file has changed meanwhile, lists the folder
/// again. Gives up after 100 listings.
pub(super) fn open_first<R: FolderSystem>(
    rt: &R,
    folder: &str,
    bin: &str,
) -> Result<Option<Opened>, Refusal> {
    for _ in 0..LIST_TURNS {
        let listed = match first_file(rt, folder)? {
            Seen::File(listed) => listed,
            Seen::NoFile => return Ok(None),
            Seen::Gone => continue,
        };
        if let Some(opened) = open_listed(rt, listed, bin)? {
            return Ok(Some(opened));
        }
    }
    let changed = io::Error::from(ErrorKind::StaleNetworkFileHandle);
    Err(Refusal::new(folder, "list", changed))
}
