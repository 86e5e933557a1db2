//! Reads files to their end, if that is near.
ghost use Rattle.std.specs.Prelude.{◌≡◌, ◌≤◌, IfOk, length};
ghost use Rattle.std.specs.IoError.{error_kind};

use crate::open_file::{exchanged, is_one};
use std::alloc::Global;
use std::fs::{self, File, Metadata};
use std::io::{self, ErrorKind, Read};
use std::os::unix::fs::{FileTypeExt, MetadataExt};
use std::rt::Files;

const MOST_BYTES: u64 = 256 << 20;

/// Reads a whole file that an operator names. It may be a pipe or the null device, but no other
/// device, which may have no end.
///
/// Fails with `InvalidInput` if it is another device or has more than 256 MiB.
pub fn read_named<R: Files<File = File>>(rt: &R, alloc: Global, path: &str) -> io::Result<Vec<u8>>
    ensures { IfOk result (λ bytes. length bytes.items ≤ 268435456) }
{
    let found = fs::metadata(rt, path)?;
    let kind = found.file_type();
    if kind.is_block_device() || (kind.is_char_device() && !is_null(rt, &found)) {
        return Err(no_plain_file());
    }
    read_limited(alloc, &mut File::open(rt, path)?)
}

/// Reads an open file from its current position. Fails with `InvalidInput` if it has more than 256
/// MiB.
pub fn read_limited(alloc: Global, file: &mut File) -> io::Result<Vec<u8>>
    ensures { IfOk result (λ bytes. length bytes.items ≤ 268435456) }
{
    if file.metadata()?.len() > MOST_BYTES {
        return Err(too_long());
    }
    let mut bytes = Vec::new(alloc);
    file.by_ref().take(MOST_BYTES + 1).read_to_end(&mut bytes)?;
    if bytes.len() as u64 > MOST_BYTES {
        return Err(too_long());
    }
    Ok(bytes)
}

/// Reads a whole file, or returns no bytes if the file does not exist or is the null device.
///
/// Fails with `InvalidInput` if something else than a regular file is there, which is not opened.
/// The error is the same if the file was exchanged before it was opened, or has more than 256 MiB.
pub fn read_or_empty<R: Files<File = File>>(
    rt: &R,
    alloc: Global,
    path: &str,
) -> io::Result<Vec<u8>>
    ensures { IfOk result (λ bytes. length bytes.items ≤ 268435456) }
{
    match open_if_there(rt, path)? {
        Some(mut file) => read_limited(alloc, &mut file),
        None => Ok(Vec::new(alloc)),
    }
}

/// Reads an open file from the current position to its end. Returns none if it is a regular file,
/// and the bytes read or its length afterwards differ from its length before.
pub fn read_steady(alloc: Global, mut file: File) -> io::Result<Option<Vec<u8>>> {
    let before = file.metadata()?;
    let mut bytes = Vec::new(alloc);
    file.read_to_end(&mut bytes)?;
    let len = bytes.len() as u64;
    let after = file.metadata()?;
    let steady = !before.is_file() || (before.len() == after.len() && before.len() == len);
    Ok(steady.then_some(bytes))
}

/// Checks that a regular file is at this path, or nothing. Fails with `InvalidInput` if something
/// else is there.
pub fn check_plain<R: Files<File = File>>(rt: &R, path: &str) -> io::Result<()> {
    match fs::metadata(rt, path) {
        Ok(found) if found.is_file() => Ok(()),
        Ok(_) => Err(no_plain_file()),
        Err(error) if error.kind() == ErrorKind::NotFound => Ok(()),
        Err(error) => Err(error),
    }
}

/// Whether this is the metadata of the null device. False if that device cannot be found.
pub fn is_null<R: Files<File = File>>(rt: &R, found: &Metadata) -> bool {
    if !found.file_type().is_char_device() {
        return false;
    }
    match fs::metadata(rt, "/dev/null") {
        Ok(null) => null.file_type().is_char_device() && null.rdev() == found.rdev(),
        Err(_) => false,
    }
}

/// Opens a regular file or the null device. Opens nothing else: a pipe would wait for a writer, and
/// another device may have no end.
pub(crate) fn open_if_there<R: Files<File = File>>(rt: &R, path: &str) -> io::Result<Option<File>> {
    match open_plain(rt, path) {
        Ok(file) => Ok(Some(file)),
        Err(error) if error.kind() == ErrorKind::NotFound => Ok(None),
        Err(error) => Err(error),
    }
}

fn open_plain<R: Files<File = File>>(rt: &R, path: &str) -> io::Result<File> {
    let looked = fs::metadata(rt, path)?;
    if !looked.is_file() && !is_null(rt, &looked) {
        return Err(no_plain_file());
    }
    let file = File::open(rt, path)?;
    if looked.is_file() && !is_one(&looked, &file.metadata()?) {
        return Err(exchanged());
    }
    Ok(file)
}

/// Returns the error if something other than a regular file is there.
pub fn no_plain_file() -> io::Error
    ensures { error_kind result ≡ ErrorKind.InvalidInput }
{
    io::Error::new(ErrorKind::InvalidInput, "it is no plain file")
}

fn too_long() -> io::Error {
    io::Error::new(ErrorKind::InvalidInput, "it has more than 256 MiB")
}
