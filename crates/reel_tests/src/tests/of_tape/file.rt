//! A medium in a file, by tables of calls.

use super::medium_calls::{DONE, MediumCall, WantedOfMedium, medium_answers};
use reel_files::FileMedium;
use std::fs::{self, File, OpenOptions};
use std::test::Fail;
use std::{io, process};

/// Calls of a medium in an empty file. The file has `axyz` at the end.
static ON_AN_EMPTY_FILE: &[WantedOfMedium] = &[
    (MediumCall::Append(b"abc"), DONE),
    (MediumCall::Append(b"de"), DONE),
    (MediumCall::Len, Ok((5, b""))),
    (MediumCall::ReadAt(1, 3), Ok((3, b"bcd"))),
    (MediumCall::ReadAt(3, 6), Ok((2, b"de...."))),
    (MediumCall::ReadAt(5, 6), Ok((0, b"......"))),
    (MediumCall::Cut(9), DONE),
    (MediumCall::Len, Ok((5, b""))),
    (MediumCall::Cut(1), DONE),
    (MediumCall::Append(b"xyz"), DONE),
    (MediumCall::Failures, Ok((0, b""))),
];

/// Frames and bytes, each of which may be empty, are appended to an empty file. Then reads of four
/// bytes cross the edge of the window, and are short at the end. At last all bytes are cut off.
static FRAMED: &[WantedOfMedium] = &[
    (MediumCall::AppendFramed(b"()", b"abc"), DONE),
    (MediumCall::AppendFramed(b"", b"def"), DONE),
    (MediumCall::AppendFramed(b"<>", b""), DONE),
    (MediumCall::AppendFramed(b"", b""), DONE),
    (MediumCall::Len, Ok((14, b""))),
    (MediumCall::ReadAt(0, 14), Ok((14, b"()abc()def<><>"))),
    (MediumCall::Failures, Ok((0, b""))),
    (MediumCall::ReadAt(0, 4), Ok((4, b"()ab"))),
    (MediumCall::ReadAt(4, 4), Ok((4, b"c()d"))),
    (MediumCall::ReadAt(5, 4), Ok((4, b"()de"))),
    (MediumCall::ReadAt(10, 4), Ok((4, b"<><>"))),
    (MediumCall::ReadAt(12, 4), Ok((2, b"<>.."))),
    (MediumCall::ReadAt(14, 4), Ok((0, b"...."))),
    (MediumCall::ReadAt(2, 4), Ok((4, b"abc("))),
    (MediumCall::Cut(0), DONE),
];

/// Makes a new file at this path, open to read and to append.
fn new_file(rt: &HostRuntime, path: &str) -> io::Result<File> {
    OpenOptions::new()
        .read(true)
        .append(true)
        .create_new(true)
        .open(rt, path)
}

/// Returns the path of a file that no other test uses.
fn new_path(rt: &HostRuntime) -> Result<String, Fail> {
    let id = process::id(rt.process());
    Ok(format!(in rt.alloc(); "file_medium_{id}")?)
}

/// Whether a medium in a new file gives the expected results, and the file has 4 bytes after a
/// sync.
fn new_file_answers(medium: &mut FileMedium) -> Result<bool, Fail> {
    let answered = medium_answers(medium, FRAMED) && medium_answers(medium, ON_AN_EMPTY_FILE);
    medium.sync()?;
    Ok(answered && medium.file().metadata()?.len() == 4)
}

/// Runs `new_file_answers` with a new file at this path.
fn file_of_path_answers(rt: &HostRuntime, path: &str) -> Result<bool, Fail> {
    let mut medium = FileMedium::new(new_file(rt, path)?);
    new_file_answers(&mut medium)
}

#[test]
fn stands_on_a_file(rt: HostRuntime) -> Result<(), Fail> {
    let path = new_path(&rt)?;
    assert!(&rt; file_of_path_answers(&rt, path.as_str())?);
    fs::remove_file(&rt, path.as_str())?;
    Ok(())
}
