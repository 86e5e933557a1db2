//! The line that is printed for a reel.
use crate::dated::push_dated_volume;
use crate::reel::{ListedReel, Source};
use crate::verdict::{push_count, push_verdict};
use console::plain_char;
use std::alloc::AllocError;
use volume_check::Holding;

/// Appends the line of a reel, without its line feed. The line of a drive's reel has no counts of
/// bytes, records and marks.
pub(crate) fn push_line(text: &mut Vec<u8>, reel: &ListedReel) -> Result<(), AllocError> {
    push_path(text, reel.path.as_str())?;
    text.extend_from_slice(b": ")?;
    let (contents, is_file) = (&reel.contents, matches!(reel.source, Source::File));
    if let Some(volume) = reel.volume() {
        push_dated_volume(
            text,
            &volume.label,
            volume.blocks,
            volume.block_bytes as u64,
        )?;
        text.extend_from_slice(if is_file { b", " } else { b": " })?;
    }
    if is_file {
        if matches!(contents.holding, Holding::Foreign) {
            push_count(text, b"", contents.records, b" records, ")?;
            push_count(text, b"", contents.marks, b" marks, ")?;
        }
        push_count(text, b"", contents.bytes, b" bytes: ")?;
    }
    match reel.source {
        Source::File | Source::Drive => push_verdict(text, contents)?,
        Source::Undetermined(why) => why.push(text)?,
    }
    if let Some(verdict) = reel.sum {
        text.extend_from_slice(b", ")?;
        text.extend_from_slice(verdict.words().as_bytes())?;
    }
    Ok(())
}

/// Appends a path, with `?` for each character that ends a line or controls a terminal.
fn push_path(text: &mut Vec<u8>, path: &str) -> Result<(), AllocError> {
    for letter in path.chars() {
        let mut room = [0; 4];
        let shown = plain_char(letter).encode_utf8(&mut room);
        text.extend_from_slice(shown.as_bytes())?;
    }
    Ok(())
}
