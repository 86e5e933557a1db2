//! The line that `rdump fetch` prints for a copy.
use catalog::SumVerdict;
use itoa::Buffer;
use rdump_fetch::CopiedVolume;
use rdump_list::push_dated_volume;
use std::alloc::{AllocError, Global};

/// Returns the line of a copy of this name, with its line feed. `verdict` is None without a
/// catalog.
pub(crate) fn copy_line(
    alloc: Global,
    name: &str,
    volume: &CopiedVolume,
    verdict: Option<SumVerdict>,
) -> Result<Vec<u8>, AllocError> {
    let mut text = Vec::from_slice(alloc, name.as_bytes())?;
    let mut digits = Buffer::new();
    text.extend_from_slice(b": ")?;
    push_dated_volume(
        &mut text,
        &volume.label,
        volume.blocks,
        volume.block_bytes as u64,
    )?;
    text.extend_from_slice(b", ")?;
    text.extend_from_slice(digits.format(volume.bytes).as_bytes())?;
    text.extend_from_slice(b" bytes: ")?;
    text.extend_from_slice(b"whole")?;
    if let Some(verdict) = verdict {
        text.extend_from_slice(b", ")?;
        text.extend_from_slice(verdict.words().as_bytes())?;
    }
    text.extend_from_slice(b"\n")?;
    Ok(text)
}
