//! Reads the lines of counts in a checkpoint.
ghost use Rattle.std.specs.Prelude.{◌≡◌, ◌≤◌, length};
ghost use Rattle.dump_run.specs.CheckpointParts.{AreCounts};

use super::field::count_field;
use super::head::HEAD_LINES;
use crate::{ResumeFault, VolumeCount};
use std::alloc::Global;

pub(super) fn read_counts(alloc: Global, bytes: &[u8]) -> Result<Vec<VolumeCount>, ResumeFault>
    ensures { AreCounts bytes.now result }
{
    let mut counts = Vec::new(alloc);
    let mut rest = bytes;
    while !rest.is_empty() {
        let Some((count, more)) = count_field(rest) else {
            return Err(ResumeFault::BadLine(HEAD_LINES + counts.len() + 1));
        };
        if counts.push(count).is_err() {
            return Err(ResumeFault::OutOfMemory);
        }
        rest = more;
    }
    Ok(counts)
}
