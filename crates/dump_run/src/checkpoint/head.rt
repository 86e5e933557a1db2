//! Reads the lines of the run in a checkpoint.
ghost use Rattle.dump_run.specs.CheckpointParts.{IsHead};

use super::field::{device_field, name_field, number_field, title};
use crate::dump_id::DumpId;
use crate::run::LAST_LEVEL;
use crate::{BLOCKS_LIMIT, ResumeFault, Run};
use dumpdates::LAST_SECOND;
use rmt_wire::RECORD_LIMIT;

/// The number of lines for the run: the title and seven fields.
pub(super) const HEAD_LINES: usize = 8;

const BLOCK_LIMIT: u64 = RECORD_LIMIT as u64;

const LAST_BLOCK: u64 = BLOCKS_LIMIT as u64;

pub(super) fn read_head(bytes: &[u8]) -> Result<(Run, &[u8]), ResumeFault>
    ensures { IsHead bytes.now result }
{
    let Some(rest) = title(bytes) else {
        return Err(ResumeFault::BadLine(1));
    };
    let Some((device, rest)) = device_field(rest) else {
        return Err(ResumeFault::BadLine(2));
    };
    let Some((name, rest)) = name_field(rest, b"fs ") else {
        return Err(ResumeFault::BadLine(3));
    };
    let Some((level, rest)) = number_field(rest, b"level ", 0, LAST_LEVEL) else {
        return Err(ResumeFault::BadLine(4));
    };
    let Some((date, rest)) = number_field(rest, b"date ", 0, LAST_SECOND) else {
        return Err(ResumeFault::BadLine(5));
    };
    let Some((since, rest)) = number_field(rest, b"since ", 0, LAST_SECOND) else {
        return Err(ResumeFault::BadLine(6));
    };
    let Some((block_bytes, rest)) = number_field(rest, b"block ", 1, BLOCK_LIMIT) else {
        return Err(ResumeFault::BadLine(7));
    };
    let Some((block_count, rest)) = number_field(rest, b"blocks ", 0, LAST_BLOCK) else {
        return Err(ResumeFault::BadLine(8));
    };
    let id = DumpId::from_parts(name, level, date, since);
    let run = Run::from_parts(device, id, block_bytes, block_count);
    Ok((run, rest))
}
