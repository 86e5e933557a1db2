//! The client that dumps a payload.
ghost use Rattle.std.specs.Prelude.{◌≡◌, [], IfOk};
ghost use Rattle.dump_client.specs.Standing.{standing};
ghost use Rattle.dump_client.specs.declared.stage.Stage.TheVariants as stages;
ghost use Rattle.dump_run.specs.Run.{IsRunOf};
ghost use Rattle.dump_files.specs.Payload.{blocks_for, line_run, IsRunsPayload};

use crate::PayloadFile;
use dump_client::{Client, Run, RunFault};
use rdump_args::DumpLine;
use std::alloc::{AllocError, Global};
use tape::Medium;
use volume_check::Summed;

/// Returns the run that the arguments describe for this payload. `date` is the date of the dump and
/// `since` the date of the dump that it builds on, both in seconds since 1970, UTC.
///
/// Fails with the first limit of a run that is violated.
pub fn run_of<M: Medium + Drop>(
    line: &DumpLine<'_>,
    date: u64,
    since: u64,
    payload: &PayloadFile<M>,
) -> Result<Run, RunFault>
    ensures { IsRunOf (line_run line.now date since payload.now.len) result }
{
    let device = line.device.as_bytes();
    let blocks = block_count(payload.len(), line.block);
    Run::new(device, line.fs, line.level, date, since, line.block, blocks)
}

/// Makes the client that dumps this payload of the run, and has counted no volume. Its source sums
/// each volume if `is_summed` is true.
pub fn dumper_of<M: Medium + Drop>(
    alloc: Global,
    run: Run,
    payload: PayloadFile<M>,
    is_summed: bool,
) -> Result<Client<Summed<PayloadFile<M>>>, AllocError>
    requires { IsRunsPayload run payload }
    // No clause says what `is_summed` does.
    ensures at { IfOk result (λ c. c.at ≡ standing run [] stages.Ready) }
    ensures source { IfOk result (λ c. c.source ≡ payload) }
{
    let source = Summed::new(payload, is_summed);
    Client::new(alloc, run, source)
}

fn block_count(bytes: u64, block_bytes: u64) -> u64
    ensures { result ≡ blocks_for block_bytes bytes }
{
    if block_bytes == 0 {
        return 0;
    }
    bytes.div_ceil(block_bytes)
}
