//! The client of a resumed dump.
ghost use Rattle.std.specs.Prelude.{IfErr, IfOk, ◌≡◌};
ghost use Rattle.dump_client.specs.Standing.{IsOver};
ghost use Rattle.dump_run.specs.Run.{AreOfOneDump};
ghost use Rattle.dump_files.specs.Payload.{IsRunsPayload};
ghost use Rattle.dump_files.specs.ResumedDump.{IsResumedDumpFault};

use crate::PayloadFile;
use dump_client::{Client, Run};
use dump_run::Checkpoint;
use std::alloc::Global;
use tape::Medium;
use volume_check::Summed;

/// Why a dump was not resumed.
#[derive(Clone, Copy, Debug, PartialEq, Eq)]
pub enum ResumedDumpFault {
    /// The checkpoint is of another dump.
    OfAnother,
    /// An allocation failed.
    OutOfMemory,
}

/// Makes the client that resumes a dump from its checkpoint. It has the run and the counts of the
/// checkpoint, and is `Finished` if these count all blocks, else `Ready`. `payload` is the payload
/// of `run`. The checkpoint must be of the same dump as `run`: only the dates may differ. The
/// client's source sums each volume if `is_summed` is true.
pub fn resume_dump<M: Medium + Drop>(
    alloc: Global,
    run: &Run,
    checkpoint: Checkpoint,
    payload: PayloadFile<M>,
    is_summed: bool,
) -> Result<Client<Summed<PayloadFile<M>>>, ResumedDumpFault>
    requires { IsRunsPayload run.now payload }
    ensures resumes { IfOk result (λ c. (c.at.run ≡ checkpoint.run) × (c.at.counts ≡ checkpoint.counts)) }
    ensures same_dump { IfOk result (λ c. AreOfOneDump c.at.run run.now) }
    ensures over { IfOk result (λ c. IsOver c.at.run c.at.counts c.at) }
    // No clause says what `is_summed` does.
    ensures source { IfOk result (λ c. c.source ≡ payload) }
    ensures refused { IfErr result (IsResumedDumpFault checkpoint.run run.now) }
{
    if !checkpoint.run().is_same_dump(run) {
        return Err(ResumedDumpFault::OfAnother);
    }
    let source = Summed::new(payload, is_summed);
    match Client::from_checkpoint(alloc, checkpoint, source) {
        Ok(client) => Ok(client),
        Err(_) => Err(ResumedDumpFault::OutOfMemory),
    }
}
