//! The steps of an attempt. Each is one request.
ghost use Rattle.std.specs.Prelude.{◌≡◌};
ghost use Rattle.rmt_wire.specs.Lent.{plain_wanted};
ghost use Rattle.dump_client.specs.Script.{number_of, wanted_of};

use dump_run::LABEL_BYTES;
use rmt_wire::Wanted;
use rmt_wire::mtio::{MTOFFL, MTREW, MTWEOF};

/// A tape operation (mtio) of count 1. The tape is rewound before the look, and again after it.
/// `Mark` and `Unload` carry the first block that is not in the volume.
#[derive(Clone, Copy, PartialEq, Eq)]
pub(crate) enum TapeOp {
    Rewind,
    RewindAgain,
    Mark(u32),
    Unload(u32),
}

impl TapeOp {
    pub(crate) fn number(self) -> u32
        ensures { result ≡ number_of self }
    {
        match self {
            TapeOp::Rewind | TapeOp::RewindAgain => MTREW,
            TapeOp::Mark(_) => MTWEOF,
            TapeOp::Unload(_) => MTOFFL,
        }
    }
}

/// Blocks are numbered from 0 in the run.
#[derive(Clone, Copy, PartialEq, Eq)]
pub(crate) enum Step {
    Open,
    Operation(TapeOp),
    Look,
    Label,
    Block(u32),
    Close,
}

impl Step {
    /// Returns the kind of reply that the step waits for.
    pub(crate) fn wanted(self) -> Wanted
        ensures { plain_wanted result ≡ wanted_of self }
    {
        match self {
            Step::Look => Wanted::Data(LABEL_BYTES as u32),
            _ => Wanted::Number,
        }
    }
}
