//! Why reading a volume fails.
use crate::sink::SinkStopped;
use remote_tape::TapeFault;
use thiserror::Error;

/// Why a volume was not read whole.
#[derive(Clone, Copy, Debug, PartialEq, Eq, Error)]
pub enum ReadFault {
    /// A request failed, or there was no connection for the open.
    #[error("{0}")]
    Tape(TapeFault),
    /// The sink stopped the read. It keeps why.
    #[error("the read was stopped")]
    Stopped,
    /// No mark ends the volume: its records reach to the end of the reel.
    #[error("no mark")]
    NoMark,
    /// It could not be determined whether a mark ends the volume.
    #[error("cannot be told")]
    Undetermined,
}

impl From<TapeFault> for ReadFault {
    ghost use Rattle.std.specs.Prelude.{◌≡◌};
    ghost use Rattle.rdump_net.specs.declared.fault.ReadFault.TheVariants.{Tape};

    ghost from_gives = { λ fault e. e ≡ Tape fault };

    fn from(fault: TapeFault) -> ReadFault {
        ReadFault::Tape(fault)
    }
}

impl From<SinkStopped> for ReadFault {
    ghost use Rattle.std.specs.Prelude.{◌≡◌};
    ghost use Rattle.rdump_net.specs.declared.fault.ReadFault.TheVariants.{Stopped};

    ghost from_gives = { λ fault e. e ≡ Stopped };

    fn from(fault: SinkStopped) -> ReadFault {
        let _ = fault;
        ReadFault::Stopped
    }
}
