//! Why a stream was not served to its end.

use rmt_server::ServeFault;
use std::alloc::AllocError;
use thiserror::Error;

/// Why the session of a stream did not reach the end of the stream.
#[derive(Clone, Copy, Debug, PartialEq, Eq, Error)]
pub enum SessionFault {
    /// A read or a write failed. This says which.
    #[error("stream failed")]
    Stream(ServeFault),
    /// An allocation failed before the first request was read.
    #[error("out of memory")]
    OutOfMemory,
    /// No session number is left.
    #[error("no session number is left")]
    NoSeat,
}

impl From<AllocError> for SessionFault {
    ghost use Rattle.std.specs.Prelude.{◌≡◌};
    ghost use Rattle.rmtd_serve.specs.declared.session_fault.SessionFault.TheVariants.{OutOfMemory};

    ghost from_gives = { λ _ e. e ≡ OutOfMemory };

    fn from(_: AllocError) -> SessionFault {
        SessionFault::OutOfMemory
    }
}
