//! The exit statuses of `rmtd`.
ghost use Rattle.std.specs.Prelude.{◌≡◌};
ghost use Rattle.rmtd_serve.specs.Status.{exit_code, exit_status};

use crate::session_fault::SessionFault;
use rmt_server::Served;

/// The exit status of `rmtd`.
#[derive(Clone, Copy, Debug, PartialEq, Eq)]
pub enum ExitStatus {
    /// The input ended between two requests, all connections were served, or help or the version
    /// was printed.
    Ended,
    /// The server could not start, a stream failed, or the listener can never accept again.
    Failed,
    /// The input ended within a request.
    CutOff,
    /// The input has bytes that are not a request.
    Malformed,
}

impl ExitStatus {
    /// Returns the exit status of `rmtd --stdio` for the given end of a stream.
    pub fn of(ending: Result<Served, SessionFault>) -> ExitStatus
        ensures { result ≡ exit_status ending }
    {
        match ending {
            Ok(Served::End) => ExitStatus::Ended,
            Err(_) => ExitStatus::Failed,
            Ok(Served::Truncated) => ExitStatus::CutOff,
            Ok(Served::Broken(_)) => ExitStatus::Malformed,
        }
    }

    /// Returns the number of the exit status: 0 for `Ended`, 1 for `Failed`, 2 for `CutOff` and 3
    /// for `Malformed`.
    pub fn code(self) -> u8
        ensures { result ≡ exit_code self }
    {
        match self {
            ExitStatus::Ended => 0,
            ExitStatus::Failed => 1,
            ExitStatus::CutOff => 2,
            ExitStatus::Malformed => 3,
        }
    }
}
