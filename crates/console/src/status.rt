//! The exit status of a program.
ghost use Rattle.std.specs.Prelude.{◌≡◌};
ghost use Rattle.console.specs.Status.{status_code};

/// How a program ended, as in dump(8).
#[derive(Clone, Copy, Debug, PartialEq, Eq)]
pub enum ExitStatus {
    /// Everything was done.
    Success,
    /// The work could not start: wrong arguments, or a file that cannot be used.
    StartupError,
    /// The work started, but not all was done.
    Abnormal,
}

impl ExitStatus {
    /// Returns the exit status: 0 for `Success`, 1 for `StartupError` and 3 for `Abnormal`.
    pub fn code(self) -> u8
        ensures { result ≡ status_code self }
    {
        match self {
            ExitStatus::Success => 0,
            ExitStatus::StartupError => 1,
            ExitStatus::Abnormal => 3,
        }
    }
}
