//! How a dump ends.
ghost use Rattle.std.specs.Prelude.{◌≡◌};
ghost use Rattle.rdump_net.specs.Lines.{conclusion_status};

use console::ExitStatus;

/// How a dump ended.
#[derive(Clone, Copy, Debug, PartialEq, Eq)]
pub enum Conclusion {
    /// The run is finished, and every line was printed.
    Complete,
    /// The dump was abandoned, and every line was printed.
    Abandoned,
    /// The observer answered `Leave`: the dump ended at once, and can be resumed.
    Left,
    /// A line could not be printed.
    PrintFailed,
    /// The checkpoint could not be kept.
    Unkept,
}

impl Conclusion {
    /// Returns the exit status of `rdump dump`: `Success` if the dump is complete, else `Abnormal`.
    pub fn status(self) -> ExitStatus
        ensures { result ≡ conclusion_status self }
    {
        match self {
            Conclusion::Complete => ExitStatus::Success,
            _ => ExitStatus::Abnormal,
        }
    }
}

/// How a dump ended, with all that follows its conclusion.
#[derive(Clone, Copy, Debug, PartialEq, Eq)]
pub struct DumpEnd {
    /// How the dump itself ended.
    pub conclusion: Conclusion,
    /// The exit status of `rdump dump`: `Success` if the dump is complete, and the catalog,
    /// dumpdates and the checkpoint are as they are to be. `Abnormal` otherwise.
    pub status: ExitStatus,
}
