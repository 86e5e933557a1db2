//! How `rdump cat` ends.
ghost use Rattle.std.specs.Prelude.{◌≡◌};
ghost use Rattle.rdump_cat.specs.Outcome.{cat_status, parts_status, refused_status};

use console::ExitStatus;
use restore::{Gap, Refusal, RestoreFault};

/// Returns the exit status of `rdump cat` after a restore. `is_closed` says whether the reader of
/// standard output closed it: then a failure of the output is `Success`.
///
/// `StartupError` if the output failed otherwise, an allocation failed, a reel could not be read
/// before the first byte was written, or reels of two dumps are wanted. `Abnormal` after any other
/// fault.
pub fn status_of(restored: &Result<(), RestoreFault>, is_closed: bool) -> ExitStatus
    ensures { result ≡ cat_status restored.now is_closed }
{
    match restored {
        Ok(()) => ExitStatus::Success,
        Err(RestoreFault::Output) if is_closed => ExitStatus::Success,
        Err(RestoreFault::Output) => ExitStatus::StartupError,
        Err(RestoreFault::Reel { .. }) => ExitStatus::Abnormal,
        Err(RestoreFault::Refused(refusal)) => status_of_refusal(*refusal),
    }
}

/// Returns the exit status of `rdump cat --partial`: as `status_of`, but `Abnormal` for `Success`.
pub fn status_of_parts(restored: &Result<Vec<Gap>, RestoreFault>, is_closed: bool) -> ExitStatus
    ensures { result ≡ parts_status restored.now is_closed }
{
    match restored {
        Err(RestoreFault::Output) if !is_closed => ExitStatus::StartupError,
        Err(RestoreFault::Refused(refusal)) => status_of_refusal(*refusal),
        Ok(_) | Err(RestoreFault::Output | RestoreFault::Reel { .. }) => ExitStatus::Abnormal,
    }
}

fn status_of_refusal(refusal: Refusal) -> ExitStatus
    ensures { result ≡ refused_status refusal }
{
    match refusal {
        Refusal::OutOfMemory | Refusal::Unreadable { .. } | Refusal::TwoDumps { .. } => {
            ExitStatus::StartupError
        }
        Refusal::NoVolume
        | Refusal::TwoReels { .. }
        | Refusal::TwoSizes { .. }
        | Refusal::Missing { .. }
        | Refusal::MoreVolumes { .. }
        | Refusal::Displaced { .. }
        | Refusal::OtherLength { .. } => ExitStatus::Abnormal,
    }
}
