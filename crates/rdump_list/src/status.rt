//! The exit statuses of `rdump ls`.
ghost use Rattle.std.specs.Prelude.{◌≡◌};
ghost use Rattle.rdump_list.specs.Status as spec;
ghost use Rattle.rdump_list.specs.Status.{list_status};

use catalog::SumVerdict;
use console::ExitStatus;

/// A failure to read or print takes precedence over what is not whole.
pub(crate) fn status_of(is_done: bool, is_whole: bool) -> ExitStatus
    ensures { result ≡ list_status is_done is_whole }
{
    match (is_done, is_whole) {
        (false, _) => ExitStatus::StartupError,
        (true, false) => ExitStatus::Abnormal,
        (true, true) => ExitStatus::Success,
    }
}

/// Only a sum that differs or is not known fails the list.
pub(crate) fn is_passed(verdict: Option<SumVerdict>) -> bool
    ensures { result ≡ spec.is_passed verdict }
{
    match verdict {
        Some(SumVerdict::Differs | SumVerdict::Unknown) => false,
        Some(SumVerdict::Equal | SumVerdict::Anew | SumVerdict::Void) | None => true,
    }
}
