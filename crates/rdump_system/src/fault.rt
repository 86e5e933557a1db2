//! Prints errors.
ghost use Rattle.std.specs.Prelude.{◌≡◌};
ghost use Rattle.console.specs.declared.status.ExitStatus.TheVariants.{StartupError};

use console::{ExitStatus, plain};
use std::fmt::Display;
use std::io::{self, ErrorKind};

/// The message for a bad dumpdates file.
pub const NO_DUMPDATES: &str = "it is no dumpdates file";

/// The message for a bad catalog.
pub const NO_CATALOG: &str = "it is no catalog";

/// Prints what failed and why.
pub fn print_fault<R: Eprint, W: Display + Drop>(rt: &R, what: &str, why: W) -> ExitStatus
    ensures { result ≡ StartupError }
{
    let what = plain(what);
    let _ = eprintln!(rt; "rdump: {what}: {why}");
    ExitStatus::StartupError
}

/// Prints that a file is no dumpdates file, and what is wrong with its first bad line if `line`
/// says so.
pub fn report_no_dates<R: Eprint, L: Display + Drop>(
    rt: &R,
    path: &str,
    line: Option<L>,
) -> ExitStatus
    ensures { result ≡ StartupError }
{
    let status = print_fault(rt, path, NO_DUMPDATES);
    if let Some(line) = line {
        print_fault(rt, path, line);
    }
    status
}

/// Prints an error. If an allocation failed, prints `out of memory` on standard output instead.
pub fn report<R: Eprint + Print>(rt: &R, what: &str, error: io::Error) -> ExitStatus
    ensures { result ≡ StartupError }
{
    if error.kind() == ErrorKind::OutOfMemory {
        return report_no_memory(rt);
    }
    print_fault(rt, what, error)
}

/// Prints `out of memory` on standard output.
pub fn report_no_memory<R: Print>(rt: &R) -> ExitStatus
    ensures { result ≡ StartupError }
{
    let _ = println!(rt; "out of memory");
    ExitStatus::StartupError
}

/// Prints that standard output could not be written.
pub fn report_unwritten<R: Eprint>(rt: &R, status: ExitStatus) -> ExitStatus
    ensures { result ≡ status }
{
    let _ = eprintln!(rt; "rdump: standard output could not be written");
    status
}

/// Prints the error of a file or a connection.
pub fn report_failed<R: Eprint>(
    rt: &R,
    what: &str,
    error: &io::Error,
    status: ExitStatus,
) -> ExitStatus
    ensures { result ≡ status }
{
    print_fault(rt, what, *error);
    status
}
