//! Reads the arguments, and runs the command that they name.
ghost use Rattle.rdump_commands.specs.Status.{IsHelpStatus};

use crate::{run_dates, run_mt};
use clap::error::ErrorKind;
use console::{ExitStatus, PlainLines};
use file_medium::reserve_std_fds;
use rdump_args::{RdumpLine, rdump_args};
use rdump_cat::run_cat;
use rdump_dump::run_dump;
use rdump_list::run_ls;
use rdump_read::{run_fetch, run_read};
use rdump_system::{ClientSystem, report, report_no_memory, report_unwritten};
use std::convert::AsStr;
use std::env;
use std::io::{self, Write};

/// Runs the command that the arguments of the process name. `terminal` is standard error, if that
/// is a terminal: it shows the progress.
///
/// Returns `Success` if everything was done, and for help and the version. Returns `StartupError`
/// if the command could not begin, because the arguments are wrong or a file cannot be read, for
/// example. Returns `Abnormal` if it ended before it was done.
///
/// Errors are printed on standard error. `out of memory`, and errors before anything is sent, may
/// be on standard output.
///
/// If the process was started without a standard stream, no file that it opens gets the descriptor
/// of that stream.
pub fn rdump<R: ClientSystem, T: Write + Copy + Drop>(rt: &R, terminal: Option<T>) -> ExitStatus {
    reserve_std_fds(rt);
    match arguments(rt) {
        Ok(arguments) => run_arguments(rt, arguments.as_slice(), terminal),
        Err(error) => report(rt, "the words could not be read", error),
    }
}

fn arguments<R: ClientSystem>(rt: &R) -> io::Result<Vec<String>> {
    let mut arguments = Vec::new(rt.alloc());
    for argument in env::args(rt)? {
        arguments.push(argument)?;
    }
    Ok(arguments)
}

/// Runs the command that these arguments name, as `rdump` does. The first is the name of the
/// program.
pub fn run_arguments<R: ClientSystem, S: AsStr, T: Write + Copy + Drop>(
    rt: &R,
    arguments: &[S],
    terminal: Option<T>,
) -> ExitStatus {
    match rdump_args(rt.alloc(), arguments) {
        Ok(RdumpLine::Dump(line)) => run_dump(rt, &line, terminal),
        Ok(RdumpLine::Read(line)) => run_read(rt, line, terminal),
        Ok(RdumpLine::Fetch(line)) => run_fetch(rt, line, terminal),
        Ok(RdumpLine::Cat(line)) => run_cat(rt, &line, terminal),
        Ok(RdumpLine::List(line)) => run_ls(rt, line, terminal),
        Ok(RdumpLine::Mt(line)) => run_mt(rt, line),
        Ok(RdumpLine::Dates { file, asked }) => run_dates(rt, file, asked),
        Err(error) => refuse(rt, error),
    }
}

/// Prints the error, help or the version. An error may quote the arguments, so control characters
/// in it are printed as `?`.
fn refuse<R: ClientSystem>(rt: &R, error: clap::Error) -> ExitStatus
    ensures { IsHelpStatus result }
{
    if error.kind() == ErrorKind::OutOfMemory {
        return report_no_memory(rt);
    }
    if !error.use_stderr() {
        return match error.print(rt) {
            Ok(()) => ExitStatus::Success,
            Err(_) => report_unwritten(rt, ExitStatus::StartupError),
        };
    }
    match format!(in rt.alloc(); "{error}") {
        Ok(text) => {
            let _ = rt.eprint(PlainLines(text.as_str()));
            ExitStatus::StartupError
        }
        Err(_) => report_no_memory(rt),
    }
}
