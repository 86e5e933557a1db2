//! The program `rsim`.
ghost use Rattle.std.specs.Prelude.{◌≡◌, ◌⊎◌, OnErr, IfOk};
ghost use Rattle.console.specs.declared.status.ExitStatus.TheVariants.{StartupError, Success};
ghost use Rattle.rsim_schedule.specs.Ending.{IsRsim};

use crate::arguments::file_in;
use crate::running::schedule;
use clap::error::ErrorKind;
use console::ExitStatus;
use rmt_wire::Counted;
use std::io::Write;
use std::rt::Files;
use std::{fs, io};

/// Runs the program `rsim`: runs the schedule in the file that the arguments name, and prints on
/// `out` as `schedule` does. The first argument is the name of the program itself.
///
/// Returns the exit status of the schedule. If the arguments are wrong or the file cannot be read,
/// it prints one line on standard error and returns `StartupError`. It does the same if parsing the
/// arguments runs out of memory. It prints the help or the version on standard output and returns
/// `Success`, or `StartupError` if that write fails.
///
/// Fails only if an allocation for the list of arguments fails, or if a line cannot be printed on
/// standard error. In both cases no schedule was run.
pub fn rsim<R: Files + Print + Eprint + AllocGlobal, W: Write>(
    rt: &R,
    arguments: &[String],
    out: &mut Counted<W>,
) -> io::Result<ExitStatus>
    // No clause says which argument names the schedule's file, or what the file contains.
    ensures ended { IfOk result (λ status. IsRsim W.contents out.old status out.new) }
    ensures failed { OnErr result (out.new ≡ out.old) }
{
    let mut lent = Vec::new(rt.alloc());
    for argument in arguments {
        lent.push(argument.as_str())?;
    }
    match file_in(rt.alloc(), lent.as_slice()) {
        Ok(file) => run_file(rt, file, out),
        Err(error) => refuse(rt, error),
    }
}

/// Runs the schedule in a file, and returns the exit status.
fn run_file<R: Files + Eprint + AllocGlobal, W: Write>(
    rt: &R,
    file: &str,
    out: &mut Counted<W>,
) -> io::Result<ExitStatus>
    ensures ended { IfOk result (λ status. IsRsim W.contents out.old status out.new) }
    ensures failed { OnErr result (out.new ≡ out.old) }
{
    match fs::read(rt, file) {
        Ok(text) => Ok(schedule(rt.alloc(), &text, out)),
        Err(error) => print_error(rt, file, error),
    }
}

/// Prints what clap returned in place of matches, and returns the exit status. Help or the version
/// is printed on standard output, and one line for wrong arguments on standard error.
fn refuse<R: Print + Eprint>(rt: &R, error: clap::Error) -> io::Result<ExitStatus>
    ensures { IfOk result (λ status. (status ≡ Success) ⊎ (status ≡ StartupError)) }
{
    if error.kind() == ErrorKind::OutOfMemory {
        return print_error(rt, "the words", io::ErrorKind::OutOfMemory.into());
    }
    if error.use_stderr() {
        eprintln!(rt; "rsim: wrong words: one FILE is wanted, see rsim --help")?;
        return Ok(ExitStatus::StartupError);
    }
    match error.print(rt) {
        Ok(()) => Ok(ExitStatus::Success),
        Err(why) => print_error(rt, "standard output", why),
    }
}

/// Prints on standard error what failed and why, and returns the exit status.
fn print_error<R: Eprint>(rt: &R, what: &str, why: io::Error) -> io::Result<ExitStatus>
    ensures { IfOk result (λ status. status ≡ StartupError) }
{
    eprintln!(rt; "rsim: {what}: {why}")?;
    Ok(ExitStatus::StartupError)
}
