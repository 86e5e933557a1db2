//! The simulator of a dump client, a tape server and other clients.
#![tactic(auto)]

use console::ExitStatus;
use rmt_wire::Counted;
use rsim_schedule::rsim;
use std::process::ExitCode;
use std::{env, io};

fn main(rt: HostRuntime) -> ExitCode {
    let mut out = Counted::new(rt.stdout());
    let status = match arguments(&rt) {
        // An error could not be printed, or an allocation failed.
        Ok(arguments) => rsim(&rt, &arguments, &mut out).unwrap_or(ExitStatus::StartupError),
        Err(error) => {
            let _ = eprintln!(rt; "rsim: the words could not be read: {error}");
            ExitStatus::StartupError
        }
    };
    ExitCode::from(status.code())
}

/// Returns the arguments of the program, with its own name first.
fn arguments(rt: &HostRuntime) -> io::Result<Vec<String>> {
    let mut arguments = Vec::new(rt.alloc());
    for argument in env::args(rt)? {
        arguments.push(argument)?;
    }
    Ok(arguments)
}
