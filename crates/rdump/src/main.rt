//! The dump client.
#![tactic(auto)]

use rdump_commands::rdump;
use std::io::IsTerminal;
use std::process::ExitCode;

/// Runs the client with its arguments, and exits with its status.
fn main(rt: HostRuntime) -> ExitCode {
    let stderr = rt.stderr();
    let terminal = stderr.is_terminal().then_some(stderr);
    ExitCode::from(rdump(&rt, terminal).code())
}
