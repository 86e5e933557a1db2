//! The tape server.
#![tactic(auto)]

use rmt_wire::Counted;
use rmtd_serve::{Begun, Connections, ErrorLog, ListenerSetup, close_table, serve_many, start};
use std::io;
use std::process::ExitCode;

/// Runs the server with its arguments, and exits with its status.
///
/// It starts the threads of the connections itself, because the runtime allows threads only in
/// `main`. After the last connection has ended, it closes the table of the drives' holders.
fn main(rt: HostRuntime) -> io::Result<ExitCode> {
    let mut input = Counted::new(rt.stdin());
    let mut output = Counted::new(rt.stdout());
    let (listener, listener_setup) = match start(&rt, &mut input, &mut output)? {
        Begun::End(status) => return Ok(ExitCode::from(status.code())),
        Begun::Serve(listener, listener_setup) => (listener, listener_setup),
    };
    let ListenerSetup {
        left,
        idle,
        table,
        seats,
        stacks,
        start,
    } = listener_setup;
    let log = ErrorLog {
        rt: &rt,
        seat: None,
        start,
    };
    let connections = Connections::new(&rt, &listener, left, idle, log);
    let (connections, seats) = serve_many(&rt, rt.alloc(), connections, &table, seats, stacks);
    close_table(table, seats);
    Ok(ExitCode::from(connections.status().code()))
}
