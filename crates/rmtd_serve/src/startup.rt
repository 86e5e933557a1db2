//! The start of `rmtd`, up to the point where connections are served in parallel.
ghost use Rattle.std.specs.Prelude.{◌≡◌, ◌⊎◌, ◌≤◌, Some, None, IfOk, OnErr, length, map, option_map};
ghost use Rattle.clap.specs.Words.{kind_of};
ghost use Rattle.drives.specs.declared.holds.TheConstants.{DRIVE_LIMIT};
ghost use Rattle.rmtd_args.specs.Drive.{KeepsDriveRules, plain_drive};
ghost use Rattle.rmtd_args.specs.Rmtd.{IsShown};
ghost use Rattle.rmt_server.specs.Stream.{streams, streams_kind};
ghost use Rattle.rmtd_serve.specs.declared.status.ExitStatus.TheVariants.{Ended, Failed};
ghost use Rattle.rmtd_serve.specs.Folders.{stacks_of, AreStacksOf};
ghost use Rattle.rmtd_serve.specs.Status.{exit_status};
ghost use Rattle.rmtd_serve.specs.Stdio.{AreUntouched};
ghost use Rattle.rmtd_serve.specs.Startup.{IsDone, IsBegun, IsStarted, ListensOrEnds};

use crate::connections::Connections;
use crate::error_log::ErrorLog;
use crate::file_limit::log_limit;
use crate::folders::logged_stacks;
use crate::line_start::LineStart;
use crate::listener_setup::ListenerSetup;
use crate::listening::serve_connections;
use crate::memory_server::MemoryServer;
use crate::ready::listener_setup_of;
use crate::session_fault::SessionFault;
use crate::status::ExitStatus;
use crate::stdio::serve_alone;
use crate::tape_server::TapeServer;
use crate::warnings::Warnings;
use clap::Error;
use clap::error::ErrorKind;
use console::{PlainLines, plain};
use file_medium::reserve_std_fds;
use reel_files::{FolderStacks, FolderSystem, Log};
use rmt_server::Served;
use rmt_wire::Counted;
use rmtd_args::{ServerLine, server_line};
use sockets::Listener;
use std::alloc::{AllocError, Global};
use std::env;
use std::fmt::Display;
use std::io::{self, Read, Write};
use std::net::{Net, TcpListener, TcpStream};
use std::rt::Env;

/// The message if the program cannot start.
const NOT_STARTED: &str = "it did not start";

/// The system services that `rmtd` uses, besides its standard streams and its threads.
pub trait ServerSystem: FolderSystem
    + Net<Listener = TcpListener, Stream = TcpStream>
    + Print
    + Eprint
    + Env {}

impl<R> ServerSystem for R
where
    R: FolderSystem + Net<Listener = TcpListener, Stream = TcpStream> + Print + Eprint + Env,
{}

/// The remaining work after the arguments were followed.
#[derive(Drop)]
pub enum Begun<R: FolderSystem + Eprint> {
    /// To end with this status.
    End(ExitStatus),
    /// To serve the connections of this listener in parallel.
    Serve(Listener, ListenerSetup<R>),
}

/// Does what `begin` does, with the program's arguments.
///
/// If the arguments cannot be read, or if an allocation fails at the start, it prints that on
/// standard error and the status is `Failed`. With `--stdio` the start lasts until the first
/// request is read. It fails only if standard error cannot be written.
pub fn start<R: ServerSystem, I: Read, O: Write>(
    rt: &R,
    input: &mut Counted<I>,
    output: &mut Counted<O>,
) -> io::Result<Begun<R>>
    ensures started { IfOk result (IsStarted (streams_kind I.remaining O.contents)
        (streams input.old output.old) (streams input.new output.new)) }
    ensures failed { OnErr result (AreUntouched (streams input.old output.old) (streams input.new output.new)) }
{
    match run_process(rt, input, output) {
        Ok(begun) => Ok(begun),
        Err(error) => report(rt, NOT_STARTED, error),
    }
}

fn run_process<R: ServerSystem, I: Read, O: Write>(
    rt: &R,
    input: &mut Counted<I>,
    output: &mut Counted<O>,
) -> io::Result<Begun<R>>
    ensures started { IfOk result (IsStarted (streams_kind I.remaining O.contents)
        (streams input.old output.old) (streams input.new output.new)) }
    ensures failed { OnErr result (AreUntouched (streams input.old output.old) (streams input.new output.new)) }
{
    match arguments(rt) {
        Ok(arguments) => run_arguments(rt, arguments.as_slice(), input, output),
        Err(error) => report(rt, "the words could not be read", error),
    }
}

/// Returns the program's arguments, its own name first.
fn arguments<R: Env + AllocGlobal>(rt: &R) -> io::Result<Vec<String>> {
    let mut arguments = Vec::new(rt.alloc());
    for argument in env::args(rt)? {
        arguments.push(argument)?;
    }
    Ok(arguments)
}

fn run_arguments<R: ServerSystem, I: Read, O: Write>(
    rt: &R,
    arguments: &[String],
    input: &mut Counted<I>,
    output: &mut Counted<O>,
) -> io::Result<Begun<R>>
    ensures started { IfOk result (IsStarted (streams_kind I.remaining O.contents)
        (streams input.old output.old) (streams input.new output.new)) }
    ensures failed { OnErr result (AreUntouched (streams input.old output.old) (streams input.new output.new)) }
{
    let lent = lent(rt.alloc(), arguments)?;
    begin(rt, lent.as_slice(), input, output)
}

fn lent(alloc: Global, arguments: &[String]) -> Result<Vec<&str>, AllocError> {
    let mut lent = Vec::new(alloc);
    for argument in arguments {
        lent.push(argument.as_str())?;
    }
    Ok(lent)
}

/// Does what the arguments of `rmtd` ask, but leaves it to the caller to serve connections in
/// parallel. The first argument is the name of the program. The standard streams are `input` and
/// `output`; messages are printed on those of the system.
///
/// - With `--stdio` it serves the streams. The status says how they ended (`ExitStatus::of`).
/// - With `--listen` and a drive in memory it serves connections one after the other. The status is
///   `Ended` if all have come, and `Failed` if the listener can never accept again.
/// - With `--listen` and drives in folders, what remains is to serve the connections in parallel.
/// - Help and the version are printed on standard output, and the status is `Ended`.
///
/// In these cases it prints the error on standard error, and the status is `Failed`:
/// - The arguments are wrong, a folder cannot be used, or the server cannot listen at the address.
/// - Standard output cannot be written.
/// - An allocation fails for the arguments, for the listener, or for the session of `--stdio`. In
///   the last case the message is dropped if it cannot be written.
///
/// It fails if another allocation fails or standard error cannot be written. In all these cases
/// neither stream is touched. No file that is opened here or later gets the number of a standard
/// stream.
pub fn begin<R: ServerSystem, I: Read, O: Write>(
    rt: &R,
    arguments: &[&str],
    input: &mut Counted<I>,
    output: &mut Counted<O>,
) -> io::Result<Begun<R>>
    ensures begun { IfOk result
        (IsBegun (streams_kind I.remaining O.contents) (map (λ s. s.now) arguments.now)
        (streams input.old output.old) (streams input.new output.new)) }
    ensures failed { OnErr result (AreUntouched (streams input.old output.old) (streams input.new output.new)) }
{
    reserve_std_fds(rt);
    match server_line(rt.alloc(), arguments) {
        Ok(line) => serve_line(rt, &line, input, output),
        Err(error) => refuse(rt, error),
    }
}

fn serve_line<R: ServerSystem, I: Read, O: Write>(
    rt: &R,
    line: &ServerLine<'_>,
    input: &mut Counted<I>,
    output: &mut Counted<O>,
) -> io::Result<Begun<R>>
    requires { KeepsDriveRules (option_map (λ s. s.now) line.now.bin) (map plain_drive line.now.drives.items) }
    ensures done { IfOk result (IsDone (streams_kind I.remaining O.contents) line.now
        (streams input.old output.old) (streams input.new output.new)) }
    ensures failed { OnErr result (AreUntouched (streams input.old output.old) (streams input.new output.new)) }
{
    let start = LineStart::of(rt)?;
    if let Some(bin) = line.bin
        && !line.drives.is_empty()
    {
        return serve_line_in_folders(rt, line, bin, start, input, output);
    }
    let Some(address) = line.listen else {
        warn_of_bin(rt, line, start)?;
        let ending = serve_alone(rt.alloc(), input, output, line.capacity);
        return Ok(end(rt, ending));
    };
    match listen(rt, address, line, start) {
        Ok(status) => Ok(Begun::End(status)),
        Err(error) => report(rt, address, error),
    }
}

fn serve_line_in_folders<R: ServerSystem, I: Read, O: Write>(
    rt: &R,
    line: &ServerLine<'_>,
    bin: &str,
    start: LineStart,
    input: &mut Counted<I>,
    output: &mut Counted<O>,
) -> io::Result<Begun<R>>
    requires some { 1 ≤ length line.now.drives.items }
    requires same { option_map (λ s. s.now) line.now.bin ≡ Some bin.now }
    requires rules { KeepsDriveRules (Some bin.now) (map plain_drive line.now.drives.items) }
    ensures done { IfOk result (IsDone (streams_kind I.remaining O.contents) line.now
        (streams input.old output.old) (streams input.new output.new)) }
    ensures failed { OnErr result (AreUntouched (streams input.old output.old) (streams input.new output.new)) }
{
    let stacks = stacks_with_warnings(rt, line, bin, start)?;
    if let Some(fault) = stacks.find_fault() {
        return report(rt, fault.folder, fault.reason);
    }
    match line.listen {
        Some(address) => listen_in_folders(rt, address, line, bin, start),
        None => serve_in_folders(rt, line, stacks, input, output),
    }
}

fn stacks_with_warnings<R: ServerSystem>(
    rt: &R,
    line: &ServerLine<'_>,
    bin: &str,
    start: LineStart,
) -> io::Result<FolderStacks<R, Warnings<R>>>
    requires some { 1 ≤ length line.now.drives.items }
    requires few { length line.now.drives.items ≤ DRIVE_LIMIT }
    ensures named { IfOk result (λ s. s ≡ stacks_of line.now.drives.items bin.now line.now.capacity) }
    ensures count { IfOk result (λ s. length s.rows ≡ length line.now.drives.items) }
{
    let log = Warnings::new(rt.clone()?, start)?;
    let drives = line.drives.as_slice();
    Ok(logged_stacks(rt.clone()?, drives, bin, line.capacity, log)?)
}

fn serve_in_folders<R: ServerSystem, I: Read, O: Write>(
    rt: &R,
    line: &ServerLine<'_>,
    stacks: FolderStacks<R, Warnings<R>>,
    input: &mut Counted<I>,
    output: &mut Counted<O>,
) -> io::Result<Begun<R>>
    requires streams { line.now.listen ≡ None }
    requires some { 1 ≤ length line.now.drives.items }
    requires few { length line.now.drives.items ≤ DRIVE_LIMIT }
    requires named { AreStacksOf line.now stacks }
    requires enough { length stacks.rows ≤ length line.now.drives.items }
    ensures done { IfOk result (IsDone (streams_kind I.remaining O.contents) line.now
        (streams input.old output.old) (streams input.new output.new)) }
    ensures failed { OnErr result (AreUntouched (streams input.old output.old) (streams input.new output.new)) }
{
    let mut server = TapeServer::new(rt.alloc(), line.drives.len(), stacks)?;
    let ending = server.serve(input, output);
    Ok(end(rt, ending))
}

/// Listens at this address, for drives in folders. It allocates all memory for the start before it
/// prints that it listens, so a client that waits for that line can be served.
fn listen_in_folders<R: ServerSystem>(
    rt: &R,
    address: &str,
    line: &ServerLine<'_>,
    bin: &str,
    start: LineStart,
) -> io::Result<Begun<R>>
    requires some { 1 ≤ length line.now.drives.items }
    requires few { length line.now.drives.items ≤ DRIVE_LIMIT }
    requires same { option_map (λ s. s.now) line.now.bin ≡ Some bin.now }
    requires rules { KeepsDriveRules (Some bin.now) (map plain_drive line.now.drives.items) }
    ensures { IfOk result (ListensOrEnds line.now) }
{
    let log = log_of(rt, start);
    log_limit(rt, &log, line.capacity)?;
    let listener_setup = listener_setup_of(rt, line, bin, start)?;
    match bind(rt, address, &log) {
        Ok(listener) => Ok(Begun::Serve(listener, listener_setup)),
        Err(error) => report(rt, address, error),
    }
}

/// If there was no session, prints the reason, or drops it if it cannot be printed.
fn end<R: ServerSystem>(rt: &R, ending: Result<Served, SessionFault>) -> Begun<R>
    ensures { result ≡ Begun.End (exit_status ending) }
{
    match ending {
        Ok(_) | Err(SessionFault::Stream(_)) => {}
        Err(fault) => {
            let _ = report(rt, NOT_STARTED, fault);
        }
    }
    Begun::End(ExitStatus::of(ending))
}

/// Fails if standard error cannot be written.
fn report<R: ServerSystem, D: Display + Drop>(rt: &R, what: &str, why: D) -> io::Result<Begun<R>>
    ensures { IfOk result (λ begun. begun ≡ Begun.End Failed) }
{
    let what = plain(what);
    eprintln!(rt; "rmtd: {what}: {why}")?;
    Ok(Begun::End(ExitStatus::Failed))
}

const IN_MEMORY: &str = "the reel of /dev/st0 is in memory, and is gone when the server ends";

const BIN_ALONE: &str =
    "--bin is given and no drive: the reel of /dev/st0 is in memory, and is gone when the server ends";

/// Fails only if an allocation fails.
fn warn_of_bin<R: ServerSystem>(rt: &R, line: &ServerLine<'_>, start: LineStart) -> io::Result<()> {
    if line.bin.is_some() {
        Warnings::new(rt, start)?.warn(BIN_ALONE);
    }
    Ok(())
}

/// Listens at this address, and serves the connections with a drive in memory.
fn listen<R: ServerSystem>(
    rt: &R,
    address: &str,
    line: &ServerLine<'_>,
    start: LineStart,
) -> io::Result<ExitStatus>
    ensures { IfOk result (λ status. (status ≡ Ended) ⊎ (status ≡ Failed)) }
{
    let refusals = log_of(rt, start);
    let mut server = MemoryServer::with_log(rt.alloc(), line.capacity, &refusals)?;
    let log = log_of(rt, start);
    let listener = bind(rt, address, &log)?;
    log.note(if line.bin.is_some() {
        BIN_ALONE
    } else {
        IN_MEMORY
    });
    let left = line.connections.unwrap_or(u64::MAX);
    let connections = Connections::new(rt, &listener, left, line.idle, log);
    Ok(serve_connections(&mut server, connections).status())
}

fn log_of<R>(rt: &R, start: LineStart) -> ErrorLog<&R> {
    ErrorLog {
        rt,
        seat: None,
        start,
    }
}

const ANYWHERE: &str =
    "it listens at each address of this machine: whoever reaches one of them can read and write all reels";

/// Listens at this address, and prints the host and the port of the listener on standard output, or
/// the address if it is a path.
fn bind<R: ServerSystem, L: Log>(rt: &R, address: &str, log: &L) -> io::Result<Listener> {
    let listener = Listener::bind(rt, address)?;
    match listener.local_addr()? {
        Some(place) => {
            if place.ip().to_canonical().is_unspecified() {
                log.warn(ANYWHERE);
            }
            println!(rt; "listening on {place}")?;
        }
        None => {
            let place = plain(address);
            println!(rt; "listening on {place}")?;
        }
    }
    Ok(listener)
}

/// Prints why the arguments leave nothing to do: an error on standard error, or help or the version
/// on standard output.
fn refuse<R: ServerSystem>(rt: &R, error: Error) -> io::Result<Begun<R>>
    ensures { IfOk result (λ begun. (begun ≡ Begun.End Failed) ⊎ ((begun ≡ Begun.End Ended) × IsShown (kind_of error))) }
{
    if error.kind() == ErrorKind::OutOfMemory {
        return report(
            rt,
            "the arguments",
            io::Error::from(io::ErrorKind::OutOfMemory),
        );
    }
    let printed = if error.use_stderr() {
        print_error(rt, &error)
    } else {
        error.print(rt)
    };
    if let Err(why) = printed {
        return report(rt, "standard output", why);
    }
    let status = if error.use_stderr() {
        ExitStatus::Failed
    } else {
        ExitStatus::Ended
    };
    Ok(Begun::End(status))
}

/// Prints an error about the arguments. It may quote them, so control characters are printed as
/// `?`.
fn print_error<R: ServerSystem>(rt: &R, error: &Error) -> io::Result<()> {
    let text = format!(in rt.alloc(); "{error}")?;
    rt.eprint(PlainLines(text.as_str()))
}
