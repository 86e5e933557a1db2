//! `rdump fetch`.
ghost use Rattle.std.specs.Prelude.{◌≡◌, IfErr};
ghost use Rattle.console.specs.declared.status.ExitStatus.TheVariants.{Abnormal, StartupError};
ghost use Rattle.rdump_args.specs.Rdump.{IsFetchLine};
ghost use Rattle.rdump_read.specs.Status.{status_of};

use crate::copy_line::copy_line;
use crate::fault::{Cause, ReelFault, at};
use crate::folder_copy::FolderCopy;
use crate::front::Foreign;
use catalog::{Catalog, CatalogFault, SumVerdict};
use console::ExitStatus;
use rdump_args::FetchLine;
use rdump_fetch::{ComparedSink, FetchFault, FetchSink, fetch_reel};
use rdump_net::{ReadFault, SocketPeer};
use rdump_system::ClientSystem;
use remote_tape::{TapeCause, TapeRequest};
use rmt_wire::errno::ENXIO;
use std::alloc::AllocError;
use std::fs;
use std::io::{self, ErrorKind, Write};
use whole_files::read_named;

type FolderSink<'a, R, T> = ComparedSink<FetchSink<FolderCopy<'a, R, T>>>;

/// Copies the reels of a stack into record files of a folder, as `rdump fetch` does. `terminal` is
/// standard error, if that is a terminal: it shows the progress.
///
/// The catalog is read first, if one is given. Then the reels of the stack are copied, one after
/// the other, each over a connection of its own:
///
/// - A copy is made as a file `.NAME.part` of the folder, under an advisory lock. It contains the
///   records of the reel up to the first mark, and one mark.
/// - Once the copy is synced, it gets its name by a hard link, so that no file is replaced. Then
///   the name of the part is removed, and the folder is synced. A file that has the name already is
///   compared with the part, and synced if it has the same bytes.
/// - The reel moves to the bin after that. It stays if its copy could not be made, if it does not
///   begin with a label, if no mark was found after its records, or if its blocks have two lengths.
///   It also stays if its sum differs from that in the catalog, or is of a dump that was begun anew
///   or of a volume that was written again. The command ends at a reel that stays, and prints why.
///   The part keeps what was read of the reel.
///
/// For each reel that was copied, standard output gets the line that `rdump ls` prints for the
/// copy, with the copy's name in place of the path.
///
/// Returns `Success` if at least one reel was copied, and the stack has no more reels. Returns
/// `StartupError` if the catalog could not be read or is not valid, or if the path is not that of a
/// folder. Returns `Abnormal` otherwise.
pub fn run_fetch<R: ClientSystem, T: Write + Drop>(
    rt: &R,
    line: FetchLine<'_>,
    terminal: Option<T>,
) -> ExitStatus
    requires { IsFetchLine line }
{
    let line = &line;
    let mut peer = SocketPeer::new(rt, line.to, line.timeout);
    let mut sink = match prepare(rt, line, terminal) {
        Ok(sink) => sink,
        Err(fault) => return fault.report(rt, line.to, line.device, None),
    };
    match fetch_stack(rt, line, &mut peer, &mut sink) {
        Ok(()) => ExitStatus::Success,
        Err(fault) => fault.report(rt, line.to, line.device, peer.failure()),
    }
}

/// Reads the catalog, checks the folder, and makes the sink.
fn prepare<'a, R: ClientSystem, T: Write + Drop>(
    rt: &'a R,
    line: &FetchLine<'a>,
    terminal: Option<T>,
) -> Result<FolderSink<'a, R, T>, ReelFault<'a>>
    ensures { IfErr result (λ fault. status_of fault ≡ StartupError) }
{
    let catalog = read_catalog(rt, line.catalog)?;
    at(line.into, check_folder(rt, line.into))?;
    let file = FolderCopy::new(rt, line.into, terminal);
    Ok(ComparedSink::new(FetchSink::new(file), catalog))
}

fn read_catalog<'a, R: ClientSystem>(
    rt: &R,
    path: Option<&'a str>,
) -> Result<Option<Catalog>, ReelFault<'a>>
    ensures { IfErr result (λ fault. status_of fault ≡ StartupError) }
{
    let Some(path) = path else {
        return Ok(None);
    };
    let bytes = at(path, read_named(rt, rt.alloc(), path))?;
    match Catalog::read(rt.alloc(), &bytes) {
        Ok(catalog) => Ok(Some(catalog)),
        Err(CatalogFault::OutOfMemory) => at(path, Err(ErrorKind::OutOfMemory.into())),
        Err(fault) => Err(ReelFault::NoCatalog(path, fault)),
    }
}

fn check_folder<R: ClientSystem>(rt: &R, path: &str) -> io::Result<()> {
    if fs::metadata(rt, path)?.is_dir() {
        Ok(())
    } else {
        Err(io::Error::new(ErrorKind::NotADirectory, "it is no folder"))
    }
}

/// Copies reel after reel, until the stack has no more reels. Fails at a reel that stays.
fn fetch_stack<'a, R: ClientSystem, T: Write + Drop>(
    rt: &R,
    line: &'a FetchLine<'_>,
    peer: &mut SocketPeer<'_, R>,
    sink: &'a mut FolderSink<'_, R, T>,
) -> Result<(), ReelFault<'a>>
    requires { IsFetchLine line.now }
    ensures { IfErr result (λ fault. status_of fault ≡ Abnormal) }
{
    for reels in 0..u64::MAX {
        sink.sink_mut().forget();
        let read = fetch_reel(rt.alloc(), peer, line.device.as_bytes(), sink);
        sink.sink_mut().leave();
        if reels > 0 && has_no_reel(read) {
            return Ok(());
        }
        let is_printed = print_copy(rt, sink);
        if read.is_err() || !is_printed || sink.sink().volume().is_none() {
            return Err(fault_of(rt, line, read, is_printed, sink));
        }
    }
    Err(ReelFault::Unread(ReadFault::Undetermined))
}

/// Whether the read failed because the drive has no reel.
fn has_no_reel(read: Result<(), ReadFault>) -> bool {
    match read {
        Err(ReadFault::Tape(fault)) => {
            fault.request == TapeRequest::Open && fault.cause == TapeCause::Refused(ENXIO)
        }
        _ => false,
    }
}

/// Prints the line of a copy, if that is kept. Returns false if the line could not be printed.
fn print_copy<R: ClientSystem, T: Write + Drop>(rt: &R, sink: &FolderSink<'_, R, T>) -> bool {
    match (sink.sink().volume(), sink.sink().file().paths()) {
        (Some(volume), Some(paths)) if sink.sink().is_complete() => {
            match copy_line(rt.alloc(), paths.name.as_str(), volume, sink.verdict()) {
                Ok(text) => io::writer(rt).write_all(&text).is_ok(),
                Err(AllocError) => false,
            }
        }
        _ => true,
    }
}

/// Returns why the command ends at this reel. `read` is how the read of the reel ended.
fn fault_of<'a, R: ClientSystem, T: Write + Drop>(
    rt: &R,
    line: &'a FetchLine<'_>,
    read: Result<(), ReadFault>,
    is_printed: bool,
    sink: &'a FolderSink<'_, R, T>,
) -> ReelFault<'a>
    requires { IsFetchLine line.now }
    ensures { status_of result ≡ Abnormal }
{
    let (to, device) = (line.to, line.device);
    match (sink.sink().volume(), read) {
        (Some(volume), Err(fault)) => ReelFault::Unfetched {
            label: &volume.label,
            place: place_of(fault, sink.sink().is_complete()),
            cause: cause_of(fault, sink),
            is_printed,
        },
        (Some(_), Ok(())) => ReelFault::Unwritten,
        (None, Ok(())) => ReelFault::Foreign(Foreign::look(rt, to, device, line.timeout)),
        (None, Err(ReadFault::Stopped)) => ReelFault::Foreign(Foreign::record(to, device)),
        (None, Err(fault)) => ReelFault::Unread(fault),
    }
}

/// Returns in words where the reel is. If `is_complete`, its copy was kept, and the server may have
/// been asked to move it.
fn place_of(fault: ReadFault, is_complete: bool) -> &'static str {
    if !is_complete {
        return "stays";
    }
    match fault {
        ReadFault::Tape(fault) => match (fault.request, fault.cause) {
            (TapeRequest::Offline, TapeCause::Refused(_)) => "stays",
            (_, TapeCause::Refused(_)) => "is in the bin",
            (_, TapeCause::NoReply(_)) => "may be in the bin",
        },
        _ => "may be in the bin",
    }
}

fn cause_of<'a, R: ClientSystem, T: Write + Drop>(
    fault: ReadFault,
    sink: &'a FolderSink<'_, R, T>,
) -> Cause<'a> {
    if fault != ReadFault::Stopped {
        return Cause::Read(fault);
    }
    if let Some(
        verdict @ (SumVerdict::Differs | SumVerdict::Anew | SumVerdict::Void),
    ) = sink.verdict()
    {
        return Cause::Sum(verdict);
    }
    match sink.sink().fault() {
        Some(FetchFault::OtherLength { bytes, before }) => Cause::OtherLength { bytes, before },
        Some(FetchFault::Failed(error)) => Cause::Copy {
            path: sink.sink().file().path(),
            error,
        },
        _ => Cause::Read(fault),
    }
}
