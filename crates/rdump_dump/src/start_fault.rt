//! Why a dump could not begin.
ghost use Rattle.std.specs.Prelude.{◌≡◌};
ghost use Rattle.console.specs.declared.status.ExitStatus.TheVariants.{StartupError};

use crate::run_limit::refuse_run;
use crate::unentered::Unentered;
use catalog::CatalogFault;
use console::{ExitStatus, PlainBytes, plain};
use dump_client::{ResumeFault, Run, RunFault};
use dump_files::{DumpFile, SameFile};
use dump_run::Checkpoint;
use dumpdates::DatesFault;
use linux_dates::ZonedLine;
use rdump_args::DumpLine;
use rdump_system::{
    ClientSystem, NO_CATALOG, print_fault, report, report_no_dates, report_no_memory,
};
use std::alloc::AllocError;
use std::fmt::{self, Display, Formatter, Write as _};
use std::io::{self, ErrorKind};
use whole_files::{INPUT_NAME, SpoolFault};

#[derive(Drop)]
pub(crate) enum StartFault<'a> {
    /// An allocation failed.
    OutOfMemory,
    /// The system reports this error of the file at this path.
    System(&'a str, io::Error),
    /// Something is at fault, for this reason.
    Unfit(&'a str, &'static str),
    /// The file at this path is also another one of the dump.
    Same(&'a str, SameFile),
    /// The file at this path has the name of a new file, and no run left it.
    Stranger(String),
    /// The file at this path is not a dumpdates file: its first fault, and the line at fault if it
    /// has a zone offset.
    NoDates(&'a str, DatesFault, Option<ZonedLine>),
    /// The file at this path is not a catalog.
    NoCatalog(&'a str, CatalogFault),
    /// The catalog at this path cannot be replaced.
    Unwritable(&'a str, io::Error),
    /// The line with which the dump begins was not entered in the catalog at this path.
    Unentered(&'a str, Unentered),
    /// The arguments violate this limit of a run.
    Limit(RunFault),
    /// The file at this path is not a checkpoint.
    NoCheckpoint(&'a str, ResumeFault),
    /// The checkpoint at this path is of another dump than this run.
    OfAnother(&'a str, Checkpoint, Run),
    /// Standard input was not spooled to a file without a name in this folder.
    Spool(&'a str, SpoolFault),
    /// Standard input was not spooled to the file at this path.
    NamedSpool(String, SpoolFault),
    /// Nothing is at this path, where the payload of the checkpoint at the other path was.
    LostSpool(String, &'a str),
}

impl From<AllocError> for StartFault<'_> {
    fn from(_: AllocError) -> Self {
        StartFault::OutOfMemory
    }
}

impl StartFault<'_> {
    pub(crate) fn report<R: ClientSystem>(self, rt: &R, line: &DumpLine<'_>) -> ExitStatus
        ensures { result ≡ StartupError }
    {
        match self {
            StartFault::OutOfMemory => report_no_memory(rt),
            StartFault::System(path, error) => report(rt, path, error),
            StartFault::Unfit(what, why) => print_fault(rt, what, why),
            StartFault::Same(path, same) => report_same(rt, line, path, same),
            StartFault::Stranger(new) => {
                print_fault(
                    rt,
                    new.as_str(),
                    "it is not one that rdump left: it is not touched",
                )
            }
            StartFault::NoDates(path, fault, zoned) => {
                let _ = println!(rt; "{fault}");
                report_no_dates(rt, path, zoned)
            }
            StartFault::NoCatalog(path, fault) => print_fault(rt, path, NotCatalog(fault)),
            StartFault::Unwritable(path, error) => report_unwritable(rt, path, error),
            StartFault::Unentered(path, why) => print_fault(rt, path, why),
            StartFault::Limit(fault) => refuse_run(rt, line, fault),
            StartFault::NoCheckpoint(path, fault) => {
                let _ = println!(rt; "{fault}");
                print_fault(rt, path, "it is no checkpoint")
            }
            StartFault::OfAnother(path, checkpoint, run) => {
                let _ = println!(rt; "checkpoint is of another dump");
                report_differences(rt, path, checkpoint.run(), &run);
                ExitStatus::StartupError
            }
            StartFault::Spool(folder, fault) => report_spool(rt, folder, fault),
            StartFault::NamedSpool(path, fault) => report_spool(rt, path.as_str(), fault),
            StartFault::LostSpool(path, checkpoint) => {
                print_fault(rt, path.as_str(), LostSpool(checkpoint))
            }
        }
    }
}

fn report_same<R: ClientSystem>(
    rt: &R,
    line: &DumpLine<'_>,
    path: &str,
    same: SameFile,
) -> ExitStatus
    ensures { result ≡ StartupError }
{
    let which = match same.file {
        DumpFile::NewDates | DumpFile::NewCheckpoint | DumpFile::NewCatalog => "its .new",
        _ => "it",
    };
    let other = name_of(same.other);
    let other_path = plain(path_of(line, same.other).unwrap_or(path));
    let path = plain(path);
    let _ = eprintln!(rt; "rdump: {path}: {which} is {other} too: {other_path}");
    ExitStatus::StartupError
}

fn name_of(file: DumpFile) -> &'static str {
    match file {
        DumpFile::Payload => "the payload",
        DumpFile::Dates => "the dumpdates file",
        DumpFile::NewDates => "the .new of the dumpdates file",
        DumpFile::Checkpoint => "the checkpoint file",
        DumpFile::NewCheckpoint => "the .new of the checkpoint file",
        DumpFile::Catalog => "the catalog",
        DumpFile::NewCatalog => "the .new of the catalog",
    }
}

/// Returns the path that the arguments give for a file of a dump. For a new file, returns the path
/// of the file that it replaces. Returns none if the arguments name no such file.
fn path_of<'a>(line: &DumpLine<'a>, file: DumpFile) -> Option<&'a str> {
    match file {
        DumpFile::Payload => Some(line.payload),
        DumpFile::Dates | DumpFile::NewDates => Some(line.dumpdates),
        DumpFile::Checkpoint | DumpFile::NewCheckpoint => line.checkpoint,
        DumpFile::Catalog | DumpFile::NewCatalog => line.catalog,
    }
}

fn report_unwritable<R: ClientSystem>(rt: &R, path: &str, error: io::Error) -> ExitStatus
    ensures { result ≡ StartupError }
{
    if error.kind() == ErrorKind::OutOfMemory {
        return report_no_memory(rt);
    }
    let path = plain(path);
    let _ = eprintln!(rt; "rdump: {path}: {error}: the catalog can't be kept");
    ExitStatus::StartupError
}

fn report_spool<R: ClientSystem>(rt: &R, path: &str, fault: SpoolFault) -> ExitStatus
    ensures { result ≡ StartupError }
{
    match fault {
        SpoolFault::Input(error) => report(rt, INPUT_NAME, error),
        SpoolFault::Spool(error) => report(rt, path, error),
        SpoolFault::Empty => print_fault(rt, INPUT_NAME, fault),
        SpoolFault::Left => print_fault(rt, path, fault),
    }
}

#[derive(Clone, Copy)]
struct NotCatalog(CatalogFault);

impl Display for NotCatalog {
    fn fmt<W: fmt::Write>(&self, f: &mut Formatter<W>) -> fmt::Result {
        write!(f, "{NO_CATALOG}: {}", self.0)
    }
}

/// The checkpoint at this path cannot go on without its payload.
#[derive(Clone, Copy)]
struct LostSpool<'a>(&'a str);

impl Display for LostSpool<'_> {
    fn fmt<W: fmt::Write>(&self, f: &mut Formatter<W>) -> fmt::Result {
        let checkpoint = plain(self.0);
        write!(
            f,
            "it is gone, and the dump of {checkpoint} cannot go on without it: remove {checkpoint}, \
             and run the same command with its pipe again"
        )
    }
}

/// Prints each parameter in which the run of the checkpoint, `kept`, differs from that of this
/// dump. The dates may differ.
fn report_differences<R: Eprint>(rt: &R, path: &str, kept: &Run, run: &Run) {
    if kept.device() != run.device() {
        let (kept, here) = (PlainBytes(kept.device()), PlainBytes(run.device()));
        report_values(rt, path, "device", kept, here);
    }
    if kept.name() != run.name() {
        report_values(rt, path, "name", kept.name(), run.name());
    }
    if kept.level() != run.level() {
        report_values(rt, path, "level", kept.level(), run.level());
    }
    if kept.block_bytes() != run.block_bytes() {
        report_values(
            rt,
            path,
            "block size",
            kept.block_bytes(),
            run.block_bytes(),
        );
    }
    if kept.blocks() != run.blocks() {
        report_values(rt, path, "number of blocks", kept.blocks(), run.blocks());
    }
}

fn report_values<R: Eprint, V: Display + Drop>(rt: &R, path: &str, name: &str, kept: V, here: V) {
    let path = plain(path);
    let _ = eprintln!(rt; "rdump: {path}: its {name} is {kept}, and that of this dump is {here}");
}
