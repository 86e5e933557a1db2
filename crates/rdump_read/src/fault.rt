//! Why `rdump read` or `rdump fetch` fails.
ghost use Rattle.std.specs.Prelude.{◌≡◌, IfErr};
ghost use Rattle.console.specs.declared.status.ExitStatus.TheVariants.{StartupError};
ghost use Rattle.rdump_read.specs.Status.{status_of};

use crate::front::Foreign;
use catalog::{CatalogFault, SumVerdict};
use console::{ExitStatus, plain};
use dump_run::VolumeLabel;
use rdump_net::ReadFault;
use rdump_system::{
    ClientSystem, NO_CATALOG, print_fault, report, report_failed, report_unwritten,
};
use remote_tape::FaultReport;
use std::fmt::{self, Display, Formatter, Write};
use std::io;

#[derive(Clone, Copy)]
pub(crate) enum ReelFault<'a> {
    /// The file at this path failed before a reel was read.
    Start(&'a str, io::Error),
    /// The file at this path is not a catalog.
    NoCatalog(&'a str, CatalogFault),
    /// Standard output could not be written.
    Unwritten,
    /// The file at this path could not be written or synced.
    File(&'a str, io::Error),
    /// The first reel of the drive does not have a volume.
    Foreign(Foreign<'a>),
    /// The first reel of the drive was not read.
    Unread(ReadFault),
    /// The reel of this volume was not fetched.
    Unfetched {
        label: &'a VolumeLabel,
        /// Where the reel is, in words.
        place: &'static str,
        cause: Cause<'a>,
        /// Whether the line of the copy was printed, if the copy is kept.
        is_printed: bool,
    },
}

/// Why the reel of a volume was not fetched.
#[derive(Clone, Copy)]
pub(crate) enum Cause<'a> {
    /// The comparison with the catalog found this.
    Sum(SumVerdict),
    /// A block has another number of bytes than the one before it.
    OtherLength {
        bytes: usize,
        /// How many bytes the one before it has.
        before: usize,
    },
    /// The copy at this path could not be made.
    Copy {
        path: &'a str,
        /// Why it could not be made.
        error: io::Error,
    },
    /// The volume was not read.
    Read(ReadFault),
}

impl ReelFault<'_> {
    /// Prints the fault. `failure` is the system's error, if the connection failed with one.
    pub(crate) fn report<'x, R: ClientSystem>(
        self,
        rt: &R,
        to: &str,
        device: &'x str,
        failure: Option<&'x io::Error>,
    ) -> ExitStatus
        ensures { result ≡ status_of self.entry }
    {
        match self {
            ReelFault::Start(path, error) => report(rt, path, error),
            ReelFault::NoCatalog(path, fault) => print_fault(rt, path, NotCatalog(fault)),
            ReelFault::Unwritten => report_unwritten(rt, ExitStatus::Abnormal),
            ReelFault::File(path, error) => {
                report_failed(rt, path, &error, ExitStatus::Abnormal)
            }
            ReelFault::Foreign(foreign) => {
                let _ = eprintln!(rt; "rdump: {foreign}");
                ExitStatus::Abnormal
            }
            ReelFault::Unread(fault) => {
                let cause = Cause::Read(fault);
                let told = Told {
                    cause,
                    device,
                    failure,
                };
                print_fault(rt, to, told);
                ExitStatus::Abnormal
            }
            ReelFault::Unfetched {
                label,
                place,
                cause,
                is_printed,
            } => {
                if !is_printed {
                    report_unwritten(rt, ExitStatus::Abnormal);
                }
                let told = Told {
                    cause,
                    device,
                    failure,
                };
                print_fault(rt, to, Unfetched { label, place, told });
                ExitStatus::Abnormal
            }
        }
    }
}

/// Why a file is not a catalog.
#[derive(Clone, Copy)]
struct NotCatalog(CatalogFault);

impl Display for NotCatalog {
    fn fmt<W: Write>(&self, f: &mut Formatter<W>) -> fmt::Result {
        write!(f, "{NO_CATALOG}: {}", self.0)
    }
}

/// A reel that was not fetched, in words.
#[derive(Clone, Copy)]
struct Unfetched<'a, 'b> {
    label: &'a VolumeLabel,
    place: &'static str,
    told: Told<'a, 'b>,
}

impl Display for Unfetched<'_, '_> {
    fn fmt<W: Write>(&self, f: &mut Formatter<W>) -> fmt::Result {
        let (number, name, level) = (self.label.volume(), self.label.name(), self.label.level());
        let (place, told) = (self.place, self.told);
        write!(f, "volume {number} of {name} level {level} {place}: {told}")
    }
}

/// A cause in words. Control characters in a path are printed as `?`. Printing allocates nothing.
#[derive(Clone, Copy)]
struct Told<'a, 'b> {
    cause: Cause<'a>,
    device: &'b str,
    failure: Option<&'b io::Error>,
}

impl Display for Told<'_, '_> {
    fn fmt<W: Write>(&self, f: &mut Formatter<W>) -> fmt::Result {
        match self.cause {
            Cause::Sum(verdict) => f.write_str(verdict.words()),
            Cause::OtherLength { bytes, before } => {
                write!(f, "a block of {bytes} bytes after one of {before}")
            }
            Cause::Copy { path, error } => {
                let path = plain(path);
                write!(f, "{path}: {error}")
            }
            Cause::Read(ReadFault::Tape(fault)) => {
                let report = FaultReport {
                    fault,
                    device: self.device,
                    failure: self.failure,
                };
                write!(f, "{report}")
            }
            Cause::Read(fault) => write!(f, "{fault}"),
        }
    }
}

/// Turns an error of the file at this path into `ReelFault::Start`.
pub(crate) fn at<'a, V>(path: &'a str, found: io::Result<V>) -> Result<V, ReelFault<'a>>
    ensures { IfErr result (λ fault. status_of fault ≡ StartupError) }
{
    match found {
        Ok(value) => Ok(value),
        Err(error) => Err(ReelFault::Start(path, error)),
    }
}
