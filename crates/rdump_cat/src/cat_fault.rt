//! Why `rdump cat` failed.
use crate::known_dump::NotKnown;
use crate::outcome::status_of;
use console::{ExitStatus, PlainBytes, plain};
use dump_run::DumpId;
use rdump_list::{ReelPath, push_dated_id};
use restore::{Gap, Refusal, RestoreFault};
use std::alloc::{AllocError, AllocFailed, Global};
use std::fmt::{self, Display, Formatter, Write};
use std::io::{self, ErrorKind};

const LIST_THEM: &str = "rdump ls with the same files prints what each of them has";

/// Record files are named by their numbers.
#[derive(Drop)]
pub(crate) enum CatFault<'a> {
    OutOfMemory,
    /// A path or a catalog of the arguments is of no use, and why is printed already.
    Told,
    /// The system's error for a name in a folder, at this path.
    Listed(String, io::Error),
    /// The files have volumes of these dumps, and more than one is wanted.
    Dumps(Vec<DumpId>),
    /// The catalogs at these paths are of no use for the dump.
    NotKnown(&'a [&'a str], NotKnown),
    /// The catalogs at these two paths have lines of this dump.
    KnownTwice(&'a str, &'a str, DumpId),
    /// The payload was not restored, which gives this exit status. The error is why a file could
    /// not be opened, or why the output failed.
    Restore(RestoreFault, Option<io::Error>, ExitStatus),
    /// The payload was written without these blocks, which gives this exit status.
    Gaps(Vec<Gap>, ExitStatus),
}

impl From<AllocError> for CatFault<'_> {
    fn from(_: AllocError) -> Self {
        CatFault::OutOfMemory
    }
}

impl<T: Drop> From<AllocFailed<T>> for CatFault<'_> {
    fn from(_: AllocFailed<T>) -> Self {
        CatFault::OutOfMemory
    }
}

impl CatFault<'_> {
    /// Makes the fault of files that are refused. `error` is why a file could not be opened.
    pub(crate) fn refused(refusal: Refusal, error: Option<io::Error>) -> Self {
        let fault = RestoreFault::Refused(refusal);
        CatFault::Restore(fault, error, status_of(&Err(fault), false))
    }

    /// Prints the fault on standard error, and returns the exit status.
    pub(crate) fn report<R: AllocGlobal + Eprint>(self, rt: &R, reels: &[ReelPath]) -> ExitStatus {
        match self.print(rt, reels) {
            Ok(status) => status,
            Err(AllocError) => {
                let _ = eprintln!(rt; "rdump: out of memory");
                ExitStatus::StartupError
            }
        }
    }

    /// Fails if an allocation fails, or if that is the fault.
    fn print<R: AllocGlobal + Eprint>(
        self,
        rt: &R,
        reels: &[ReelPath],
    ) -> Result<ExitStatus, AllocError> {
        match self {
            CatFault::OutOfMemory
            | CatFault::Restore(RestoreFault::Refused(Refusal::OutOfMemory), ..) => Err(AllocError),
            CatFault::Told => Ok(ExitStatus::StartupError),
            CatFault::Listed(path, error) => {
                let path = plain(path.as_str());
                let _ = eprintln!(rt; "rdump: {path}: {error}");
                Ok(ExitStatus::StartupError)
            }
            CatFault::Dumps(dumps) => {
                let _ = eprintln!(rt;
                    "rdump: the files have volumes of more than one dump: choose one by --fs, --level and --date"
                );
                for id in &dumps {
                    let text = dated(rt.alloc(), id)?;
                    let _ = eprintln!(rt; "rdump: {}", PlainBytes(&text));
                }
                Ok(ExitStatus::StartupError)
            }
            CatFault::NotKnown(paths, why) => {
                for path in paths {
                    let path = plain(path);
                    let _ = match why {
                        NotKnown::NoDump => eprintln!(rt; "rdump: {path}: it has no such dump"),
                        NotKnown::NotFinished => {
                            eprintln!(rt; "rdump: {path}: the dump is not finished")
                        }
                    };
                }
                Ok(ExitStatus::Abnormal)
            }
            CatFault::KnownTwice(first, second, id) => {
                let text = dated(rt.alloc(), &id)?;
                let (first, second, text) = (plain(first), plain(second), PlainBytes(&text));
                let _ = eprintln!(rt;
                    "rdump: {first} and {second} have lines of one dump, {text}: leave out one of them"
                );
                Ok(ExitStatus::StartupError)
            }
            CatFault::Restore(RestoreFault::Output, Some(error), status)
                if error.kind() == ErrorKind::BrokenPipe => { Ok(status) }
            CatFault::Restore(fault, error, status) => {
                let why = Unrestored {
                    fault,
                    error,
                    reels,
                };
                let _ = eprintln!(rt; "rdump: {why}");
                Ok(status)
            }
            CatFault::Gaps(gaps, status) => {
                if gaps.is_empty() {
                    let _ = eprintln!(rt; "rdump: --partial: no block is missing");
                }
                for gap in &gaps {
                    let (first, last) = (gap.first, gap.end.saturating_sub(1));
                    let _ = eprintln!(rt;
                        "rdump: blocks {first} to {last} are missing: zero bytes are in their place"
                    );
                }
                Ok(status)
            }
        }
    }
}

fn dated(alloc: Global, id: &DumpId) -> Result<Vec<u8>, AllocError> {
    let mut text = Vec::new(alloc);
    push_dated_id(&mut text, id)?;
    Ok(text)
}

#[derive(Clone, Copy)]
struct Unrestored<'a> {
    fault: RestoreFault,
    error: Option<io::Error>,
    reels: &'a [ReelPath],
}

impl<'a> Unrestored<'a> {
    fn path(&self, reel: usize) -> PlainBytes<'a> {
        match self.reels.get(reel) {
            Some(path) => plain(path.path.as_str()),
            None => plain(""),
        }
    }
}

impl Display for Unrestored<'_> {
    fn fmt<W: Write>(&self, f: &mut Formatter<W>) -> fmt::Result {
        match (self.fault, self.error) {
            (RestoreFault::Refused(Refusal::Unreadable { reel }), Some(error)) => {
                write!(f, "{}: {error}", self.path(reel))
            }
            (RestoreFault::Refused(Refusal::Unreadable { reel }), None) => {
                write!(f, "{}: it could not be read", self.path(reel))
            }
            (RestoreFault::Refused(Refusal::TwoReels { reel, other }), _) => write!(
                f,
                "{} and {} have the same volume, with different bytes: leave out one of them",
                self.path(reel),
                self.path(other)
            ),
            (RestoreFault::Refused(Refusal::TwoSizes { reel, other }), _) => write!(
                f,
                "{} and {} have blocks of different sizes: leave out one of them",
                self.path(reel),
                self.path(other)
            ),
            (RestoreFault::Refused(Refusal::Missing { volume }), _) => {
                write!(f, "volume {volume} is missing: {LIST_THEM}")
            }
            (RestoreFault::Refused(Refusal::Displaced { reel, end }), _) => write!(
                f,
                "{}: it does not begin at block {end}, where the volume before it ends",
                self.path(reel)
            ),
            (
                RestoreFault::Refused(
                    Refusal::OtherLength {
                        blocks,
                        block_bytes,
                    },
                ),
                _,
            ) => write!(
                f,
                "the volumes have {blocks} blocks of {block_bytes} bytes, and a payload of this length has another number of blocks: {LIST_THEM}"
            ),
            (RestoreFault::Refused(Refusal::MoreVolumes { volumes }), _) => write!(
                f,
                "there are more volumes than the {volumes} of the dump in the catalog: {LIST_THEM}"
            ),
            (RestoreFault::Refused(_), _) => {
                write!(f, "no file has a whole volume of such a dump: {LIST_THEM}")
            }
            (RestoreFault::Reel { reel }, _) => write!(
                f,
                "{}: it was changed or could not be read again: the payload is not whole",
                self.path(reel)
            ),
            (RestoreFault::Output, Some(error)) => write!(
                f,
                "standard output could not be written: {error}: the payload is not whole"
            ),
            (RestoreFault::Output, None) => {
                write!(
                    f,
                    "standard output could not be written: the payload is not whole"
                )
            }
        }
    }
}
