//! The command `rdump cat`.
ghost use Rattle.std.specs.Prelude.{◌≡◌, length};

use crate::cat_fault::CatFault;
use crate::catalog_files::read_catalogs;
use crate::dumps::dumps_of;
use crate::file_shelf::FileShelf;
use crate::knowing::{KnownTwice, catalog_of};
use crate::known_dump::{NotKnown, finished_line, wanted_of};
use crate::known_parts::parts_of;
use crate::outcome::{status_of, status_of_parts};
use crate::watched::Watched;
use catalog::Catalog;
use console::ExitStatus;
use dump_run::DumpId;
use rdump_args::CatLine;
use rdump_list::{ListSystem, ReelPath, ReelPaths};
use restore::{Refusal, RestoreFault, Wanted, restore, restore_partial};
use rmt_wire::Counted;
use std::io::{self, Write};

/// Runs `rdump cat`: checks the record files, chooses the volumes of one dump, and writes its
/// payload to standard output. It writes nothing before all files are checked, and never writes to
/// them. `terminal` is standard error, if that is a terminal: it shows how far the command is.
///
/// With a catalog, the reels must have all volumes of a dump that the catalog has as finished, and
/// the sum of each must be that of the line in force. Other reels of the dump are set aside, each
/// named on standard error. If several catalogs are given, only one may have lines of the dump.
///
/// With `is_partial` it writes what the reels have, with zero bytes for each block that is missing,
/// and prints the numbers of these blocks. It then never succeeds. The length is that with which
/// the catalog says that the dump began, or the given one. If there is neither, the last volume
/// ends the payload.
///
/// Returns the exit status:
///
/// - `Success` if the whole payload was written, or if the reader of standard output closed it
///   before: the reels were checked, and the reader wanted no more.
/// - `StartupError` if a file cannot be read, a catalog is not valid, the files have volumes of
///   more than one dump that is wanted, two catalogs have lines of the dump, an allocation fails,
///   or standard output cannot be written.
/// - `Abnormal` if a volume is missing, the volumes do not fit together or have another length, or
///   no catalog has the dump as finished. Nothing was written then. Also if a file was changed
///   after it was checked, and with `is_partial` after each payload.
///
/// Errors are printed on standard error.
pub fn run_cat<R: ListSystem, T: Write + Drop>(
    rt: &R,
    line: &CatLine<'_>,
    terminal: Option<T>,
) -> ExitStatus {
    let mut cat = Cat {
        rt,
        line,
        reels: Vec::new(rt.alloc()),
    };
    match cat.run(terminal) {
        Ok(()) => ExitStatus::Success,
        Err(fault) => fault.report(rt, &cat.reels),
    }
}

#[derive(Drop)]
struct Cat<'a, R: ListSystem> {
    rt: &'a R,
    line: &'a CatLine<'a>,
    reels: Vec<ReelPath>,
}

impl<'a, R: ListSystem> Cat<'a, R> {
    fn run<T: Write + Drop>(&mut self, terminal: Option<T>) -> Result<(), CatFault<'a>> {
        let (rt, line) = (self.rt, self.line);
        self.find_reels()?;
        let catalogs = read_catalogs(rt, &line.catalogs)?;
        let asked = Wanted {
            name: line.name,
            level: line.level,
            date: line.date,
            length: line.length.unwrap_or(0),
            volumes: None,
            lines: None,
        };
        if catalogs.is_empty() {
            self.write(&asked, line.length, terminal)?;
            let _ = eprintln!(rt;
                "rdump: without a catalog: two payloads of one name, level and dates look alike"
            );
            return Ok(());
        }
        let id = self.dump(&asked)?;
        let wanted = known(line, &catalogs, &id)?;
        self.write(&wanted, Some(wanted.length), terminal)
    }

    fn find_reels(&mut self) -> Result<(), CatFault<'a>> {
        let mut named = ReelPaths::new(self.rt);
        for path in &self.line.paths {
            named.add(path)?;
        }
        let (named, are_found) = named.into_paths();
        if !are_found {
            return Err(CatFault::Told);
        }
        for path in named {
            match path.is_there(self.rt) {
                Ok(true) => self.reels.push(path)?,
                Ok(false) => {}
                Err(error) => return Err(CatFault::Listed(path.path, error)),
            }
        }
        Ok(())
    }

    /// Returns the one dump that is wanted and has a label on a record file.
    fn dump(&self, wanted: &Wanted<'_>) -> Result<DumpId, CatFault<'a>> {
        let dumps = dumps_of(self.rt, &self.reels, wanted)?;
        match dumps.as_slice() {
            [] => Err(CatFault::refused(Refusal::NoVolume, None)),
            [id] => Ok(id.copy()),
            _ => Err(CatFault::Dumps(dumps)),
        }
    }

    /// `length` is the length of the payload in bytes, if it is known. It is used only if parts may
    /// be missing.
    fn write<T: Write + Drop>(
        &self,
        wanted: &Wanted<'_>,
        length: Option<u64>,
        terminal: Option<T>,
    ) -> Result<(), CatFault<'a>> {
        let (rt, alloc) = (self.rt, self.rt.alloc());
        let mut shelf = FileShelf::new(rt, &self.reels, terminal);
        let mut out = Watched::new(io::writer(rt));
        let (restored, status) = if self.line.is_partial {
            let mut counted = Counted::new(&mut out);
            let restored = restore_partial(alloc, &mut shelf, wanted, length, &mut counted);
            let status = status_of_parts(&restored, out.is_closed());
            (restored, status)
        } else {
            let restored = restore(alloc, &mut shelf, wanted, &mut Counted::new(&mut out));
            let status = status_of(&restored, out.is_closed());
            (restored.map(|()| Vec::new(alloc)), status)
        };
        shelf.clear();
        match restored {
            _ if status == ExitStatus::Success => Ok(()),
            Ok(gaps) => Err(CatFault::Gaps(gaps, status)),
            Err(RestoreFault::Refused(Refusal::TwoDumps { .. })) => {
                Err(CatFault::Dumps(dumps_of(rt, &self.reels, wanted)?))
            }
            Err(RestoreFault::Output) => {
                Err(CatFault::Restore(RestoreFault::Output, out.fault(), status))
            }
            Err(fault) => Err(CatFault::Restore(fault, shelf.fault(), status)),
        }
    }
}

/// Returns what is wanted of a dump. Exactly one of the catalogs must have lines of it.
fn known<'a, 'b>(
    line: &'a CatLine<'a>,
    catalogs: &'b [Catalog],
    id: &'b DumpId,
) -> Result<Wanted<'b>, CatFault<'a>>
    requires { length catalogs.now ≡ length line.now.catalogs.items }
{
    let paths = &line.catalogs;
    let number = match catalog_of(catalogs, id) {
        Ok(Some(number)) => number,
        Ok(None) => return Err(CatFault::NotKnown(paths, NotKnown::NoDump)),
        Err(KnownTwice { first, second }) => {
            return Err(CatFault::KnownTwice(paths[first], paths[second], id.copy()));
        }
    };
    let catalog = &catalogs[number];
    let wanted = if line.is_partial {
        parts_of(catalog, id)
    } else {
        finished_line(catalog, id).map(|finished| wanted_of(catalog, id, finished))
    };
    wanted.map_err(|why| CatFault::NotKnown(&paths[number..=number], why))
}
