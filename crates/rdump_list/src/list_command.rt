//! The command `rdump ls`.
ghost use Rattle.rdump_args.specs.Rdump.{IsListLine};

use crate::ListSystem;
use crate::catalog_dumps::print_catalog_dumps;
use crate::catalog_file::catalog_at;
use crate::dumps::{dates_at, print_dumps};
use crate::fault::{ListFault, go_on};
use crate::line::push_line;
use crate::lister::Lister;
use crate::order::sort;
use crate::printer::Printer;
use crate::reel::ListedReel;
use crate::status::status_of;
use console::ExitStatus;
use rdump_args::ListLine;
use std::alloc::AllocError;
use std::io::{self, Write};

/// Runs `rdump ls`: prints a line for each reel, in sorted order. If a dumpdates file is given, it
/// then prints an empty line and a line for each of its dumps. If a catalog is given, it compares
/// each whole reel with the catalog. It then prints an empty line and a line for each dump that the
/// arguments name. If they name none, these are the dumps of which there is a whole reel. Nothing
/// is written to a reel. `terminal` is standard error, if that is a terminal: it shows how far the
/// list is.
///
/// Returns the exit status:
///
/// - `Success` if there is a reel or a dump that the arguments name, all reels are whole, and no
///   volume is missing. With a catalog, the sum of each reel must also be known and not differ.
/// - `StartupError` if a file cannot be read, the catalog or the dumpdates file is not valid, there
///   is no session with the drive, an allocation fails, or a write fails.
/// - `Abnormal` otherwise.
///
/// Errors are printed on standard error; out of memory is printed on standard output.
pub fn run_ls<R: ListSystem, T: Write + Drop>(
    rt: &R,
    line: ListLine<'_>,
    terminal: Option<T>,
) -> ExitStatus
    requires { IsListLine line }
{
    match list(rt, &line, terminal) {
        Ok(status) => status,
        Err(fault) => {
            fault.print(rt);
            ExitStatus::StartupError
        }
    }
}

/// Goes on without a dumpdates file or a reel that cannot be read.
fn list<'a, R: ListSystem, T: Write + Drop>(
    rt: &R,
    line: &ListLine<'a>,
    terminal: Option<T>,
) -> Result<ExitStatus, ListFault<'a>>
    requires { IsListLine line.now }
{
    let alloc = rt.alloc();
    let catalog = match line.catalog {
        Some(path) => Some(catalog_at(rt, path)?),
        None => None,
    };
    let dates = match line.dumpdates {
        Some(path) => go_on(rt, dates_at(rt, path))?,
        None => None,
    };
    let mut lister = Lister::new(rt, catalog.as_ref(), terminal)?;
    lister.read(&line.reels)?;
    let (mut reels, are_read) = lister.into_reels();
    sort(reels.as_mut_slice());
    let mut out = Printer::new(alloc, io::writer(rt));
    let mut is_whole = print_reels(&mut out, &reels)?;
    if let Some(dates) = &dates {
        let is_complete = print_dumps(alloc, &mut out, &reels, dates, line.blocks)?;
        is_whole = is_whole && is_complete;
    }
    let mut has_some = !reels.is_empty();
    if let Some(catalog) = &catalog {
        let wanted = line.wanted.as_ref();
        let printed = print_catalog_dumps(alloc, &mut out, catalog, wanted, &reels)?;
        is_whole = is_whole && printed.are_complete;
        has_some = has_some || printed.has_named;
    }
    let is_printed = go_on(rt, out.end())?.is_some();
    if !has_some && are_read {
        go_on(rt, Err::<(), _>(ListFault::NoReel))?;
    }
    let are_dates_read = dates.is_some() || line.dumpdates.is_none();
    let is_done = are_dates_read && are_read && is_printed;
    Ok(status_of(is_done, has_some && is_whole))
}

/// Returns whether all reels are whole, and no sum fails the list.
fn print_reels<W: Write>(out: &mut Printer<W>, reels: &[ListedReel]) -> Result<bool, AllocError> {
    let mut are_good = true;
    for reel in reels {
        push_line(&mut out.line, reel)?;
        out.end_line()?;
        are_good = are_good && reel.is_good();
    }
    Ok(are_good)
}
