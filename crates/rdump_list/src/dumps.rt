//! The dumps of a dumpdates file, and what was found of them.
use crate::ListSystem;
use crate::dated::push_date;
use crate::dump_found::DumpFound;
use crate::fault::{ListFault, at};
use crate::order::reels_of;
use crate::printer::Printer;
use crate::reel::ListedReel;
use crate::verdict::push_count;
use dumpdates::{Dates, DatesFault};
use linux_dates::ZonedLine;
use std::alloc::{AllocError, Global};
use std::io::Write;
use whole_files::read_named;

pub(crate) fn dates_at<'a, R: ListSystem>(rt: &R, path: &'a str) -> Result<Dates, ListFault<'a>> {
    let bytes = at(path, read_named(rt, rt.alloc(), path))?;
    match Dates::read(rt.alloc(), &bytes) {
        Ok(dates) => Ok(dates),
        Err(DatesFault::OutOfMemory) => Err(ListFault::OutOfMemory),
        Err(fault) => {
            let zoned = ZonedLine::find(rt.alloc(), &bytes, fault);
            Err(ListFault::NoDates(path, fault, zoned))
        }
    }
}

/// Prints an empty line, and a line for each dump of a dumpdates file: what was found of it on
/// these reels, which must be sorted. `blocks` is the number of blocks of each dump, if given.
/// Returns whether nothing is missing.
pub(crate) fn print_dumps<W: Write>(
    alloc: Global,
    out: &mut Printer<W>,
    reels: &[ListedReel],
    dates: &Dates,
    blocks: Option<u64>,
) -> Result<bool, AllocError> {
    out.end_line()?;
    let mut is_complete = true;
    for at in 0..dates.len() {
        if let Some(entry) = dates.get(at) {
            let reels = reels_of(reels, entry.name, entry.level, entry.date);
            let found = DumpFound::of(alloc, reels)?;
            is_complete = is_complete && found.is_complete(blocks);
            let line = &mut out.line;
            line.extend_from_slice(entry.name.as_bytes())?;
            push_count(line, b" level ", u64::from(entry.level), b"")?;
            push_date(line, b" date ", entry.date)?;
            line.extend_from_slice(b": ")?;
            found.push(line, blocks)?;
            out.end_line()?;
        }
    }
    Ok(is_complete)
}
