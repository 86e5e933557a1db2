//! The dumps of a catalog, and what is there of them.
use crate::catalog_dump::dump_in;
use crate::dated::push_dated_id;
use crate::judged_reel::JudgedReel;
use crate::order::reels_of;
use crate::printer::Printer;
use crate::reel::ListedReel;
use catalog::{Catalog, CatalogLine};
use dump_run::DumpId;
use rdump_args::WantedDumps;
use std::alloc::{AllocError, Global};
use std::io::Write;

#[derive(Clone, Copy)]
pub(crate) struct DumpsPrinted {
    /// Whether the arguments name dumps, and one was printed.
    pub(crate) has_named: bool,
    /// Whether all volumes of each dump that was printed are there.
    pub(crate) are_complete: bool,
}

/// Prints an empty line, and a line for each dump that `wanted` names, in the order in which they
/// last began. If `wanted` is None, these are the dumps of which there is a whole reel. The reels
/// must be sorted.
pub(crate) fn print_catalog_dumps<W: Write>(
    alloc: Global,
    out: &mut Printer<W>,
    catalog: &Catalog,
    wanted: Option<&WantedDumps<'_>>,
    reels: &[ListedReel],
) -> Result<DumpsPrinted, AllocError> {
    let mut printed = DumpsPrinted {
        has_named: false,
        are_complete: true,
    };
    out.end_line()?;
    for (at, line) in catalog.lines().iter().enumerate() {
        let CatalogLine::Begun(begun) = line else {
            continue;
        };
        let id = begun.id();
        if !wanted.is_none_or(|wanted| is_wanted(id, wanted)) || !is_last(catalog, id, at) {
            continue;
        }
        let reels = judged(alloc, reels, id)?;
        if wanted.is_none() && reels.is_empty() {
            continue;
        }
        if let Some(found) = dump_in(alloc, catalog, id, &reels)? {
            push_dated_id(&mut out.line, id)?;
            out.line.extend_from_slice(b": ")?;
            found.push(&mut out.line)?;
            out.end_line()?;
            printed.has_named = wanted.is_some();
            printed.are_complete = printed.are_complete && found.is_complete();
        }
    }
    Ok(printed)
}

/// Returns the reels of this dump that were compared with the catalog. `reels` must be sorted.
fn judged<'a>(
    alloc: Global,
    reels: &'a [ListedReel],
    id: &DumpId,
) -> Result<Vec<JudgedReel<'a>>, AllocError> {
    let mut judged = Vec::new(alloc);
    for reel in reels_of(reels, id.name(), id.level(), id.date()) {
        if let (Some(volume), Some(verdict)) = (reel.ended_volume(), reel.sum) {
            if volume.label.id().is_same(id) {
                judged.push(JudgedReel {
                    label: &volume.label,
                    verdict,
                })?;
            }
        }
    }
    Ok(judged)
}

/// Whether the line with this index is the last with which the dump begins.
fn is_last(catalog: &Catalog, id: &DumpId, at: usize) -> bool {
    match catalog.run(id) {
        Some(run) => at.saturating_add(1).saturating_add(run.after.len()) == catalog.lines().len(),
        None => false,
    }
}

fn is_wanted(id: &DumpId, wanted: &WantedDumps<'_>) -> bool {
    let has_name = match wanted.name {
        Some(name) => id.name() == name,
        None => true,
    };
    has_name
        && wanted.level.is_none_or(|level| id.level() == level)
        && wanted.date.is_none_or(|date| id.date() == date)
}
