//! Enters lines in a catalog.
ghost use Rattle.std.specs.Prelude.{◌≡◌, ◌↔◌, IsTrue};
ghost use Rattle.whole_files.specs.WholeFile.{whole_file};
ghost use Rattle.catalog.specs.declared.line.CatalogLine.TheVariants.{Begun, Finished};
ghost use Rattle.catalog.specs.Run.{IsFinishedBy, IsInForce};
ghost use Rattle.dump_files.specs.Entering.{
  DecidesFinished,
  DecidesLine,
  IsBegunEntered,
  IsBegunPut,
  IsCatalogRead,
  IsEntered,
  IsPut,
  Stands,
  StandsIn,
};

use crate::counted_line::covers;
use catalog::{
    BegunLine, Catalog, CatalogFault, CatalogLine, CatalogRun, FinishedLine, SumLine, push_line,
};
use dump_client::{Blocks, Client};
use std::alloc::Global;
use whole_files::{FileFailed, WholeFile};

/// Why a line was not entered in a catalog. Only with `Unwritten` was a replacement tried.
#[derive(Clone, Copy, Debug, PartialEq, Eq)]
pub enum EnterFault {
    /// The file could not be read.
    Unread,
    /// The file is not a catalog, or an allocation failed.
    Catalog(CatalogFault),
    /// The file could not be replaced.
    Unwritten,
}

/// What became of a line that was to be entered. Only `Added` means that the file changed.
#[derive(Clone, Copy, Debug, PartialEq, Eq)]
pub enum Entered {
    /// It was added at the end.
    Added,
    /// It is in force already.
    There,
    /// The number of lines that say that its dump began is not the given one.
    Another,
    /// A counted volume of the dump has no line in force.
    Uncovered,
}

/// Adds the line of a dump that begins. A file that does not exist counts as empty. Returns how
/// many lines now say that the dump began.
pub fn enter_begun<F: WholeFile>(
    alloc: Global,
    file: &mut F,
    line: BegunLine,
) -> Result<usize, EnterFault>
    ensures { IsBegunEntered (whole_file F.gives F.takes) line file.old file.new result }
{
    match read_catalog(alloc, file) {
        Ok((text, catalog)) => put_begun(file, text, &catalog, line),
        Err(fault) => Err(fault),
    }
}

/// Adds a line as `enter_begun` does, if `begun` lines say that its dump began, and if it is not in
/// force already.
pub fn enter_line<F: WholeFile>(
    alloc: Global,
    file: &mut F,
    begun: usize,
    line: &CatalogLine,
) -> Result<Entered, EnterFault>
    ensures { IsEntered (whole_file F.gives F.takes) (DecidesLine begun line.now) line.now file.old file.new result }
{
    let (text, catalog) = read_catalog(alloc, file)?;
    let entered = decide_line(&catalog, begun, line);
    match entered {
        Entered::Added => put_line(file, text, line),
        _ => Ok(entered),
    }
}

/// Enters the line of a finished dump as `enter_line` does, if each counted volume of the client
/// has a line in force.
pub fn enter_finished<F: WholeFile, B: Blocks>(
    alloc: Global,
    file: &mut F,
    begun: usize,
    client: &Client<B>,
    line: FinishedLine,
) -> Result<Entered, EnterFault>
    ensures { IsEntered (whole_file F.gives F.takes) (DecidesFinished begun client.now.at (Finished line)) (Finished line) file.old file.new result }
{
    let line = CatalogLine::Finished(line);
    let (text, catalog) = read_catalog(alloc, file)?;
    let entered = decide_finished(&catalog, begun, client, &line);
    match entered {
        Entered::Added => put_line(file, text, &line),
        _ => Ok(entered),
    }
}

fn read_catalog<F: WholeFile>(alloc: Global, file: &mut F) -> Result<(Vec<u8>, Catalog), EnterFault>
    ensures { IsCatalogRead (whole_file F.gives F.takes) file.old file.new result }
{
    let Ok(bytes) = file.read(alloc) else {
        return Err(EnterFault::Unread);
    };
    let text = bytes.unwrap_or(Vec::new(alloc));
    match Catalog::read(alloc, &text) {
        Ok(catalog) => Ok((text, catalog)),
        Err(fault) => Err(EnterFault::Catalog(fault)),
    }
}

fn put_line<F: WholeFile>(
    file: &mut F,
    mut text: Vec<u8>,
    line: &CatalogLine,
) -> Result<Entered, EnterFault>
    ensures { IsPut (whole_file F.gives F.takes) line.now text.items file.old file.new result }
{
    if push_line(&mut text, line).is_err() {
        return Err(EnterFault::Catalog(CatalogFault::OutOfMemory));
    }
    match file.replace(&text) {
        Ok(()) => Ok(Entered::Added),
        Err(FileFailed) => Err(EnterFault::Unwritten),
    }
}

fn put_begun<F: WholeFile>(
    file: &mut F,
    text: Vec<u8>,
    catalog: &Catalog,
    line: BegunLine,
) -> Result<usize, EnterFault>
    ensures { IsBegunPut (whole_file F.gives F.takes) line catalog.now text.items file.old file.new result }
{
    // A file has fewer lines.
    let Some(begun) = catalog.begun(line.id()).checked_add(1) else {
        return Err(EnterFault::Catalog(CatalogFault::OutOfMemory));
    };
    match put_line(file, text, &CatalogLine::Begun(line)) {
        Ok(_) => Ok(begun),
        Err(fault) => Err(fault),
    }
}

fn decide_line(catalog: &Catalog, begun: usize, line: &CatalogLine) -> Entered
    ensures { DecidesLine begun line.now catalog.now result }
{
    if catalog.begun(line.id()) != begun {
        return Entered::Another;
    }
    if stands(catalog, line) {
        Entered::There
    } else {
        Entered::Added
    }
}

fn decide_finished<B: Blocks>(
    catalog: &Catalog,
    begun: usize,
    client: &Client<B>,
    line: &CatalogLine,
) -> Entered
    ensures { DecidesFinished begun client.now.at line.now catalog.now result }
{
    if !covers(catalog, client.run(), client.counted()) {
        return Entered::Uncovered;
    }
    decide_line(catalog, begun, line)
}

/// No line with which a dump begins is in force.
fn stands(catalog: &Catalog, line: &CatalogLine) -> bool
    ensures { IsTrue result ↔ Stands catalog.now line.now }
{
    match catalog.run(line.id()) {
        Some(lately) => stands_in(&lately, line),
        None => false,
    }
}

fn stands_in(lately: &CatalogRun<'_>, line: &CatalogLine) -> bool
    ensures { IsTrue result ↔ StandsIn lately.now.after.now lately.now.begun.now.id line.now }
{
    match line {
        CatalogLine::Begun(_) => false,
        CatalogLine::Volume(volume) => has_volume(lately, volume),
        CatalogLine::Finished(finished) => has_finished(lately, finished),
    }
}

fn has_volume(lately: &CatalogRun<'_>, volume: &SumLine) -> bool
    ensures { IsTrue result ↔ IsInForce lately.now.after.now lately.now.begun.now.id volume.now }
{
    match lately.volume(volume.label().volume()) {
        Some(held) => is_same(held, volume),
        None => false,
    }
}

fn has_finished(lately: &CatalogRun<'_>, finished: &FinishedLine) -> bool
    ensures { IsTrue result ↔ IsFinishedBy lately.now.after.now lately.now.begun.now.id finished.now }
{
    match lately.finished() {
        Some(held) => held.is_same(finished),
        None => false,
    }
}

fn is_same(one: &SumLine, other: &SumLine) -> bool
    ensures { IsTrue result ↔ (one.now ≡ other.now) }
{
    one.sum() == other.sum()
        && one.label().is_same_dump(other.label())
        && one.label().volume() == other.label().volume()
        && one.label().first() == other.label().first()
        && one.blocks() == other.blocks()
        && one.block_bytes() == other.block_bytes()
}
