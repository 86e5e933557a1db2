//! The lines of a catalog.
ghost use Rattle.std.specs.Prelude.{◌≡◌, ◌↔◌, IfOk, IfErr, IsTrue, All};
ghost use Rattle.catalog.specs.Catalog.{SpellsCatalog, HasCatalogFault};
ghost use Rattle.dump_run.specs.Label.{id_of};
ghost use Rattle.catalog.specs.Line.{IsLine, line_text};
ghost use Rattle.catalog.specs.Places.{HasLinesOf};
ghost use Rattle.catalog.specs.Run.{HasBegun, IsRunIn};
ghost use Rattle.catalog.specs.Verdict.{HasSum, IsRunVerdict, IsVerdict, KnowsLabel, KnowsSum};
ghost use Rattle.catalog.specs.Reading.{FindsRest, FindsLine};

use crate::last_line::{in_force, last_begun, last_of_sum};
use crate::place::{Place, places_of, sorted_places};
use crate::read_line::read_line;
use crate::{CatalogFault, CatalogLine, CatalogRun, SumVerdict, push_line};
use dump_run::{DumpId, VolumeLabel};
use std::alloc::{AllocError, Global};
use std::marker::Model;

/// The lines of a catalog, in order.
#[derive(Drop)]
pub struct Catalog {
    lines: Vec<CatalogLine>,
    places: Vec<Place>,
}

impl Model for Catalog {
    ghost use Rattle.std.specs.Prelude.{List, All};
    ghost use Rattle.catalog.specs.Line.{IsLine};
    ghost use Rattle.catalog.specs.Places.{ArePlaces};
    ghost use Rattle.catalog.specs.declared.line.CatalogLine.{CatalogLine};

    ghost Value = { List CatalogLine };

    ghost view = { λ c. c.lines.items };

    ghost invariant = { λ c. All IsLine c.lines.items × ArePlaces c.lines.items c.places.items };
}

impl Catalog {
    /// Reads the lines of a catalog, as `push_line` writes them. An empty file has no lines.
    ///
    /// Errors:
    /// - `BadLine(n)`: line `n` is the first that does not have its form or breaks a limit. The
    ///   limits are those of `DumpId::new`, `VolumeLabel::new`, `SumLine::new` and
    ///   `FinishedLine::new`. A line is also bad if it does not end with a line feed, or if it is
    ///   that of a volume and its last number is not the size of the volume's record file.
    /// - `OutOfMemory`: an allocation fails.
    pub fn read(alloc: Global, bytes: &[u8]) -> Result<Catalog, CatalogFault>
        ensures spelled { IfOk result (SpellsCatalog bytes.now) }
        ensures refused { IfErr result (HasCatalogFault bytes.now) }
    {
        let mut lines = Vec::new(alloc);
        let mut text = Vec::new(alloc);
        let mut rest = bytes;
        while !rest.is_empty() {
            let Some((line, more)) = first_line(&mut text, rest)? else {
                return Err(CatalogFault::BadLine(lines.len() + 1));
            };
            if lines.push(line).is_err() {
                return Err(CatalogFault::OutOfMemory);
            }
            rest = more;
        }
        let places = sorted_places(alloc, &lines)?;
        Ok(Catalog { lines, places })
    }

    /// Returns the lines, in the order of the file.
    pub fn lines(&self) -> &[CatalogLine]
        ensures told { result.now ≡ self.now }
        ensures limits { All IsLine self.now }
    {
        &self.lines
    }

    /// Returns the lines that follow the last one with which the dump began, or None if there is no
    /// such line.
    pub fn run(&self, id: &DumpId) -> Option<CatalogRun<'_>>
        ensures { IsRunIn self.now id.now result }
    {
        let places = places_of(&self.places, id);
        let at = last_begun(&self.lines, 0, places, id)?;
        match &self.lines[at] {
            CatalogLine::Begun(begun) => Some(CatalogRun {
                begun,
                after: &self.lines[at + 1..],
                base: at + 1,
                places,
            }),
            CatalogLine::Volume(_) | CatalogLine::Finished(_) => None,
        }
    }

    /// Returns with how many lines the dump began.
    pub fn begun(&self, id: &DumpId) -> usize
        ensures { HasBegun id.now self.now result }
    {
        let mut count = 0;
        let mut at = self.lines.len();
        while at > 0 {
            at -= 1;
            if self.lines[at].begins(id) {
                count += 1;
            }
        }
        count
    }

    /// Compares the sum of a volume with the lines that have the volume's label. Two labels are the
    /// same if all six parts are.
    ///
    /// Returns the first that applies of `Equal`, `Anew`, `Void`, `Differs` and `Unknown`, and
    /// `Unknown` if no line says that the dump began.
    pub fn compare(&self, label: &VolumeLabel, sum: &[u8; 32]) -> SumVerdict
        ensures { IsVerdict self.now label.now sum.now result }
    {
        verdict(&self.lines, places_of(&self.places, label.id()), label, sum)
    }
}

#[tactic(auto, using(crate::proofs::Places::has_before, crate::proofs::Places::has_after))]
fn verdict(
    lines: &[CatalogLine],
    places: &[Place],
    label: &VolumeLabel,
    sum: &[u8; 32],
) -> SumVerdict
    requires { HasLinesOf lines.now 0 places.now (id_of label.now) }
    ensures { IsVerdict lines.now label.now sum.now result }
{
    let Some(at) = last_begun(lines, 0, places, label.id()) else {
        return SumVerdict::Unknown;
    };
    run_verdict(&lines[..at], &lines[at + 1..], at + 1, places, label, sum)
}

/// `before` and `after` are the lines before and after the last one with which the dump began, and
/// `base` is the index of the first line of `after`.
fn run_verdict(
    before: &[CatalogLine],
    after: &[CatalogLine],
    base: usize,
    places: &[Place],
    label: &VolumeLabel,
    sum: &[u8; 32],
) -> SumVerdict
    requires before { HasLinesOf before.now 0 places.now (id_of label.now) }
    requires after { HasLinesOf after.now base places.now (id_of label.now) }
    ensures { IsRunVerdict before.now after.now label.now sum.now result }
{
    if knows_sum(after, base, places, label, sum) {
        SumVerdict::Equal
    } else if has_sum(before, 0, places, label, sum) {
        SumVerdict::Anew
    } else if has_sum(after, base, places, label, sum) {
        SumVerdict::Void
    } else if knows_label(after, base, places, label) {
        SumVerdict::Differs
    } else {
        SumVerdict::Unknown
    }
}

fn has_sum(
    lines: &[CatalogLine],
    base: usize,
    places: &[Place],
    label: &VolumeLabel,
    sum: &[u8; 32],
) -> bool
    requires { HasLinesOf lines.now base places.now (id_of label.now) }
    ensures { IsTrue result ↔ HasSum lines.now label.now sum.now }
{
    last_of_sum(lines, base, places, label, sum).is_some()
}

fn knows_label(after: &[CatalogLine], base: usize, places: &[Place], label: &VolumeLabel) -> bool
    requires { HasLinesOf after.now base places.now (id_of label.now) }
    ensures { IsTrue result ↔ KnowsLabel after.now label.now }
{
    match in_force(after, base, places, label.id(), label.volume()) {
        Some(volume) => volume.is_of(label),
        None => false,
    }
}

fn knows_sum(
    after: &[CatalogLine],
    base: usize,
    places: &[Place],
    label: &VolumeLabel,
    sum: &[u8; 32],
) -> bool
    requires { HasLinesOf after.now base places.now (id_of label.now) }
    ensures { IsTrue result ↔ KnowsSum after.now label.now sum.now }
{
    match in_force(after, base, places, label.id(), label.volume()) {
        Some(volume) => volume.has(label, sum),
        None => false,
    }
}

/// Returns the good line at the beginning of `bytes`, if there is one, and the bytes after it. It
/// overwrites `text`.
fn first_line<'a>(
    text: &mut Vec<u8>,
    bytes: &'a [u8],
) -> Result<Option<(CatalogLine, &'a [u8])>, AllocError>
    ensures { IfOk result (FindsLine bytes.now) }
{
    let Some(line) = read_line(bytes) else {
        return Ok(None);
    };
    match after_line(text, &line, bytes)? {
        Some(rest) => Ok(Some((line, rest))),
        None => Ok(None),
    }
}

fn after_line<'a>(
    text: &mut Vec<u8>,
    line: &CatalogLine,
    bytes: &'a [u8],
) -> Result<Option<&'a [u8]>, AllocError>
    ensures { IfOk result (FindsRest (line_text line.now) bytes.now) }
{
    text.clear();
    push_line(text, line)?;
    Ok(bytes.strip_prefix(text.as_slice()))
}
