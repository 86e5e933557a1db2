//! The last line of a kind among the lines of a dump.
//!
//! `lines` are lines of a catalog, and `base` is the index in the catalog of the first of them.
//! `places` are in the order of their lines, and have each line of the dump that is among `lines`.
//! They can also have lines of other dumps with the same key, and lines that are not among `lines`.
//! So each line is tested.

ghost use Rattle.std.specs.Prelude.{◌≡◌, ◌<◌, IfSome, IsNone, length};
ghost use Rattle.dump_run.specs.Label.{id_of};
ghost use Rattle.catalog.specs.SumLine.{PlainSumLine};
ghost use Rattle.catalog.specs.Places.{FindsIndex, HasLinesOf};
ghost use Rattle.catalog.specs.Run.{Begins, FindsLast, IsInForce, IsPastBegun, IsUpTo};
ghost use Rattle.catalog.specs.Verdict.{IsSumOf};

use crate::place::Place;
use crate::{CatalogLine, SumLine};
use dump_run::{DumpId, VolumeLabel};

pub(crate) fn in_force<'a>(
    lines: &'a [CatalogLine],
    base: usize,
    places: &[Place],
    id: &DumpId,
    number: u32,
) -> Option<&'a SumLine>
    requires { HasLinesOf lines.now base places.now id.now }
    ensures some { IfSome result (λ v. IsInForce lines.now id.now v.now × (v.now.label.volume ≡ number)) }
    ensures none { IsNone result → (v : PlainSumLine) → IsInForce lines.now id.now v → v.label.volume ≡ number → ⊥ }
{
    let at = last_up_to(lines, base, places, id, number)?;
    match &lines[at] {
        CatalogLine::Volume(volume) if volume.label().volume() == number => Some(volume),
        _ => None,
    }
}

pub(crate) fn last_begun(
    lines: &[CatalogLine],
    base: usize,
    places: &[Place],
    id: &DumpId,
) -> Option<usize>
    requires { HasLinesOf lines.now base places.now id.now }
    ensures { FindsLast (Begins id.now) lines.now result }
{
    let mut left = places.len();
    while left > 0 {
        left -= 1;
        if let Some(at) = index_in(lines.len(), base, places[left].at) {
            if lines[at].begins(id) {
                return Some(at);
            }
        }
    }
    None
}

pub(crate) fn last_past_begun(
    lines: &[CatalogLine],
    base: usize,
    places: &[Place],
    id: &DumpId,
) -> Option<usize>
    requires { HasLinesOf lines.now base places.now id.now }
    ensures { FindsLast (IsPastBegun id.now) lines.now result }
{
    let mut left = places.len();
    while left > 0 {
        left -= 1;
        if let Some(at) = index_in(lines.len(), base, places[left].at) {
            if lines[at].is_past_begun(id) {
                return Some(at);
            }
        }
    }
    None
}

fn last_up_to(
    lines: &[CatalogLine],
    base: usize,
    places: &[Place],
    id: &DumpId,
    number: u32,
) -> Option<usize>
    requires { HasLinesOf lines.now base places.now id.now }
    ensures { FindsLast (IsUpTo id.now number) lines.now result }
{
    let mut left = places.len();
    while left > 0 {
        left -= 1;
        if let Some(at) = index_in(lines.len(), base, places[left].at) {
            if lines[at].is_up_to(id, number) {
                return Some(at);
            }
        }
    }
    None
}

pub(crate) fn last_of_sum(
    lines: &[CatalogLine],
    base: usize,
    places: &[Place],
    label: &VolumeLabel,
    sum: &[u8; 32],
) -> Option<usize>
    requires { HasLinesOf lines.now base places.now (id_of label.now) }
    ensures { FindsLast (IsSumOf label.now sum.now) lines.now result }
{
    let mut left = places.len();
    while left > 0 {
        left -= 1;
        if let Some(at) = index_in(lines.len(), base, places[left].at) {
            if lines[at].has(label, sum) {
                return Some(at);
            }
        }
    }
    None
}

/// Returns the index among `len` lines of the line with the index `at` in the catalog, if it is one
/// of them. The first of them has the index `base` in the catalog.
fn index_in(len: usize, base: usize, at: usize) -> Option<usize>
    ensures { FindsIndex len base at result }
{
    let index = at.checked_sub(base)?;
    if index < len { Some(index) } else { None }
}
