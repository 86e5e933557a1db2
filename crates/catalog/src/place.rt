//! The places of a catalog's lines, sorted by their dumps.

ghost use Rattle.std.specs.Prelude.{◌≡◌, List, IfOk, length};
ghost use Rattle.std.specs.List.{fold};
ghost use Rattle.std.specs.List.Sorted.{IsNonDecreasingBy};
ghost use Rattle.catalog.specs.declared.line.CatalogLine.{CatalogLine};
ghost use Rattle.catalog.specs.declared.place.Place.{Place};
ghost use Rattle.catalog.specs.Places as spec;
ghost use Rattle.catalog.specs.Places.{AreInOrder, ArePlaces, HasLinesOf, IsFirstAbove, IsFirstFrom};

use crate::CatalogLine;
use dump_run::DumpId;
use std::alloc::{AllocError, Global};

/// A factor that spreads the keys of dumps, as the hash function FNV has it.
const FACTOR: u64 = 1_099_511_628_211;

/// One more than the greatest index of a line.
const KEYS: u128 = 1 << 64;

/// The place of a line.
#[derive(Clone, Copy)]
pub(crate) struct Place {
    /// The key of the line's dump. Different dumps may have the same key.
    pub(crate) key: u64,
    /// The index of the line.
    pub(crate) at: usize,
}

pub(crate) fn sorted_places(alloc: Global, lines: &[CatalogLine]) -> Result<Vec<Place>, AllocError>
    ensures { IfOk result (λ places. ArePlaces lines.now places.items) }
{
    let mut places = unsorted_places(alloc, lines)?;
    places.sort_unstable_by_key(|place| u128::from(place.key) * KEYS + place.at as u128);
    Ok(places)
}

fn unsorted_places(alloc: Global, lines: &[CatalogLine]) -> Result<Vec<Place>, AllocError>
    ensures { IfOk result (λ places. AreInOrder lines.now places.items (length lines.now)) }
{
    let mut places = Vec::new(alloc);
    for at in 0..lines.len() {
        let key = key_of(lines[at].id());
        places.push(Place { key, at })?;
    }
    Ok(places)
}

/// Returns those of the sorted places that have the key of this dump.
pub(crate) fn places_of<'a>(places: &'a [Place], id: &DumpId) -> &'a [Place]
    requires { IsNonDecreasingBy (λ (p : Place). p.key) places.now }
    ensures { (lines : List CatalogLine) → ArePlaces lines places.now → HasLinesOf lines 0 result.now id.now }
{
    let key = key_of(id);
    let from = &places[first_from(places, key)..];
    &from[..first_above(from, key)]
}

fn first_from(places: &[Place], key: u64) -> usize
    requires { IsNonDecreasingBy (λ (p : Place). p.key) places.now }
    ensures { IsFirstFrom places.now key result }
{
    places.partition_point(|place| place.key < key)
}

fn first_above(places: &[Place], key: u64) -> usize
    requires { IsNonDecreasingBy (λ (p : Place). p.key) places.now }
    ensures { IsFirstAbove places.now key result }
{
    places.partition_point(|place| place.key <= key)
}

#[tactic(auto, unfolding(crate::specs::Places::key_of))]
fn key_of(id: &DumpId) -> u64
    ensures { result ≡ spec.key_of id.now }
{
    let level = mixed(0, u64::from(id.level()));
    let dates = mixed(mixed(level, id.date()), id.since());
    mixed_all(dates, id.name().as_bytes())
}

#[tactic(auto, using(std::proofs::lemmas::List::Sums::fold_more))]
fn mixed_all(key: u64, bytes: &[u8]) -> u64
    ensures { result ≡ fold spec.mixed key bytes.now }
{
    let mut all = key;
    for byte in bytes {
        all = mixed(all, u64::from(*byte));
    }
    all
}

#[tactic(auto, unfolding(crate::specs::Places::mixed))]
fn mixed(key: u64, number: u64) -> u64
    ensures { result ≡ spec.mixed key number }
{
    key.wrapping_mul(FACTOR).wrapping_add(number)
}
