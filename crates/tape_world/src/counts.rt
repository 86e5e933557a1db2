//! The volumes that were counted, as a world returns them.
ghost use Rattle.std.specs.Prelude.{◌≡◌, ◌↔◌, true, [], length, map, slice_get};
ghost use Rattle.std.specs.Option.{option_map};
ghost use Rattle.tape_world.specs.Seen.{name_at, seen_count};
ghost use Rattle.tape_world.specs.Telling.{plain_count};

use crate::history::Count;
use std::marker::Model;

/// A volume that was counted.
#[derive(Clone, Copy, Debug, PartialEq, Eq)]
pub struct CountedVolume<'a> {
    /// The number of its run. Runs are numbered from 1.
    pub run: usize,
    /// The number of the volume in its run, from 1.
    pub volume: u32,
    /// Its first block, from 0.
    pub first: u32,
    /// How many blocks it has.
    pub count: u32,
    /// The name of the reel that the connection opened first for writing.
    pub reel: &'a [u8],
    /// The connection on which it was written. Connections are numbered from 1.
    pub connection: usize,
}

/// All volumes that were counted, in the order in which they were counted.
#[derive(Drop)]
pub struct Counts<'a> {
    pub(crate) names: &'a [Vec<u8>],
    pub(crate) counts: &'a [Count],
}

impl<'a> Model for Counts<'a> {
    ghost use Rattle.std.specs.Prelude.{List, map};
    ghost use Rattle.world_model.specs.World.{Count};
    ghost use Rattle.tape_world.specs.Seen.{seen_count};

    ghost Value = { List Count };

    ghost view = { λ c. map (seen_count (map (λ name. name.items) c.names.now)) c.counts.now };
}

impl<'a> Counts<'a> {
    /// Returns how many counted volumes there are.
    pub fn len(&self) -> usize
        ensures { result ≡ length self.now }
    {
        self.counts.len()
    }

    /// Returns whether the list of counted volumes is empty.
    pub fn is_empty(&self) -> bool
        ensures { (result ≡ true) ↔ (self.now ≡ []) }
    {
        self.counts.is_empty()
    }

    /// Returns the counted volume at index `i`, from 0, or `None` past the last.
    pub fn get(&self, i: usize) -> Option<CountedVolume<'a>>
        ensures { option_map plain_count result ≡ slice_get self.now i }
    {
        let count = self.counts.get(i)?;
        Some(told(self.names, count))
    }
}

/// Returns this count, with the name of its reel.
fn told<'a>(names: &'a [Vec<u8>], count: &Count) -> CountedVolume<'a>
    ensures { plain_count result ≡ seen_count (map (λ name. name.items) names.now) count.now }
{
    CountedVolume {
        run: count.run,
        volume: count.volume,
        first: count.first,
        count: count.count,
        reel: name_at(names, count.reel),
        connection: count.connection,
    }
}

/// Returns the name at this place, or the empty name past the last.
fn name_at(names: &[Vec<u8>], place: usize) -> &[u8]
    ensures { result.now ≡ name_at (map (λ name. name.items) names.now) place }
{
    match names.get(place) {
        Some(name) => name,
        None => &[],
    }
}
