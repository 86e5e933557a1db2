//! The history of a world: what is recorded of everything that happened.
ghost use Rattle.std.specs.Prelude.{◌≡◌, ◌∷◌, ◌++◌, [], true, IfOk};
ghost use Rattle.tape_world.specs.Seen.{IsSameHistory, seen_entered};

use dump_client::VolumeCount;
use std::alloc::AllocError;
use std::marker::Model;

/// A volume that was counted. `reel` is the index of the reel's name in `History::names`.
#[derive(Clone, Copy)]
pub(crate) struct Count {
    pub(crate) run: usize,
    pub(crate) volume: u32,
    pub(crate) first: u32,
    pub(crate) count: u32,
    pub(crate) reel: usize,
    pub(crate) connection: usize,
}

/// An open for writing that was accepted.
#[derive(Clone, Copy)]
pub(crate) struct Opening {
    pub(crate) connection: usize,
    pub(crate) reel: usize,
}

/// A write by a session that had this reel open for writing. `after` is how many opens were listed
/// before it.
#[derive(Clone, Copy)]
pub(crate) struct Writing {
    pub(crate) connection: usize,
    pub(crate) reel: usize,
    pub(crate) after: usize,
}

/// A run that was entered in dumpdates.
#[derive(Drop)]
pub(crate) struct Entered {
    pub(crate) run: usize,
    /// The counts that the client had then.
    pub(crate) counts: Vec<VolumeCount>,
}

/// Everything that happened, in order of time. Contracts see each reel's name in place of its
/// index.
#[derive(Drop)]
pub(crate) struct History {
    /// The names of all reels.
    pub(crate) names: Vec<Vec<u8>>,
    pub(crate) counts: Vec<Count>,
    pub(crate) opens: Vec<Opening>,
    /// For each open, the counts that the client had then. The list is empty if there was no
    /// client.
    pub(crate) lists: Vec<Vec<VolumeCount>>,
    pub(crate) writings: Vec<Writing>,
    pub(crate) entered: Vec<Entered>,
}

impl Model for History {
    ghost use Rattle.std.specs.Prelude.{map};
    ghost use Rattle.tape_world.specs.Seen.{HistoryHeld, has_room, seen_count, seen_entered, seen_lists, seen_openings, seen_writings};

    ghost Value = { HistoryHeld };

    ghost view = { λ b. record {
      names = map (λ n. n.items) b.names.items;
      counts = map (seen_count (map (λ n. n.items) b.names.items)) b.counts.items;
      opens = seen_openings b.names.items b.opens.items;
      lists = seen_lists b.lists.items;
      writings = seen_writings b.names.items b.writings.items;
      entered = map seen_entered b.entered.items;
      rooms = record {
        counts = has_room b.counts;
        opens = has_room b.opens;
        lists = has_room b.lists;
        writings = has_room b.writings;
        entered = has_room b.entered;
      };
    } };
}

impl History {
    pub(crate) fn reserve_count(&mut self) -> Result<(), AllocError>
        ensures room { IfOk result (λ done. self.new.rooms.counts ≡ true) }
        ensures same { IsSameHistory self.old self.new }
    {
        self.counts.reserve(1)
    }

    pub(crate) fn reserve_entered(&mut self) -> Result<(), AllocError>
        ensures room { IfOk result (λ done. self.new.rooms.entered ≡ true) }
        ensures same { IsSameHistory self.old self.new }
    {
        self.entered.reserve(1)
    }

    /// Adds a run that was entered. There must be room for it.
    pub(crate) fn add_entered(&mut self, entered: Entered)
        requires { self.old.rooms.entered ≡ true }
        ensures { self.new ≡ record self.old { entered = self.old.entered ++ seen_entered entered ∷ []; rooms = self.new.rooms } }
    {
        self.entered.push_reserved(entered);
    }
}
