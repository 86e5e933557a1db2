//! A reel in memory.

ghost use Rattle.std.specs.Prelude.{◌≡◌, Some, None, IfOk, MatchOption};
ghost use Rattle.std.specs.Str.{bytes_eq};
ghost use Rattle.drives.specs.TapeLibrary.{slot};
ghost use Rattle.drives.specs.ListLibrary.{blank_reel};

use std::alloc::{AllocError, Global};
use std::marker::Model;
use tape::{ListReel, TroubledReel};

/// The entry of one reel on a stack or in the bin of a `ListStacks`. While the reel is latched, the
/// entry has only the name.
#[derive(Drop)]
pub struct ListedReel {
    name: Vec<u8>,
    reel: Option<TroubledReel>,
}

impl Model for ListedReel {
    ghost use Rattle.drives.specs.TapeLibrary.{ReelSlot, slot};
    ghost use Rattle.tape.specs.Trouble.{TroubledTape};

    ghost Value = { ReelSlot TroubledTape };

    ghost view = { λ x. slot x.name.items x.reel };
}

impl ListedReel {
    /// An entry with an empty reel. `capacity` is in bytes.
    pub(crate) fn new(alloc: Global, name: &[u8], capacity: u64) -> Result<ListedReel, AllocError>
        ensures { IfOk result (λ made. made ≡ slot name.now (Some (blank_reel capacity))) }
    {
        let name = Vec::from_slice(alloc, name)?;
        let reel = TroubledReel::new(ListReel::new(alloc, capacity));
        Ok(ListedReel {
            name,
            reel: Some(reel),
        })
    }

    /// Returns the name of the reel.
    pub fn name(&self) -> &[u8]
        ensures { result.now ≡ self.now.name }
    {
        &self.name
    }

    /// Returns the reel, or `None` while the reel is latched.
    pub fn reel(&self) -> Option<&TroubledReel>
        ensures { MatchOption result (self.now.reel ≡ None) (λ reel. self.now.reel ≡ Some reel.now) }
    {
        self.reel.as_ref()
    }

    pub(crate) fn is_named(&self, name: &[u8]) -> bool
        ensures { result ≡ bytes_eq name.now self.now.name }
    {
        name == self.name.as_slice()
    }

    pub(crate) fn take(&mut self) -> Option<TroubledReel>
        ensures taken { result ≡ self.old.reel }
        ensures away { self.new ≡ slot self.old.name None }
    {
        self.reel.take()
    }

    pub(crate) fn put(&mut self, reel: TroubledReel)
        ensures { self.new ≡ slot self.old.name (Some reel) }
    {
        self.reel = Some(reel);
    }
}
