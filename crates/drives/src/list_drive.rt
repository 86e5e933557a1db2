//! A drive in memory.

ghost use Rattle.std.specs.Prelude.{◌≡◌, ◌≢◌, ◌<◌, ◌≤◌, vec_capacity, is_some, [], ◌∷◌, ◌++◌, None, IsSome, IfOk, MatchBool, MatchResult, length, flat_map};
ghost use Rattle.std.specs.List.{list_any};
ghost use Rattle.std.specs.Option.{option_copied};
ghost use Rattle.std.specs.Str.{bytes_eq};
ghost use Rattle.drives.specs.Arranging.{slot_named};
ghost use Rattle.drives.specs.TapeLibrary.{drive_with, first_reel, with_first, latched_on};

use crate::ListedReel;
use crate::pick::{any_named, find_named};
use std::alloc::{AllocError, Global};
use std::marker::Model;
use tape::TroubledReel;

/// A drive of a `ListStacks`. A latched reel keeps its entry at the front of the stack, without the
/// reel.
#[derive(Drop)]
pub(crate) struct ListDrive {
    name: Vec<u8>,
    stack: Vec<ListedReel>,
}

impl Model for ListDrive {
    ghost use Rattle.drives.specs.TapeLibrary.{Drive, drive_with};
    ghost use Rattle.tape.specs.Trouble.{TroubledTape};

    ghost Value = { Drive TroubledTape };

    ghost view = { λ r. drive_with r.name.items r.stack.items };
}

impl ListDrive {
    pub(crate) fn new(alloc: Global, name: &[u8]) -> Result<ListDrive, AllocError>
        ensures { IfOk result (λ made. made ≡ drive_with name.now []) }
    {
        Ok(ListDrive {
            name: Vec::from_slice(alloc, name)?,
            stack: Vec::new(alloc),
        })
    }

    pub(crate) fn is_named(&self, name: &[u8]) -> bool
        ensures { MatchBool result (self.now.name ≡ name.now) (self.now.name ≢ name.now) }
    {
        self.name.as_slice() == name
    }

    pub(crate) fn stack(&self) -> &[ListedReel]
        ensures { result.now ≡ self.now.stack }
    {
        &self.stack
    }

    pub(crate) fn has_reel(&self, name: &[u8]) -> bool
        ensures { result ≡ list_any (λ x. bytes_eq name.now x.name) self.now.stack }
    {
        any_named(&self.stack, name)
    }

    pub(crate) fn is_ready(&self) -> bool
        ensures { MatchBool result (IsSome (first_reel self.now.stack)) (first_reel self.now.stack ≡ None) }
    {
        match self.stack.first() {
            Some(first) => first.reel().is_some(),
            None => false,
        }
    }

    pub(crate) fn is_latched(&self) -> bool
        ensures { result ≡ is_some (latched_on self.now.stack) }
    {
        match self.stack.first() {
            Some(first) => first.reel().is_none(),
            None => false,
        }
    }

    pub(crate) fn latch(&mut self) -> Option<TroubledReel>
        ensures taken { result ≡ first_reel self.old.stack }
        ensures away { self.new ≡ drive_with self.old.name (with_first None self.old.stack) }
    {
        match self.stack.first_mut() {
            Some(first) => first.take(),
            None => None,
        }
    }

    pub(crate) fn unlatch(&mut self, reel: TroubledReel)
        requires { 0 < length self.old.stack }
        ensures { self.new ≡ drive_with self.old.name (with_first (Some reel) self.old.stack) }
    {
        let first = &mut self.stack[0];
        first.put(reel);
    }

    pub(crate) fn remove_first(&mut self) -> ListedReel
        requires { 0 < length self.old.stack }
        ensures first { self.old.stack ≡ result ∷ self.new.stack }
        ensures name { self.new.name ≡ self.old.name }
    {
        self.stack.remove(0)
    }

    /// Moves the stack to the end of the bin.
    pub(crate) fn lay_off(&mut self, bin: &mut Vec<ListedReel>) -> Result<(), AllocError>
        ensures stack { MatchResult result (λ _. self.new ≡ drive_with self.old.name []) (λ _. self.new ≡ self.old) }
        ensures bin { MatchResult result (λ _. bin.new.items ≡ bin.old.items ++ self.old.stack) (λ _. bin.new.items ≡ bin.old.items) }
        ensures room { vec_capacity bin.old ≤ vec_capacity bin.new }
    {
        bin.append(&mut self.stack)
    }

    pub(crate) fn lay_on(&mut self, stack: Vec<ListedReel>)
        ensures { self.new ≡ drive_with self.old.name stack.items }
    {
        self.stack = stack;
    }

    pub(crate) fn push(&mut self, reel: ListedReel) -> Result<(), AllocError>
        ensures { MatchResult result (λ _. self.new ≡ drive_with self.old.name (self.old.stack ++ reel ∷ [])) (λ _. self.new ≡ self.old) }
    {
        self.stack.push(reel)?;
        Ok(())
    }
}

pub(crate) fn any_stacked(drives: &[ListDrive], name: &[u8]) -> bool
    ensures { result ≡ list_any (λ r. list_any (λ x. bytes_eq name.now x.name) r.stack) drives.now }
{
    drives.iter().any(|drive| drive.has_reel(name))
}

pub(crate) fn find_stacked<'a>(drives: &'a [ListDrive], name: &[u8]) -> Option<&'a ListedReel>
    ensures { option_copied result ≡ slot_named name.now (flat_map (λ r. r.stack) drives.now) }
{
    for drive in drives {
        if let Some(reel) = find_named(drive.stack(), name) {
            return Some(reel);
        }
    }
    None
}
