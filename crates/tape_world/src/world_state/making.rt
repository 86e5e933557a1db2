//! A world in which nothing has happened.
ghost use Rattle.std.specs.Prelude.{◌≡◌, ◌<◌, ◌++◌, [], None, IfOk, OnOk, length, map};
ghost use Rattle.std.specs.List.{flat_map};
ghost use Rattle.drives.specs.TapeLibrary.{EachReelOnce, IsDriveNamed};
ghost use Rattle.drives.specs.ListLibrary.{IsLibrary, library_of, StacksCanFail};
ghost use Rattle.world_model.specs.First.{AreGoodDrives, first_world};
ghost use Rattle.tape_world.specs.Making.{plain_drive_spec, reels_of, blank_slots, laid_library, with_laid, with_slots};

use super::WorldState;
use crate::connections::Connections;
use crate::drive_spec::DriveSpec;
use crate::history::History;
use drives::{DriveFault, ListStacks};
use dumpdates::Dates;
use std::alloc::{AllocError, Global};
use world_host::Host;

/// Adds blank reels of these names, of this capacity in bytes, at the end of the stack of a drive.
fn add_reels(
    stacks: &mut ListStacks,
    drive: usize,
    names: &[&[u8]],
    capacity: u64,
) -> Result<(), AllocError>
    requires there { drive < length stacks.old.library.drives }
    requires told { IsLibrary stacks.old (library_of stacks.old) }
    requires once { EachReelOnce (with_slots stacks.old.library drive (blank_slots capacity (map (λ n. n.now) names.now))) }
    ensures added { OnOk result (stacks.new.library ≡ with_slots stacks.old.library drive (blank_slots capacity (map (λ n. n.now) names.now))) }
    ensures told { IsLibrary stacks.new (library_of stacks.new) }
    ensures quiet { StacksCanFail stacks.new → StacksCanFail stacks.old }
{
    for name in names {
        if let Err(fault) = stacks.add_reel(drive, name, capacity) {
            prove!(matches!(fault, DriveFault::OutOfMemory));
            return Err(AllocError);
        }
    }
    Ok(())
}

/// Adds a drive with its reels, all of them blank.
fn add_drive(stacks: &mut ListStacks, drive: &DriveSpec<'_>) -> Result<(), AllocError>
    requires free { IsDriveNamed drive.now.name.now stacks.old.library None }
    requires once { EachReelOnce (with_laid stacks.old.library drive.now) }
    ensures added { OnOk result (stacks.new.library ≡ with_laid stacks.old.library drive.now) }
    ensures told { IsLibrary stacks.new (library_of stacks.new) }
    ensures quiet { StacksCanFail stacks.new → StacksCanFail stacks.old }
{
    let number = match stacks.add_drive(drive.name) {
        Ok(number) => number,
        Err(fault) => {
            prove!(matches!(fault, DriveFault::OutOfMemory));
            return Err(AllocError);
        }
    };
    add_reels(stacks, number, drive.reels, drive.capacity)
}

/// Makes the stacks of these drives, with their reels, all of them blank.
fn stacks_of(alloc: Global, drives: &[DriveSpec<'_>]) -> Result<ListStacks, AllocError>
    requires { AreGoodDrives (map plain_drive_spec drives.now) }
    ensures laid { IfOk result (λ s. s.library ≡ laid_library drives.now) }
    ensures told { IfOk result (λ s. IsLibrary s (library_of s)) }
    ensures quiet { IfOk result (λ s. StacksCanFail s → ⊥) }
{
    let mut stacks = ListStacks::new(alloc);
    for drive in drives {
        add_drive(&mut stacks, drive)?;
    }
    Ok(stacks)
}

/// Copies the names of all reels of these drives, in order.
fn names_of(alloc: Global, drives: &[DriveSpec<'_>]) -> Result<Vec<Vec<u8>>, AllocError>
    ensures { IfOk result (λ names. map (λ n. n.items) names.items ≡ flat_map reels_of drives.now) }
{
    let mut names = Vec::new(alloc);
    for drive in drives {
        push_names(alloc, &mut names, drive.reels)?;
    }
    Ok(names)
}

fn push_names(alloc: Global, names: &mut Vec<Vec<u8>>, more: &[&[u8]]) -> Result<(), AllocError>
    ensures { OnOk result (map (λ n. n.items) names.new.items ≡ map (λ n. n.items) names.old.items ++ map (λ n. n.now) more.now) }
{
    for name in more {
        names.reserve(1)?;
        names.push_reserved(Vec::from_slice(alloc, name)?);
    }
    Ok(())
}

/// Makes a history that has the names of all reels of these drives, and nothing else.
fn history_of(alloc: Global, drives: &[DriveSpec<'_>]) -> Result<History, AllocError>
    ensures names { IfOk result (λ b. b.names ≡ flat_map reels_of drives.now) }
    ensures counts { IfOk result (λ b. b.counts ≡ []) }
    ensures opens { IfOk result (λ b. b.opens ≡ []) }
    ensures lists { IfOk result (λ b. b.lists ≡ []) }
    ensures writings { IfOk result (λ b. b.writings ≡ []) }
    ensures entered { IfOk result (λ b. b.entered ≡ []) }
{
    Ok(History {
        names: names_of(alloc, drives)?,
        counts: Vec::new(alloc),
        opens: Vec::new(alloc),
        lists: Vec::new(alloc),
        writings: Vec::new(alloc),
        entered: Vec::new(alloc),
    })
}

impl WorldState {
    /// Makes a world with these drives, whose reels are blank, no connection and no client.
    pub(crate) fn new(alloc: Global, drives: &[DriveSpec<'_>]) -> Result<WorldState, AllocError>
        requires { AreGoodDrives (map plain_drive_spec drives.now) }
        ensures { IfOk result (λ w. w ≡ first_world (map plain_drive_spec drives.now)) }
    {
        let stacks = stacks_of(alloc, drives)?;
        let host = Host::new(alloc, drives.len(), stacks)?;
        WorldState::with_host(alloc, drives, host)
    }

    /// Like `new`, for `host`, the server with these drives.
    fn with_host(
        alloc: Global,
        drives: &[DriveSpec<'_>],
        host: Host,
    ) -> Result<WorldState, AllocError>
        requires { host.server ≡ (first_world (map plain_drive_spec drives.now)).server }
        ensures { IfOk result (λ w. w ≡ first_world (map plain_drive_spec drives.now)) }
    {
        let history = history_of(alloc, drives)?;
        Ok(WorldState {
            alloc,
            host,
            connections: Connections::new(alloc),
            begun: Vec::new(alloc),
            caller: None,
            own: None,
            kept: None,
            history,
            failure: None,
            dates: Dates::new(alloc),
        })
    }
}
