//! Rounds at two drives in memory, and where each reel is afterwards.

ghost use Rattle.std.specs.Prelude.{◌≡◌, ◌<◌, length};

use super::reels::{Letters, add_drives, add_three_reels, lie};
use drives::DriveFault::{self, Device, NameTaken, NoReel, NoSuchDrive};
use drives::{ListStacks, Stacks, arranged_at_rest, lying_troubles};
use std::alloc::Global;
use std::test::Fail;

/// One action at a drive.
enum Round {
    /// Latches its first reel and unlatches it.
    LaidBack,
    /// Latches its first reel and moves it to the bin.
    Moved,
    /// Latches its first reel and keeps it latched.
    Latched,
    /// Looks for the drive by this name. Fails with `NoSuchDrive` if the drive has another name.
    Named(&'static str),
    /// Adds a reel of this name.
    Added(&'static str),
    /// Arranges the stack as the reels of these names, if it can be arranged so.
    Arranged(&'static [&'static [u8]]),
    /// Looks for the reel of this name anywhere. Fails with `NoReel` if it is not found.
    Looked(&'static str),
    /// Injects a fault into the next call of the device.
    Troubled,
}

/// Latches the first reel of the drive and unlatches it.
fn lay_back(stacks: &mut ListStacks, drive: usize) -> Result<(), DriveFault>
    requires { drive < length stacks.old.library.drives }
    ensures { length stacks.new.library.drives ≡ length stacks.old.library.drives }
{
    let reel = stacks.latch(drive)?;
    stacks.unlatch(drive, reel);
    Ok(())
}

/// Latches the first reel of the drive and moves it to the bin.
fn move_first(stacks: &mut ListStacks, drive: usize) -> Result<(), DriveFault>
    requires { drive < length stacks.old.library.drives }
    ensures { length stacks.new.library.drives ≡ length stacks.old.library.drives }
{
    let reel = stacks.latch(drive)?;
    match stacks.offline(drive, reel) {
        Ok(()) => Ok(()),
        Err((_, fault)) => Err(fault),
    }
}

/// Latches the first reel of the drive.
fn latch(stacks: &mut ListStacks, drive: usize) -> Result<(), DriveFault>
    requires { drive < length stacks.old.library.drives }
    ensures { length stacks.new.library.drives ≡ length stacks.old.library.drives }
{
    match stacks.latch(drive) {
        Ok(_) => Ok(()),
        Err(fault) => Err(fault),
    }
}

/// Arranges the drive's stack as the reels of these names, if it can be arranged so. If it cannot,
/// does nothing.
fn arrange(stacks: &mut ListStacks, drive: usize, names: &[&[u8]]) -> Result<(), DriveFault>
    requires { drive < length stacks.old.library.drives }
    ensures { length stacks.new.library.drives ≡ length stacks.old.library.drives }
{
    if stacks.can_arrange(drive, names) {
        stacks.arrange(drive, names)
    } else {
        Ok(())
    }
}

/// Fails with `NoReel` if no reel of this name is found.
fn find_reel(stacks: &ListStacks, name: &[u8]) -> Result<(), DriveFault> {
    if stacks.reel(name).is_some() {
        Ok(())
    } else {
        Err(NoReel)
    }
}

/// Fails with `NoSuchDrive` if the drive does not have this name.
fn find_drive(stacks: &ListStacks, drive: usize, name: &[u8]) -> Result<(), DriveFault> {
    if stacks.drive(name) == Some(drive) {
        Ok(())
    } else {
        Err(NoSuchDrive)
    }
}

/// Runs the action at the drive.
fn go(stacks: &mut ListStacks, drive: usize, round: &Round) -> Result<(), DriveFault>
    requires { drive < length stacks.old.library.drives }
    ensures { length stacks.new.library.drives ≡ length stacks.old.library.drives }
{
    match round {
        Round::LaidBack => lay_back(stacks, drive),
        Round::Moved => move_first(stacks, drive),
        Round::Latched => latch(stacks, drive),
        Round::Added(name) => stacks.add_reel(drive, name.as_bytes(), 5),
        Round::Arranged(names) => arrange(stacks, drive, names),
        Round::Looked(name) => find_reel(stacks, name.as_bytes()),
        Round::Named(name) => find_drive(stacks, drive, name.as_bytes()),
        Round::Troubled => {
            stacks.trouble(true);
            Ok(())
        }
    }
}

/// The drive, the action, its result, and then the reels and the number of device failures.
type Row = (usize, Round, Result<(), DriveFault>, Letters, u64);

/// A drive is found by its name. A reel that is unlatched stays first. Each drive has at most one
/// latched reel.
const LATCHES: &[Row] = &[
    (1, Round::Named("/dev/st1"), Ok(()), ["ab", "c", ""], 0),
    (
        1,
        Round::Named("/dev/st"),
        Err(NoSuchDrive),
        ["ab", "c", ""],
        0,
    ),
    (0, Round::LaidBack, Ok(()), ["ab", "c", ""], 0),
    (0, Round::Latched, Ok(()), ["Ab", "c", ""], 0),
    (0, Round::Latched, Err(NoReel), ["Ab", "c", ""], 0),
    (1, Round::Latched, Ok(()), ["Ab", "C", ""], 0),
];

/// Reels are moved to the end of the bin, also while a reel is latched in the other drive.
const MOVES: &[Row] = &[
    (0, Round::Moved, Ok(()), ["b", "c", "a"], 0),
    (1, Round::Latched, Ok(()), ["b", "C", "a"], 0),
    (0, Round::Moved, Ok(()), ["", "C", "ab"], 0),
    (0, Round::Moved, Err(NoReel), ["", "C", "ab"], 0),
];

/// A name is taken if it is on any stack, in the bin, or that of a latched reel. Another name is
/// free.
const TAKEN: &[Row] = &[
    (1, Round::Added("b"), Err(NameTaken), ["ab", "c", ""], 0),
    (0, Round::Moved, Ok(()), ["b", "c", "a"], 0),
    (1, Round::Added("a"), Err(NameTaken), ["b", "c", "a"], 0),
    (0, Round::Latched, Ok(()), ["B", "c", "a"], 0),
    (1, Round::Added("b"), Err(NameTaken), ["B", "c", "a"], 0),
    (1, Round::Added("d"), Ok(()), ["B", "cd", "a"], 0),
];

/// An injected fault is kept if the stack has no reel to latch. It then fails one latch.
const TROUBLED: &[Row] = &[
    (1, Round::Latched, Ok(()), ["ab", "C", ""], 0),
    (1, Round::Troubled, Ok(()), ["ab", "C", ""], 0),
    (1, Round::Latched, Err(NoReel), ["ab", "C", ""], 0),
    (0, Round::Latched, Err(Device), ["ab", "C", ""], 1),
    (0, Round::Latched, Ok(()), ["Ab", "C", ""], 1),
];

/// A stack is arranged from its own reels and those of the bin. No name may occur twice, and none
/// may be that of another drive's reel.
const ARRANGED: &[Row] = &[
    (0, Round::Arranged(&[b"b"]), Ok(()), ["b", "c", "a"], 0),
    (0, Round::Added("d"), Ok(()), ["bd", "c", "a"], 0),
    (
        0,
        Round::Arranged(&[b"a", b"b"]),
        Ok(()),
        ["ab", "c", "d"],
        0,
    ),
    (
        0,
        Round::Arranged(&[b"d", b"d"]),
        Ok(()),
        ["ab", "c", "d"],
        0,
    ),
    (0, Round::Arranged(&[b"c"]), Ok(()), ["ab", "c", "d"], 0),
];

/// A reel is found in the bin. While a reel is latched it is not found, and its stack cannot be
/// arranged.
const LATCHED: &[Row] = &[
    (0, Round::Moved, Ok(()), ["b", "c", "a"], 0),
    (1, Round::Looked("a"), Ok(()), ["b", "c", "a"], 0),
    (0, Round::Latched, Ok(()), ["B", "c", "a"], 0),
    (0, Round::Looked("b"), Err(NoReel), ["B", "c", "a"], 0),
    (0, Round::Arranged(&[b"a"]), Ok(()), ["B", "c", "a"], 0),
];

/// Tables that start with the reels a and b at the first drive, and c at the second.
static ALL: [&[Row]; 6] = [LATCHES, MOVES, TAKEN, TROUBLED, ARRANGED, LATCHED];

/// Whether the row has the expected outcome.
fn goes(stacks: &mut ListStacks, row: &Row) -> bool
    requires { length stacks.old.library.drives ≡ 2 }
    ensures { length stacks.new.library.drives ≡ 2 }
{
    let (drive, round, answer, letters, failures) = row;
    *drive < 2
        && go(stacks, *drive, round) == *answer
        && lie(stacks, letters)
        && stacks.failures() == *failures
}

/// Whether all rows have the expected outcome.
fn all_go(stacks: &mut ListStacks, rows: &[Row]) -> bool
    requires { length stacks.old.library.drives ≡ 2 }
{
    for row in rows {
        if !goes(stacks, row) {
            return false;
        }
    }
    true
}

/// Runs `all_go` after adding the drives and the reels.
fn all_go_from_none(stacks: &mut ListStacks, rows: &[Row]) -> Result<bool, DriveFault>
    requires { length stacks.old.library.drives ≡ 0 }
{
    lying_troubles();
    arranged_at_rest();
    let numbered = add_drives(stacks)?;
    add_three_reels(stacks)?;
    Ok(numbered && all_go(stacks, rows))
}

/// Runs `all_go_from_none` with new drives.
fn all_go_anew(alloc: Global, rows: &[Row]) -> Result<bool, DriveFault> {
    let mut stacks = ListStacks::new(alloc);
    all_go_from_none(&mut stacks, rows)
}

#[test]
fn rounds_leave_the_reels_as_they_have_to(rt: HostRuntime) -> Result<(), Fail> {
    for rows in &ALL {
        let right = all_go_anew(rt.alloc(), rows)?;
        assert!(rt; right);
    }
    Ok(())
}
