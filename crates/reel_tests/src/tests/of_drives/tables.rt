//! An open of a drive latches a reel.

ghost use Rattle.std.specs.Prelude.{◌≡◌, length};
ghost use Rattle.drives.specs.Local.{IsSeatOf};

use super::reels::{add_drives, add_three_reels};
use drives::{DriveFault, DriveTable, Holds, ListStacks, LocalHolds, LocalSeat};
use std::alloc::Global;
use std::test::Fail;

type Drives = DriveTable<LocalHolds, ListStacks>;

/// Whether the first seat opens the second drive, and then holds it.
fn opens(drives: &mut Drives, seat: &mut LocalSeat) -> bool
    requires seat { IsSeatOf drives.old.holds seat.old }
    requires stacks { length drives.old.stacks.library.drives ≡ 2 }
    requires holds { length drives.old.holds.numbers ≡ 2 }
{
    match drives.open(seat, b"/dev/st1") {
        Ok((drive, _)) => drive == 1 && drives.holds.holder(seat, 1) == 1,
        Err(_) => false,
    }
}

/// Runs `opens` after adding two drives with their reels.
fn first_opens(drives: &mut Drives) -> Result<bool, DriveFault>
    requires none { length drives.old.stacks.library.drives ≡ 0 }
    requires two { length drives.old.holds.numbers ≡ 2 }
{
    add_drives(&mut drives.stacks)?;
    add_three_reels(&mut drives.stacks)?;
    match drives.holds.seat() {
        Some(mut seat) => Ok(opens(drives, &mut seat)),
        None => Ok(false),
    }
}

/// Runs `first_opens` with new drives.
fn first_opens_anew(alloc: Global) -> Result<bool, DriveFault> {
    let holds = LocalHolds::new(alloc, 2)?;
    let stacks = ListStacks::new(alloc);
    first_opens(&mut DriveTable { holds, stacks })
}

#[test]
fn an_open_latches(rt: HostRuntime) -> Result<(), Fail> {
    let right = first_opens_anew(rt.alloc())?;
    assert!(rt; right);
    Ok(())
}
