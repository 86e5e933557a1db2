//! The drives of a schedule.
ghost use Rattle.std.specs.Prelude.{◌≡◌, ◌≢◌, ◌↔◌, [], true, map, IfOk, MatchResult};
ghost use Rattle.world_model.specs.First.{AreGoodDrives, first_world};
ghost use Rattle.tape_world.specs.Making.{plain_drive_spec};
ghost use Rattle.rsim_schedule.specs.Drives.{plain_line};
ghost use Rattle.rsim_schedule.specs.declared.halt.Halt.TheVariants.{StreamFailed};

use crate::drive_line::DriveLine;
use crate::halt::Halt;
use crate::line::{ScheduleLine, read_command};
use crate::lines::ScheduleLines;
use crate::names::Names;
use std::alloc::{AllocError, Global};
use tape_world::{DriveSpec, World, good_drives};

/// Reads the drives at the beginning of a schedule. Afterwards `lines` is past the last of their
/// lines, or past the line that failed.
///
/// Fails with `BadLine` if the first command is not a drive, if there is no command, or if a world
/// cannot have these drives. Fails with `OutOfMemory` if an allocation fails.
pub(crate) fn read_drives<'a>(
    alloc: Global,
    lines: &mut ScheduleLines<'a>,
) -> Result<Vec<DriveLine<'a>>, Halt>
    ensures { MatchResult result (λ d. AreGoodDrives (map plain_line d.items)) (λ halt. halt ≢ StreamFailed) }
{
    let mut drives = Vec::new(alloc);
    add_drives(alloc, &mut drives, lines)?;
    Ok(drives)
}

/// Like `read_drives`, but adds the drives to `drives`, which must be empty.
fn add_drives<'a>(
    alloc: Global,
    drives: &mut Vec<DriveLine<'a>>,
    lines: &mut ScheduleLines<'a>,
) -> Result<(), Halt>
    requires { drives.old.items ≡ [] }
    ensures { MatchResult result (λ _. AreGoodDrives (map plain_line drives.new.items)) (λ halt. halt ≢ StreamFailed) }
{
    let mut ahead = *lines;
    while let Some(text) = ahead.command() {
        let Some(
            ScheduleLine::Drive {
                device,
                capacity,
                reels,
            },
        ) = read_command(text)
        else {
            break;
        };
        *lines = ahead;
        add_drive(alloc, drives, device, capacity, reels)?;
    }
    if drives.is_empty() {
        *lines = ahead;
        return Err(Halt::BadLine);
    }
    Ok(())
}

/// Adds a drive after the others. Fails with `BadLine` if a world cannot have them all.
fn add_drive<'a>(
    alloc: Global,
    drives: &mut Vec<DriveLine<'a>>,
    device: &'a [u8],
    capacity: u64,
    reels: Names<'a>,
) -> Result<(), Halt>
    ensures { MatchResult result (λ _. AreGoodDrives (map plain_line drives.new.items)) (λ halt. halt ≢ StreamFailed) }
{
    drives.reserve(1)?;
    let reels = reels.list(alloc)?;
    drives.push_reserved(DriveLine {
        device,
        capacity,
        reels,
    });
    if are_valid_drives(alloc, drives)? {
        return Ok(());
    }
    Err(Halt::BadLine)
}

/// Returns whether a world can have these drives.
fn are_valid_drives(alloc: Global, drives: &[DriveLine<'_>]) -> Result<bool, AllocError>
    ensures { IfOk result (λ good. (good ≡ true) ↔ AreGoodDrives (map plain_line drives.now)) }
{
    let specs = specs_of(alloc, drives)?;
    Ok(good_drives(&specs))
}

/// Makes a world with these drives, in which nothing has happened.
pub(crate) fn world_of(alloc: Global, drives: &[DriveLine<'_>]) -> Result<World, AllocError>
    requires { AreGoodDrives (map plain_line drives.now) }
    ensures { IfOk result (λ w. w ≡ first_world (map plain_line drives.now)) }
{
    let specs = specs_of(alloc, drives)?;
    World::new(alloc, &specs)
}

/// Returns a `DriveSpec` for each of these drives, in order.
fn specs_of<'a>(
    alloc: Global,
    drives: &'a [DriveLine<'_>],
) -> Result<Vec<DriveSpec<'a>>, AllocError>
    ensures { IfOk result (λ specs. map plain_drive_spec specs.items ≡ map plain_line drives.entry.now) }
{
    let mut specs = Vec::new(alloc);
    for drive in drives {
        specs.push(spec_of(drive))?;
    }
    Ok(specs)
}

fn spec_of<'a>(drive: &'a DriveLine<'_>) -> DriveSpec<'a>
    ensures { plain_drive_spec result ≡ plain_line drive.entry.now }
{
    DriveSpec {
        name: drive.device,
        capacity: drive.capacity,
        reels: drive.reels.as_slice(),
    }
}
