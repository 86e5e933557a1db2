//! Drives whose reels are files in folders, from the arguments of `rmtd`.
ghost use Rattle.std.specs.Prelude.{◌≡◌, ◌≤◌, false, All, IfOk, length, map};
ghost use Rattle.drives.specs.declared.holds.TheConstants.{DRIVE_LIMIT};
ghost use Rattle.reel_files.specs.Folders.{folder_row};
ghost use Rattle.rmtd_args.specs.Drive.{plain_drive};
ghost use Rattle.rmtd_serve.specs.Folders.{stacks_of};

use crate::error_log::ErrorLog;
use crate::line_start::LineStart;
use hold_table::SEAT_LIMIT;
use reel_files::{FolderDrive, FolderStacks, FolderSystem, Log, NoLog};
use rmtd_args::DriveArgument;
use std::alloc::{AllocError, Global};

/// Makes stacks of reels in folders: one folder for each of the given drives, and one for the bin.
/// They have no log. Each reel has `capacity` bytes.
///
/// There must be 1 to `DRIVE_LIMIT` drives. It reads no folder, and fails only if an allocation
/// fails.
pub fn folder_stacks<R: FolderSystem>(
    rt: R,
    arguments: &[DriveArgument<'_>],
    bin: &str,
    capacity: u64,
) -> Result<FolderStacks<R, NoLog>, AllocError>
    requires some { 1 ≤ length arguments.now }
    requires few { length arguments.now ≤ DRIVE_LIMIT }
    ensures named { IfOk result (λ s. s ≡ stacks_of arguments.now bin.now capacity) }
    ensures count { IfOk result (λ s. length s.rows ≡ length arguments.now) }
{
    logged_stacks(rt, arguments, bin, capacity, NoLog)
}

/// Like `folder_stacks`, with a log.
pub(crate) fn logged_stacks<R: FolderSystem, L: Log + Drop>(
    rt: R,
    arguments: &[DriveArgument<'_>],
    bin: &str,
    capacity: u64,
    log: L,
) -> Result<FolderStacks<R, L>, AllocError>
    requires some { 1 ≤ length arguments.now }
    requires few { length arguments.now ≤ DRIVE_LIMIT }
    ensures named { IfOk result (λ s. s ≡ stacks_of arguments.now bin.now capacity) }
    ensures count { IfOk result (λ s. length s.rows ≡ length arguments.now) }
{
    let drives = folder_drives(rt.alloc(), arguments)?;
    FolderStacks::with_log(rt, &drives, bin, capacity, log)
}

fn folder_drives<'a>(
    alloc: Global,
    arguments: &[DriveArgument<'a>],
) -> Result<Vec<FolderDrive<'a>>, AllocError>
    ensures named { IfOk result (λ drives. map (λ d. folder_row d.name.now d.folder.now false) drives.items
        ≡ map (λ d. folder_row d.device d.folder false) (map plain_drive arguments.now)) }
    ensures count { IfOk result (λ drives. length drives.items ≡ length arguments.now) }
{
    let mut drives = Vec::new(alloc);
    for argument in arguments {
        drives.push(FolderDrive {
            name: argument.device,
            folder: argument.folder,
        })?;
    }
    Ok(drives)
}

/// Makes stacks with the given drives for each seat of a table, in the order of the seat numbers.
///
/// All of them use the same folders, each independently. Each logs on standard error, with the
/// seat's number, in lines that begin as `start` says. There must be 1 to `DRIVE_LIMIT` drives. It
/// reads no folder, and fails only if an allocation fails.
pub fn seat_stacks<R: FolderSystem + Eprint>(
    rt: R,
    arguments: &[DriveArgument<'_>],
    bin: &str,
    capacity: u64,
    start: LineStart,
) -> Result<Vec<FolderStacks<R, ErrorLog<R>>>, AllocError>
    requires some { 1 ≤ length arguments.now }
    requires few { length arguments.now ≤ DRIVE_LIMIT }
    ensures count { IfOk result (λ all. length all.items ≡ SEAT_LIMIT) }
    ensures drives { IfOk result (λ all. All (λ s. length s.rows ≡ length arguments.now) all.items) }
    ensures named { IfOk result (λ all. All (λ s. s ≡ stacks_of arguments.now bin.now capacity) all.items) }
{
    let mut all = Vec::with_capacity(rt.alloc(), SEAT_LIMIT)?;
    'seats: while all.len() < SEAT_LIMIT {
        let seat = all.len() + 1;
        all.push(stacks_at(&rt, arguments, bin, capacity, seat, start)?)?;
    }
    Ok(all)
}

fn stacks_at<R: FolderSystem + Eprint>(
    rt: &R,
    arguments: &[DriveArgument<'_>],
    bin: &str,
    capacity: u64,
    seat: usize,
    start: LineStart,
) -> Result<FolderStacks<R, ErrorLog<R>>, AllocError>
    requires some { 1 ≤ length arguments.now }
    requires few { length arguments.now ≤ DRIVE_LIMIT }
    ensures named { IfOk result (λ s. s ≡ stacks_of arguments.now bin.now capacity) }
    ensures count { IfOk result (λ s. length s.rows ≡ length arguments.now) }
{
    let log = ErrorLog {
        rt: rt.clone()?,
        seat: Some(seat),
        start,
    };
    logged_stacks(rt.clone()?, arguments, bin, capacity, log)
}
