//! Prepares a listener that serves connections in parallel.
ghost use Rattle.std.specs.Prelude.{◌≡◌, ◌≤◌, Some, IfOk, length, map, option_map};
ghost use Rattle.drives.specs.declared.holds.TheConstants.{DRIVE_LIMIT};
ghost use Rattle.rmtd_args.specs.Drive.{KeepsDriveRules, plain_drive};
ghost use Rattle.rmtd_serve.specs.Startup.{IsListenerSetupOf};

use crate::folders::seat_stacks;
use crate::line_start::LineStart;
use crate::listener_setup::ListenerSetup;
use hold_table::HoldTable;
use reel_files::FolderSystem;
use rmtd_args::ServerLine;
use std::io;

/// It fails only if an allocation fails.
pub(crate) fn listener_setup_of<R: FolderSystem + Eprint>(
    rt: &R,
    line: &ServerLine<'_>,
    bin: &str,
    start: LineStart,
) -> io::Result<ListenerSetup<R>>
    requires some { 1 ≤ length line.now.drives.items }
    requires few { length line.now.drives.items ≤ DRIVE_LIMIT }
    requires same { option_map (λ s. s.now) line.now.bin ≡ Some bin.now }
    requires rules { KeepsDriveRules (Some bin.now) (map plain_drive line.now.drives.items) }
    ensures { IfOk result (λ listener_setup. IsListenerSetupOf line.now listener_setup.left listener_setup.idle listener_setup.table.words listener_setup.stacks.items) }
{
    let drives = line.drives.as_slice();
    let (table, seats) = HoldTable::new(rt.alloc(), drives.len())?;
    let stacks = seat_stacks(rt.clone()?, drives, bin, line.capacity, start)?;
    Ok(ListenerSetup {
        left: line.connections.unwrap_or(u64::MAX),
        idle: line.idle,
        table,
        seats,
        stacks,
        start,
    })
}
