//! Runs a schedule, from its first line to its report.
ghost use Rattle.std.specs.Prelude.{◌≡◌, map};
ghost use Rattle.world_model.specs.First.{AreGoodDrives, first_world};
ghost use Rattle.rsim_schedule.specs.Drives.{plain_line};
ghost use Rattle.rsim_schedule.specs.Ending.{IsScheduleRun, IsScheduled};

use crate::drive_line::DriveLine;
use crate::halt::Halt;
use crate::lines::ScheduleLines;
use crate::player::play_all;
use crate::printing::{print_all, print_halt};
use crate::report::report_of;
use crate::setup::{read_drives, world_of};
use console::ExitStatus;
use rmt_wire::Counted;
use std::alloc::Global;
use std::io::Write;
use tape_world::World;

/// Runs a schedule: a text with one command in each line. It prints on `out` each attempt that
/// fails, when it fails. At the end it prints a report of the world: the entries of each reel, the
/// stacks, the bin, the counted volumes, and dumpdates.
///
/// At the first faulty line it prints, in place of the report, `line 3: bad line` or
/// `line 3: not possible`. Lines count from 1. If an allocation fails, it prints
/// `line 3: out of memory`. After a failed write it prints nothing more.
///
/// Returns the exit status of `rsim`: `Success` if all lines were run, `StartupError` if a line is
/// faulty, and `Abnormal` if an allocation or a write failed.
pub fn schedule<W: Write>(alloc: Global, text: &[u8], out: &mut Counted<W>) -> ExitStatus
    // The lines before the report, or before the reason of a halt, are exactly those of some list
    // of events in a new world of good drives.
    ensures { IsScheduled W.contents out.old result out.new }
{
    let mut lines = ScheduleLines::new(text);
    match run_all(alloc, &mut lines, out) {
        Ok(()) => ExitStatus::Success,
        Err(halt) => print_halt(lines.number, halt, out),
    }
}

fn run_all<W: Write>(
    alloc: Global,
    lines: &mut ScheduleLines<'_>,
    out: &mut Counted<W>,
) -> Result<(), Halt>
    ensures { IsScheduleRun W.contents out.old result out.new }
{
    let drives = read_drives(alloc, lines)?;
    run_at(alloc, &drives, lines, out)
}

/// Runs the lines after those of the drives, and prints the report.
fn run_at<W: Write>(
    alloc: Global,
    drives: &[DriveLine<'_>],
    lines: &mut ScheduleLines<'_>,
    out: &mut Counted<W>,
) -> Result<(), Halt>
    requires { AreGoodDrives (map plain_line drives.now) }
    ensures { IsScheduleRun W.contents out.old result out.new }
{
    match world_of(alloc, drives) {
        Ok(mut world) => play_and_report(alloc, &mut world, drives, lines, out),
        Err(_) => Err(Halt::OutOfMemory),
    }
}

fn play_and_report<W: Write>(
    alloc: Global,
    world: &mut World,
    drives: &[DriveLine<'_>],
    lines: &mut ScheduleLines<'_>,
    out: &mut Counted<W>,
) -> Result<(), Halt>
    requires { AreGoodDrives (map plain_line drives.now) × (world.old ≡ first_world (map plain_line drives.now)) }
    ensures { IsScheduleRun W.contents out.old result out.new }
{
    play_all(alloc, world, lines, out)?;
    let report = report_of(alloc, world, drives)?;
    print_all(&report, out)
}
