//! A table with its seats, and stacks in memory for each seat.

ghost use Rattle.std.specs.Prelude.{◌≡◌, ◌+◌, IfOk, None, OnOk, All, length};
ghost use Rattle.drives.specs.Holding.{HoldsJust};
ghost use Rattle.hold_table.specs.Seats.{IsSeatAt};

use drives::ListStacks;
use hold_table::{HoldSeat, HoldTable};
use rmtd_serve::{Incoming, close_table, serve_many};
use std::alloc::Global;
use std::sync::Wait;
use std::test::Fail;
use std::thread::Threads;

/// Makes a table for two drives, with its seats.
pub(crate) fn two_words(alloc: Global) -> Result<(HoldTable, Vec<HoldSeat>), Fail>
    ensures drives { IfOk result (λ made. made.0.words ≡ 2) }
    ensures count { IfOk result (λ made. length made.1.items ≡ 32) }
    ensures idle { IfOk result (λ made. All (λ s. IsSeatAt made.0 s × HoldsJust s.view None) made.1.items) }
{
    Ok(HoldTable::new(alloc, 2)?)
}

/// Adds a drive with one empty reel.
fn add(stacks: &mut ListStacks, device: &[u8], reel: &[u8]) -> Result<(), Fail>
    ensures { OnOk result (length stacks.new.library.drives ≡ length stacks.old.library.drives + 1) }
{
    let drive = stacks.add_drive(device)?;
    stacks.add_reel(drive, reel, 100)?;
    Ok(())
}

/// Makes the drives `/dev/st0` and `/dev/st1`, with one empty reel each.
pub(crate) fn two_drives(alloc: Global) -> Result<ListStacks, Fail>
    ensures { IfOk result (λ stacks. length stacks.library.drives ≡ 2) }
{
    let mut stacks = ListStacks::new(alloc);
    add(&mut stacks, b"/dev/st0", b"r1")?;
    add(&mut stacks, b"/dev/st1", b"r2")?;
    Ok(stacks)
}

/// Makes such drives for each of 32 seats.
fn all_stacks(alloc: Global) -> Result<Vec<ListStacks>, Fail>
    ensures count { IfOk result (λ all. length all.items ≡ 32) }
    ensures drives { IfOk result (λ all. All (λ s. length s.library.drives ≡ 2) all.items) }
{
    let mut all = Vec::with_capacity(alloc, 32)?;
    while all.len() < 32 {
        all.push(two_drives(alloc)?)?;
    }
    Ok(all)
}

/// Serves pairs of streams at two drives, each pair in a thread of its own, and returns the source
/// of the pairs. Fails if a seat does not come back, or if a drive is held at the end.
pub(crate) fn serve_pairs<R: Threads + Wait + Sync, I: Incoming + Drop>(
    rt: &R,
    alloc: Global,
    pairs: I,
) -> Result<I, Fail> {
    let (table, seats) = two_words(alloc)?;
    let stacks = all_stacks(alloc)?;
    let (pairs, seats) = serve_many(rt, alloc, pairs, &table, seats, stacks);
    let are_back = seats.len() == 32;
    let arguments = close_table(table, seats);
    if !are_back || arguments.iter().any(|argument| *argument != 0) {
        return Err(Fail::new("a drive is held at the end, or a seat is lost"));
    }
    Ok(pairs)
}
