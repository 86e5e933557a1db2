//! Seats in threads of their own, at the same drives at once.

ghost use Rattle.std.specs.Prelude.{◌<◌, None, IfOk, All};
ghost use Rattle.drives.specs.Holding.{HoldsJust};
ghost use Rattle.hold_table.specs.Seats.{IsSeatAt};

use drives::Taken;
use hold_table::{HoldSeat, HoldTable};
use std::sync::atomic::{AtomicU64, Ordering};
use std::test::Fail;
use std::thread::{self, Threads};

/// How often each seat tries to take the one drive.
const TRIES: u32 = 2000;

/// Takes the one drive over and over, and gives it back each time. `inside` counts the seats that
/// hold it. `faults` counts how often the seat was not alone, or saw no holder. Returns the seat.
fn race(table: &HoldTable, mut seat: HoldSeat, inside: &AtomicU64, faults: &AtomicU64) -> HoldSeat
    requires seat { IsSeatAt table.now seat }
    requires drives { 0 < table.now.words }
    ensures { IsSeatAt table.now result }
{
    for _ in 0..TRIES {
        if table.take(&mut seat, 0) == Taken::Held {
            let before = inside.fetch_add(1, Ordering::SeqCst);
            if before > 0 || table.holder(&mut seat, 0) == 0 {
                faults.fetch_add(1, Ordering::SeqCst);
            }
            inside.fetch_sub(1, Ordering::SeqCst);
            table.give(&mut seat, 0);
        }
    }
    seat
}

/// Runs `race` with each seat, in a thread of its own, and returns the seats.
fn race_in_threads<R: Threads + Sync>(
    rt: &R,
    table: &HoldTable,
    seats: Vec<HoldSeat>,
    faults: &AtomicU64,
) -> Result<Vec<HoldSeat>, Fail>
    requires seats { All (λ s. IsSeatAt table.now s × HoldsJust s.view None) seats.items }
    requires drives { 0 < table.now.words }
    ensures { IfOk result (λ seats. All (λ s. IsSeatAt table.now s) seats.items) }
{
    let inside = AtomicU64::new(0);
    let seats = thread::map_vec(
        rt,
        seats,
        &|seat: HoldSeat| -> HoldSeat
            requires { IsSeatAt table.now seat × (0 < table.now.words) }
            ensures { IsSeatAt table.entry.now result }
        { race(table, seat, &inside, faults) },
    )?;
    Ok(seats)
}

/// All 32 seats take one drive and give it back, over and over, each in a thread of its own. No two
/// hold it at once. At the end all seats are back, and the table has no holder.
#[test]
fn no_two_have_a_drive_at_once(rt: HostRuntime) -> Result<(), Fail> {
    let (table, seats) = HoldTable::new(rt.alloc(), 1)?;
    let faults = AtomicU64::new(0);
    let seats = race_in_threads(&rt, &table, seats, &faults)?;
    assert!(rt; seats.len() == 32 && faults.load(Ordering::SeqCst) == 0);
    let arguments = table.close(seats);
    assert!(rt; arguments.iter().all(|argument| *argument == 0));
    Ok(())
}
