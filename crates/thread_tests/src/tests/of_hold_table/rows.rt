//! Takes, looks and gives of two seats, one after the other.

ghost use Rattle.std.specs.Prelude.{◌<◌};

use super::pair::two_seats;
use drives::{Holds, Taken};
use hold_table::TableHand;
use std::test::Fail;

/// Returns what two seats find at a drive, each through holds of its own. The first takes it. The
/// second finds it held, and sees who holds it. The first gives it back. The second sees that it is
/// free, takes it, and then finds itself there.
fn found<H: Holds>(
    holds: &mut H,
    first: &mut H::Seat,
    other_holds: &mut H,
    second: &mut H::Seat,
    drive: usize,
) -> ([Taken; 4], [u64; 2])
    requires first { H.belongs holds.old first.old × (drive < H.drives holds.old) }
    requires second { H.belongs other_holds.old second.old × (drive < H.drives other_holds.old) }
{
    let held = holds.take(first, drive);
    let busy = other_holds.take(second, drive);
    let holder = other_holds.holder(second, drive);
    if held == Taken::Held {
        holds.give(first, drive);
    }
    let free = other_holds.holder(second, drive);
    let taken = other_holds.take(second, drive);
    let again = other_holds.take(second, drive);
    ([held, busy, taken, again], [holder, free])
}

#[test]
fn a_drive_goes_from_seat_to_seat(rt: HostRuntime) -> Result<(), Fail> {
    let (table, mut first, mut second) = two_seats(rt.alloc(), 64)?;
    let (mut hand, mut other) = (TableHand { table: &table }, TableHand { table: &table });
    let (takes, holders) = found(&mut hand, &mut first, &mut other, &mut second, 63);
    assert!(rt; takes == [Taken::Held, Taken::Busy(1), Taken::Held, Taken::Busy(2)]);
    assert!(rt; holders == [1, 0]);
    Ok(())
}
