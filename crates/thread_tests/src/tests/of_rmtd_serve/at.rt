//! One pair of streams that is served at a seat.

ghost use Rattle.std.specs.Prelude.{◌≡◌, None, length};
ghost use Rattle.drives.specs.Holding.{HoldsJust};
ghost use Rattle.hold_table.specs.Seats.{IsSeatAt};

use super::table::{two_drives, two_words};
use drives::{DriveTable, ListStacks};
use hold_table::{HoldSeat, HoldTable, TableHand};
use rmt_wire::Counted;
use rmtd_serve::serve_at;
use std::alloc::Global;
use std::test::Fail;

/// Returns the replies to a stream that ends while its drive is open.
fn served(alloc: Global, table: &HoldTable, seat: HoldSeat, stacks: ListStacks) -> Vec<u8>
    requires arguments { table.now.words ≡ 2 }
    requires drives { length stacks.library.drives ≡ 2 }
    requires own { IsSeatAt table.now seat }
    requires idle { HoldsJust seat.view None }
{
    let holds = TableHand { table };
    let drives = DriveTable { holds, stacks };
    let mut input = Counted::new(b"O/dev/st0\n2\nW3\nabcI5\n1\nR9\n".as_slice());
    let mut output = Counted::new(Vec::new(alloc));
    serve_at(alloc, drives, seat, 1, &mut input, &mut output);
    output.into_inner()
}

#[test]
fn a_pair_is_served_at_a_seat(rt: HostRuntime) -> Result<(), Fail> {
    let (table, seats) = two_words(rt.alloc())?;
    let stacks = two_drives(rt.alloc())?;
    let Some(seat) = seats.into_iter().next() else {
        return Err(Fail::new("no seat"));
    };
    let written = served(rt.alloc(), &table, seat, stacks);
    assert!(rt; written.as_slice() == b"A0\nA3\nA1\nA3\nabc".as_slice());
    Ok(())
}
