//! Takes and looks of a seat to which other seats of the table are lent.

ghost use Rattle.std.specs.Prelude.{◌≡◌, ℕ, ◌<◌, [], All, IsTrue, false, length, map};
ghost use mathlib.Core.Option.{some};
ghost use lib.ListN.{get_elem?};
ghost use Rattle.drives.specs.Holding.{has, taken, found_by};
ghost use Rattle.drives.specs.declared.taken.Taken.TheVariants.{Held};
ghost use Rattle.hold_table.specs.Seats.{TableSeat, IsSeatAt, next, lone};

use drives::Taken;
use hold_table::{HoldSeat, HoldTable};
use std::test::Fail;

/// Takes the drive. If a lent seat holds the drive, the result has the number of that seat.
fn takes_beside(
    table: &HoldTable,
    seat: &mut HoldSeat,
    others: &mut Vec<HoldSeat>,
    drive: usize,
) -> Taken
    requires seat { IsSeatAt table.now seat.old }
    requires others { All (λ s. IsSeatAt table.now s) others.old.items }
    requires drive { drive < table.now.words }
    ensures { (k : ℕ) (o : TableSeat) → get_elem? others.old.items k ≡ some o → IsTrue (has o.view drive) → found_by result ≡ o.view.number }
{
    table.take_among(seat, others, drive)
}

/// Looks at the drive. If a lent seat holds the drive, the result is the number of that seat.
fn looks_beside(
    table: &HoldTable,
    seat: &mut HoldSeat,
    others: &mut Vec<HoldSeat>,
    drive: usize,
) -> u64
    requires seat { IsSeatAt table.now seat.old }
    requires others { All (λ s. IsSeatAt table.now s) others.old.items }
    requires drive { drive < table.now.words }
    ensures { (k : ℕ) (o : TableSeat) → get_elem? others.old.items k ≡ some o → IsTrue (has o.view drive) → result ≡ o.view.number }
{
    table.holder_among(seat, others, drive)
}

/// Takes a drive that no seat of the table holds. The take succeeds.
fn takes_free(
    table: &HoldTable,
    seat: &mut HoldSeat,
    others: &mut Vec<HoldSeat>,
    drive: usize,
) -> Taken
    requires seat { IsSeatAt table.now seat.old × (has seat.old.view drive ≡ false) × (seat.old.beside ≡ []) }
    requires others { All (λ s. IsSeatAt table.now s × (has s.view drive ≡ false)) others.old.items }
    requires all { length others.old.items ≡ 31 }
    requires drive { drive < table.now.words }
    ensures taken { result ≡ Held }
    ensures step { seat.new ≡ next seat.old (taken seat.old.view drive 0) }
    ensures held { IsTrue (has seat.new.view drive) }
    ensures others { others.new.items ≡ map lone others.old.items }
{
    table.take_among(seat, others, drive)
}

/// Takes a free drive, gives it back, and takes it again. Both takes succeed.
fn takes_again(
    table: &HoldTable,
    seat: &mut HoldSeat,
    others: &mut Vec<HoldSeat>,
    drive: usize,
) -> Taken
    requires seat { IsSeatAt table.now seat.old × (has seat.old.view drive ≡ false) × (seat.old.beside ≡ []) }
    requires others { All (λ s. IsSeatAt table.now s × (has s.view drive ≡ false)) others.old.items }
    requires all { length others.old.items ≡ 31 }
    requires drive { drive < table.now.words }
    ensures { result ≡ Held }
{
    takes_free(table, seat, others, drive);
    table.give(seat, drive);
    takes_free(table, seat, others, drive)
}

/// Seat 32 takes a free drive, gives it back and takes it again. All other seats are lent to it.
#[test]
fn takes_a_free_drive_again(rt: HostRuntime) -> Result<(), Fail> {
    let (table, mut others) = HoldTable::new(rt.alloc(), 2)?;
    let Some(mut one) = others.pop() else {
        return Err(Fail::new("no seat"));
    };
    assert!(rt; takes_again(&table, &mut one, &mut others, 1) == Taken::Held);
    Ok(())
}

/// Seat 32 takes the drive. Seat 31, to which seat 32 is lent, looks at it.
#[test]
fn finds_the_lent_seat_that_holds_a_drive(rt: HostRuntime) -> Result<(), Fail> {
    let (table, mut seats) = HoldTable::new(rt.alloc(), 2)?;
    let (Some(mut one), Some(mut two)) = (seats.pop(), seats.pop()) else {
        return Err(Fail::new("no seat"));
    };
    let taken = table.take(&mut one, 1);
    let mut others = Vec::with_capacity(rt.alloc(), 1)?;
    others.push_reserved(one);
    let found = looks_beside(&table, &mut two, &mut others, 1);
    assert!(rt; taken == Taken::Held && found == 32);
    Ok(())
}

/// Seat 32 takes the drive. Seat 31, to which seat 32 is lent, finds it busy.
#[test]
fn finds_a_drive_of_a_lent_seat_busy(rt: HostRuntime) -> Result<(), Fail> {
    let (table, mut seats) = HoldTable::new(rt.alloc(), 2)?;
    let (Some(mut one), Some(mut two)) = (seats.pop(), seats.pop()) else {
        return Err(Fail::new("no seat"));
    };
    let taken = table.take(&mut one, 1);
    let mut others = Vec::with_capacity(rt.alloc(), 1)?;
    others.push_reserved(one);
    let busy = takes_beside(&table, &mut two, &mut others, 1);
    assert!(rt; taken == Taken::Held && busy == Taken::Busy(32));
    Ok(())
}
