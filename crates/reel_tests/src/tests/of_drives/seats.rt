//! Steps of two seats, and who holds each drive afterwards.

ghost use Rattle.std.specs.Prelude.{◌≡◌, ◌≢◌, ◌<◌, IfOk, length};
ghost use Rattle.drives.specs.declared.view.View.{View};
ghost use Rattle.drives.specs.Local.{IsSeatOf};

use drives::{Holds, LocalHolds, LocalSeat, Taken};
use std::alloc::Global;
use std::test::Fail;

/// An action of a seat at a drive, and its expected outcome.
enum Step {
    /// Takes the drive, with this result.
    Take(Taken),
    /// Gives the drive back if the seat holds it. The flag is whether it does.
    Give(bool),
    /// Asks for the drive's holder: the number of a seat, or 0 if there is none.
    Look(u64),
}

/// Has the seat of this number run a step at the drive. Returns whether the outcome was as
/// expected.
fn goes(
    holds: &mut LocalHolds,
    seat: &mut LocalSeat,
    number: u64,
    drive: usize,
    step: &Step,
) -> bool
    requires own { IsSeatOf holds.old seat.old }
    requires number { seat.old.number ≡ number }
    requires drive { drive < length holds.old.numbers }
    ensures own { IsSeatOf holds.new seat.new }
    ensures number { seat.new.number ≡ seat.old.number }
    ensures others { (v : View) → v.number ≢ seat.old.number → IsSeatOf holds.old v → IsSeatOf holds.new v }
    ensures drives { length holds.new.numbers ≡ length holds.old.numbers }
{
    match step {
        Step::Take(wanted) => holds.take(seat, drive) == *wanted,
        Step::Look(wanted) => holds.holder(seat, drive) == *wanted,
        Step::Give(wanted) => {
            let held = holds.number_at(drive) == number;
            if held {
                holds.give(seat, drive);
            }
            held == *wanted
        }
    }
}

/// Returns the first two seats.
fn two_seats(holds: &mut LocalHolds) -> Result<(LocalSeat, LocalSeat), Fail>
    requires new { holds.old.last ≡ 0 }
    ensures first { IfOk result (λ seats. IsSeatOf holds.new seats.0) }
    ensures second { IfOk result (λ seats. IsSeatOf holds.new seats.1) }
    ensures one { IfOk result (λ seats. seats.0.number ≡ 1) }
    ensures two { IfOk result (λ seats. seats.1.number ≡ 2) }
    ensures drives { length holds.new.numbers ≡ length holds.old.numbers }
{
    match (holds.seat(), holds.seat()) {
        (Some(first), Some(second)) => Ok((first, second)),
        _ => Err(Fail::new("no seat")),
    }
}

/// Two seats at two drives.
#[derive(Drop)]
struct Pair {
    holds: LocalHolds,
    first: LocalSeat,
    second: LocalSeat,
    ghost two_drives: { length holds.numbers ≡ 2 },
    ghost own_first: { IsSeatOf holds first },
    ghost own_second: { IsSeatOf holds second },
    ghost one: { first.number ≡ 1 },
    ghost two: { second.number ≡ 2 },
}

impl Pair {
    /// Makes the seats 1 and 2.
    fn new(alloc: Global) -> Result<Pair, Fail> {
        let mut holds = LocalHolds::new(alloc, 2)?;
        let (first, second) = two_seats(&mut holds)?;
        Ok(Pair {
            holds,
            first,
            second,
        })
    }

    /// Has the first seat run a step at the drive, or the second if `first` is false. Returns
    /// whether the outcome was as expected.
    fn goes(&mut self, first: bool, drive: usize, step: &Step) -> bool {
        if drive >= 2 {
            return false;
        }
        if first {
            goes(&mut self.holds, &mut self.first, 1, drive, step)
        } else {
            goes(&mut self.holds, &mut self.second, 2, drive, step)
        }
    }
}

/// Whether the first seat acts (otherwise the second), the drive, and the step.
type Row = (bool, usize, Step);

/// One drive passes from seat to seat. Then each seat holds one of the two drives.
static STEPS: [Row; 14] = [
    (true, 0, Step::Take(Taken::Held)),
    (true, 0, Step::Take(Taken::Busy(1))),
    (false, 0, Step::Take(Taken::Busy(1))),
    (false, 0, Step::Give(false)),
    (false, 0, Step::Look(1)),
    (true, 0, Step::Give(true)),
    (false, 0, Step::Look(0)),
    (false, 0, Step::Take(Taken::Held)),
    (true, 1, Step::Take(Taken::Held)),
    (false, 1, Step::Take(Taken::Busy(1))),
    (true, 0, Step::Look(2)),
    (false, 1, Step::Look(1)),
    (false, 0, Step::Give(true)),
    (true, 0, Step::Look(0)),
];

/// Whether all steps have the expected outcome.
fn all_go(pair: &mut Pair) -> bool {
    for (first, drive, step) in &STEPS {
        if !pair.goes(*first, *drive, step) {
            return false;
        }
    }
    true
}

#[test]
fn one_seat_holds_a_drive(rt: HostRuntime) -> Result<(), Fail> {
    let right = all_go(&mut Pair::new(rt.alloc())?);
    assert!(rt; right);
    Ok(())
}
