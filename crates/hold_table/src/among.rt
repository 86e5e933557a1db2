//! A take and a look of a seat to which other seats of the table are lent. A lent seat makes no
//! step meanwhile, so the clauses can say whether it holds the drive at the moment of the step.
//!
//! Keep both bodies free of private helpers and of `..` in patterns. Otherwise a table could pass
//! that tells the truth only while such a helper runs, or while a field of `HoldSeat` that no
//! pattern names is set.
ghost use Rattle.std.specs.Prelude.{◌≡◌, ◌<◌, ◌==◌, cond, map, All};
ghost use Rattle.std.specs.Vec.{vec_capacity};
ghost use Rattle.drives.specs.Holding.{taken, looked, found_by, TakeAnswers};
ghost use Rattle.hold_table.specs.Rule.{IsRuledStep};
ghost use Rattle.hold_table.specs.Seats.{next, lone, views_among, IsSeatAt, IsFound};

use crate::rule::{Dismiss, Invite};
use crate::seat::HoldSeat;
use crate::table::HoldTable;
use drives::Taken;

impl HoldTable {
    /// Takes the drive for the given seat by one call of `take`, while the seats `others` are lent
    /// to it. All must be of this table. Leaves `others` unchanged. Allocates nothing.
    ///
    /// Returns `Busy` with the number of one of these seats if and only if that seat holds the
    /// drive. If these are all 32 seats and none holds it, returns `Held`.
    pub fn take_among(&self, seat: &mut HoldSeat, others: &mut Vec<HoldSeat>, drive: usize) -> Taken
        requires seat { IsSeatAt self.now seat.old }
        requires others { All (λ s. IsSeatAt self.now s) others.old.items }
        requires drive { drive < self.now.words }
        ensures step { seat.new ≡ next seat.old (taken seat.old.view drive (found_by result)) }
        ensures answer { TakeAnswers result seat.old.view seat.new.view drive }
        ensures rule { IsRuledStep drive seat.old.view seat.old.made (found_by result)
            (cond (found_by result == 0) seat.old.view.number (found_by result)) seat.new.view }
        ensures found { IsFound (found_by result) drive (views_among seat.old others.old.items) }
        ensures others { others.new.items ≡ map lone others.old.items }
        ensures capacity { vec_capacity others.new ≡ vec_capacity others.old }
    {
        let Some(other) = others.pop() else {
            return self.take(seat, drive);
        };
        let HoldSeat {
            seat: witness,
            number,
        } = other;
        self.table
            .shared
            .join_seat::<Invite>(&mut seat.seat, witness);
        let taken = self.take_among(seat, others, drive);
        let witness = self.table.shared.split_seat::<Dismiss>(&mut seat.seat);
        others.push_reserved(HoldSeat {
            seat: witness,
            number,
        });
        taken
    }

    /// Like `take_among`, but makes one call of `holder`: returns the number in place of `Busy`,
    /// and 0 in place of `Held`.
    pub fn holder_among(&self, seat: &mut HoldSeat, others: &mut Vec<HoldSeat>, drive: usize) -> u64
        requires seat { IsSeatAt self.now seat.old }
        requires others { All (λ s. IsSeatAt self.now s) others.old.items }
        requires drive { drive < self.now.words }
        ensures step { seat.new ≡ next seat.old (looked seat.old.view drive result) }
        ensures rule { IsRuledStep drive seat.old.view seat.old.made result result seat.new.view }
        ensures found { IsFound result drive (views_among seat.old others.old.items) }
        ensures others { others.new.items ≡ map lone others.old.items }
        ensures capacity { vec_capacity others.new ≡ vec_capacity others.old }
    {
        let Some(other) = others.pop() else {
            return self.holder(seat, drive);
        };
        let HoldSeat {
            seat: witness,
            number,
        } = other;
        self.table
            .shared
            .join_seat::<Invite>(&mut seat.seat, witness);
        let found = self.holder_among(seat, others, drive);
        let witness = self.table.shared.split_seat::<Dismiss>(&mut seat.seat);
        others.push_reserved(HoldSeat {
            seat: witness,
            number,
        });
        found
    }
}
