//! The table as a `Holds`.

use crate::seat::HoldSeat;
use crate::table::HoldTable;
use drives::{Holds, Taken};

/// A shared reference to a table. Each thread has its own. The contracts do not say who holds a
/// drive, because other threads can make steps at any time.
#[derive(Clone, Copy, Drop)]
pub struct TableHand<'a> {
    pub table: &'a HoldTable,
}

impl<'a> Holds for TableHand<'a> {
    ghost use Rattle.std.specs.Prelude.{◌≡◌, ◌<◌, ◌≤◌, ◌↔◌, ◌==◌, cond, [], IsTrue};
    ghost use Rattle.drives.specs.Holding.{has, taken, given, looked, found_by, TakeAnswers};
    ghost use Rattle.hold_table.specs.Rule.{IsRuledStep};
    ghost use Rattle.hold_table.specs.Seats.{next, views_among, IsSeatAt, IsFound};
    ghost use Rattle.hold_table.specs.declared.table.TheConstants.{SEAT_LIMIT};

    type Seat = HoldSeat;

    ghost belongs = { λ h s. IsSeatAt h.table.now s };

    ghost drives = { λ h. h.table.now.words };

    ghost seated = { λ _. SEAT_LIMIT };

    ghost shows = { λ s. s.view };

    ghost tells = { λ _ _ _. ⊥ };

    fn take(&mut self, seat: &mut HoldSeat, drive: usize) -> Taken
        requires seat { IsSeatAt self.old.table.now seat.old }
        requires drive { drive < self.old.table.now.words }
        ensures step { seat.new ≡ next seat.old (taken seat.old.view drive (found_by result)) }
        ensures answer { TakeAnswers result seat.old.view seat.new.view drive }
        ensures known { found_by result ≤ SEAT_LIMIT }
        ensures own { IsSeatAt self.new.table.now seat.new }
        ensures same { self.new ≡ self.old }
        ensures rule { IsRuledStep drive seat.old.view seat.old.made (found_by result)
            (cond (found_by result == 0) seat.old.view.number (found_by result)) seat.new.view }
        ensures beside { IsFound (found_by result) drive (views_among seat.old []) }
    {
        self.table.take(seat, drive)
    }

    fn give(&mut self, seat: &mut HoldSeat, drive: usize)
        requires seat { IsSeatAt self.old.table.now seat.old }
        requires drive { drive < self.old.table.now.words }
        requires held { IsTrue (has seat.old.view drive) }
        ensures step { seat.new ≡ next seat.old (given seat.old.view drive) }
        ensures own { IsSeatAt self.new.table.now seat.new }
        ensures same { self.new ≡ self.old }
        ensures rule { IsRuledStep drive seat.old.view seat.old.made seat.old.view.number 0 seat.new.view }
    {
        self.table.give(seat, drive);
    }

    fn holder(&self, seat: &mut HoldSeat, drive: usize) -> u64
        requires seat { IsSeatAt self.now.table.now seat.old }
        requires drive { drive < self.now.table.now.words }
        ensures step { seat.new ≡ next seat.old (looked seat.old.view drive result) }
        ensures known { result ≤ SEAT_LIMIT }
        ensures mine { result ≡ seat.old.view.number ↔ IsTrue (has seat.old.view drive) }
        ensures own { IsSeatAt self.now.table.now seat.new }
        ensures rule { IsRuledStep drive seat.old.view seat.old.made result result seat.new.view }
        ensures beside { IsFound result drive (views_among seat.old []) }
    {
        self.table.holder(seat, drive)
    }

    ghost numbered = { λ h s b. (b.numbered, b.dealt) };

    ghost agrees = { λ h s d n b t. absurd t };
}
