//! The atomic steps on the word of one drive.
ghost use Rattle.std.specs.Prelude.{◌≡◌, ◌<◌, ◌≤◌, ◌↔◌, ◌==◌, true, false, cond, [], IsTrue};
ghost use Rattle.drives.specs.Holding.{has, taken, given, looked};
ghost use Rattle.hold_table.specs.Rule.{IsRuledStep};
ghost use Rattle.hold_table.specs.declared.table.TheConstants.{SEAT_LIMIT};
ghost use Rattle.hold_table.specs.Seats.{next, views_among, IsSeatAt, IsFound};

use crate::rule::{Gives, Looks, Takes};
use crate::seat::HoldSeat;
use crate::table::HoldTable;

impl HoldTable {
    // Sets the drive's word to the seat's number if the word is 0. Returns the word that it found.
    pub(crate) fn claim(&self, seat: &mut HoldSeat, drive: usize) -> u64
        requires seat { IsSeatAt self.now seat.old }
        requires drive { drive < self.now.words }
        ensures step { seat.new ≡ next seat.old (taken seat.old.view drive result) }
        ensures known { result ≤ SEAT_LIMIT }
        ensures free { result ≡ 0 → (has seat.old.view drive ≡ false) × (has seat.new.view drive ≡ true) }
        ensures rule { IsRuledStep drive seat.old.view seat.old.made result
            (cond (result == 0) seat.old.view.number result) seat.new.view }
        ensures beside { IsFound result drive (views_among seat.old []) }
    {
        self.table
            .shared
            .compare_exchange::<Takes>(&mut seat.seat, drive, 0, seat.number)
    }

    // Sets the drive's word to 0.
    pub(crate) fn clear(&self, seat: &mut HoldSeat, drive: usize)
        requires seat { IsSeatAt self.now seat.old }
        requires drive { drive < self.now.words }
        requires held { IsTrue (has seat.old.view drive) }
        ensures step { seat.new ≡ next seat.old (given seat.old.view drive) }
        ensures rule { IsRuledStep drive seat.old.view seat.old.made seat.old.view.number 0 seat.new.view }
    {
        self.table.shared.store::<Gives>(&mut seat.seat, drive, 0);
    }

    pub(crate) fn read(&self, seat: &mut HoldSeat, drive: usize) -> u64
        requires seat { IsSeatAt self.now seat.old }
        requires drive { drive < self.now.words }
        ensures step { seat.new ≡ next seat.old (looked seat.old.view drive result) }
        ensures known { result ≤ SEAT_LIMIT }
        ensures mine { result ≡ seat.old.view.number ↔ IsTrue (has seat.old.view drive) }
        ensures rule { IsRuledStep drive seat.old.view seat.old.made result result seat.new.view }
        ensures beside { IsFound result drive (views_among seat.old []) }
    {
        self.table.shared.load::<Looks>(&mut seat.seat, drive)
    }
}
