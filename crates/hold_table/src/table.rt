//! The table, and its atomic steps.
ghost use Rattle.std.specs.Prelude.{◌≡◌, ◌-◌, ◌<◌, ◌≤◌, ◌↔◌, ◌==◌, None, cond, [], ◌∷◌, length, All, IsTrue, IfOk};
ghost use Rattle.drives.specs.declared.holds.TheConstants.{DRIVE_LIMIT};
ghost use Rattle.drives.specs.Holding.{has, newcomer, taken, given, looked, found_by, TakeAnswers, HoldsJust};
ghost use Rattle.hold_table.specs.Rule.{seated, IsRuledStep};
ghost use Rattle.hold_table.specs.Seats.{next, dealt, views_among, IsSeatAt, IsFound};

use crate::rule::{Deal, HoldLaw, SeatGroup};
use crate::seat::HoldSeat;
use atomic_table::{Seat, Table};
use drives::Taken;
use std::alloc::{AllocError, Global};
use std::marker::Model;

/// The number of seats of a table.
pub const SEAT_LIMIT: usize = 32;

/// A table of 1 to `DRIVE_LIMIT` drives, which `SEAT_LIMIT` seats share between threads. The seats
/// that a call gets must be of this table. Contracts see which table it is.
#[derive(Drop)]
pub struct HoldTable {
    pub(crate) table: Table<(), SeatGroup, usize, HoldLaw, Global>,
}

impl Model for HoldTable {
    ghost use Rattle.std.specs.Prelude.{◌≡◌, ◌≤◌};
    ghost use Rattle.atomic_table.specs.Seated.{TableId, table_id_coded};

    ghost Value = { TableId };

    ghost coded = { table_id_coded };

    ghost view = { λ t. t.table.shared.table_id };

    ghost invariant = { λ t. (t.table.shared.key ≡ t.table.shared.table_id.words) × (1 ≤ t.table.shared.table_id.words) × (t.table.shared.table_id.slots ≡ 0) };
}

impl HoldTable {
    /// Makes a table of 1 to `DRIVE_LIMIT` drives, all free. Returns the table with its
    /// `SEAT_LIMIT` seats in the order of their numbers, from 1. Fails only if an allocation fails.
    pub fn new(alloc: Global, drives: usize) -> Result<(HoldTable, Vec<HoldSeat>), AllocError>
        requires some { 1 ≤ drives }
        requires few { drives ≤ DRIVE_LIMIT }
        ensures drives { IfOk result (λ made. made.0.words ≡ drives) }
        ensures seats { IfOk result (λ made. made.1.items ≡ dealt made.0 SEAT_LIMIT) }
        ensures count { IfOk result (λ made. length made.1.items ≡ SEAT_LIMIT) }
        ensures idle { IfOk result (λ made. All (λ s. IsSeatAt made.0 s × HoldsJust s.view None) made.1.items) }
        ensures lone { IfOk result (λ made. All (λ s. s.beside ≡ []) made.1.items) }
    {
        let (table, first) = HoldTable::laid(alloc, drives)?;
        let seats = table.deal(alloc, first)?;
        Ok((table, seats))
    }

    // Returns a new table with its first seat, which has all further numbers to pass on.
    fn laid(alloc: Global, drives: usize) -> Result<(HoldTable, Seat<(), SeatGroup>), AllocError>
        requires some { 1 ≤ drives }
        requires few { drives ≤ DRIVE_LIMIT }
        ensures drives { IfOk result (λ made. made.0.words ≡ drives) }
        ensures same { IfOk result (λ made. made.1.table_id ≡ made.0) }
        ensures first { IfOk result (λ made. made.1.me ≡ (seated (newcomer 1) 0 (SEAT_LIMIT - 1) ∷ [], [])) }
    {
        let words = Vec::from_elem(alloc, 0u64, drives)?;
        let (table, first) = Table::of_words(alloc, words.as_slice(), &drives)?;
        Ok((HoldTable { table }, first))
    }

    // Each seat passes the numbers that are left on to the next.
    fn deal(&self, alloc: Global, first: Seat<(), SeatGroup>) -> Result<Vec<HoldSeat>, AllocError>
        requires same { first.table_id ≡ self.now }
        requires first { first.me ≡ (seated (newcomer 1) 0 (SEAT_LIMIT - 1) ∷ [], []) }
        ensures seats { IfOk result (λ seats. seats.items ≡ dealt self.now SEAT_LIMIT) }
        ensures idle { IfOk result (λ seats. All (λ s. IsSeatAt self.now s × HoldsJust s.view None) seats.items) }
        ensures lone { IfOk result (λ seats. All (λ s. s.beside ≡ []) seats.items) }
    {
        let mut seat = first;
        let mut seats = Vec::with_capacity(alloc, SEAT_LIMIT)?;
        let mut dealt = 0;
        while dealt < SEAT_LIMIT as u64 - 1 {
            let next = self.table.shared.split_seat::<Deal>(&mut seat);
            dealt += 1;
            seats.push(HoldSeat {
                seat,
                number: dealt,
            })?;
            seat = next;
        }
        seats.push(HoldSeat {
            seat,
            number: SEAT_LIMIT as u64,
        })?;
        Ok(seats)
    }

    /// Takes the drive for the given seat, if no seat holds the drive. Returns `Held`, or `Busy`
    /// with the number of the seat that holds the drive, which may be this one.
    pub fn take(&self, seat: &mut HoldSeat, drive: usize) -> Taken
        requires seat { IsSeatAt self.now seat.old }
        requires drive { drive < self.now.words }
        ensures step { seat.new ≡ next seat.old (taken seat.old.view drive (found_by result)) }
        ensures answer { TakeAnswers result seat.old.view seat.new.view drive }
        ensures known { found_by result ≤ SEAT_LIMIT }
        ensures rule { IsRuledStep drive seat.old.view seat.old.made (found_by result)
            (cond (found_by result == 0) seat.old.view.number (found_by result)) seat.new.view }
        ensures beside { IsFound (found_by result) drive (views_among seat.old []) }
    {
        let found = self.claim(seat, drive);
        if found == 0 {
            Taken::Held
        } else {
            Taken::Busy(found)
        }
    }

    /// Gives back the drive, which the given seat must hold.
    pub fn give(&self, seat: &mut HoldSeat, drive: usize)
        requires seat { IsSeatAt self.now seat.old }
        requires drive { drive < self.now.words }
        requires held { IsTrue (has seat.old.view drive) }
        ensures step { seat.new ≡ next seat.old (given seat.old.view drive) }
        ensures rule { IsRuledStep drive seat.old.view seat.old.made seat.old.view.number 0 seat.new.view }
    {
        self.clear(seat, drive);
    }

    /// Returns the number of the seat that holds the drive, or 0 if no seat does.
    pub fn holder(&self, seat: &mut HoldSeat, drive: usize) -> u64
        requires seat { IsSeatAt self.now seat.old }
        requires drive { drive < self.now.words }
        ensures step { seat.new ≡ next seat.old (looked seat.old.view drive result) }
        ensures known { result ≤ SEAT_LIMIT }
        ensures mine { result ≡ seat.old.view.number ↔ IsTrue (has seat.old.view drive) }
        ensures rule { IsRuledStep drive seat.old.view seat.old.made result result seat.new.view }
        ensures beside { IsFound result drive (views_among seat.old []) }
    {
        self.read(seat, drive)
    }
}
