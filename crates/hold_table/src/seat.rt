//! A seat at the table.
ghost use Rattle.std.specs.Prelude.{◌≡◌};
ghost use Rattle.hold_table.specs.Seats.{seat_beside};

use crate::rule::SeatGroup;
use atomic_table::Seat;
use std::marker::Model;

/// A seat at a table, made by `HoldTable::new`. One thread has a seat at a time. Contracts see
/// which table it belongs to, what it knows, and how many steps it has made.
#[derive(Drop)]
pub struct HoldSeat {
    pub(crate) seat: Seat<(), SeatGroup>,
    pub(crate) number: u64,
}

impl Model for HoldSeat {
    ghost use Rattle.std.specs.Prelude.{◌≡◌};
    ghost use Rattle.hold_table.specs.Keeping.{IsLed, first_of, others_of};
    ghost use Rattle.hold_table.specs.Seats.{TableSeat, seat_beside};

    ghost Value = { TableSeat };

    ghost view = { λ s. seat_beside s.seat.table_id (first_of s.seat.me.0).view (first_of s.seat.me.0).made (others_of s.seat.me.0) };

    ghost invariant = { λ s. IsLed s.seat.me × ((first_of s.seat.me.0).view.number ≡ s.number) };
}
