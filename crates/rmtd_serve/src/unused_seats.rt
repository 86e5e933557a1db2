//! Workers that were not used yet.
ghost use Rattle.std.specs.Prelude.{◌≡◌, ◌≤◌, None, All};
ghost use Rattle.std.proofs.Props.{props};
ghost use Rattle.drives.specs.Holding.{HoldsJust};
ghost use Rattle.hold_table.specs.Seats.{IsSeatAt};

use crate::names_table::NamesTable;
use crate::worker::Worker;
use drives::Stacks;
use hold_table::{HoldSeat, HoldTable};
use std::marker::PhantomData;

/// The seats of a table that no session had yet, and their stacks.
#[derive(Drop)]
pub(crate) struct UnusedSeats<'t, S: Stacks + Drop, B: NamesTable> {
    table: &'t HoldTable,
    seats: Vec<HoldSeat>,
    stacks: Vec<S>,
    at: PhantomData<B>,
    ghost here: { table.now ≡ B.table },
    ghost seated: { All (λ s. IsSeatAt B.table s × HoldsJust s.view None) seats.items } by { Prim.hlevel props },
    ghost enough: { All (λ s. S.drives s ≤ table.now.words) stacks.items } by { Prim.hlevel props },
}

impl<'t, S: Stacks + Drop, B: NamesTable> UnusedSeats<'t, S, B> {
    pub(crate) fn new(table: &'t HoldTable, seats: Vec<HoldSeat>, stacks: Vec<S>) -> Self
        requires here { table.now ≡ B.table }
        requires seats { All (λ s. IsSeatAt B.table s × HoldsJust s.view None) seats.items }
        requires stacks { All (λ s. S.drives s ≤ table.now.words) stacks.items }
    {
        UnusedSeats {
            table,
            seats,
            stacks,
            at: PhantomData,
        }
    }

    /// Returns the seats that no session had. The vector has room for as many as there were at
    /// first.
    pub(crate) fn into_seats(self) -> Vec<HoldSeat>
        ensures { All (λ s. IsSeatAt B.table s × HoldsJust s.view None) result.items }
    {
        let UnusedSeats {
            table: _,
            seats,
            stacks: _,
            at: _,
        } = self;
        seats
    }

    /// Returns the next seat with its stacks, or None if no seat is left.
    pub(crate) fn take(&mut self) -> Option<Worker<'t, S, B>> {
        let seat = self.seats.pop()?;
        let stacks = self.stacks.pop()?;
        Some(Worker::new(self.table, seat, stacks))
    }
}
