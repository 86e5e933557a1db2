//! The workers that no thread has.
ghost use Rattle.std.specs.Prelude.{None, All};
ghost use Rattle.drives.specs.Holding.{HoldsJust};
ghost use Rattle.hold_table.specs.Seats.{IsSeatAt};

use crate::names_table::NamesTable;
use crate::unused_seats::UnusedSeats;
use crate::worker::Worker;
use drives::Stacks;
use hold_table::{HoldSeat, SEAT_LIMIT};
use std::alloc::Global;

/// The idle workers, and how many of them are not reserved.
#[derive(Drop)]
pub(crate) struct IdleWorkers<'t, S: Stacks + Drop, B: NamesTable> {
    unused_seats: UnusedSeats<'t, S, B>,
    workers: Vec<Worker<'t, S, B>>,
    free: usize,
}

impl<'t, S: Stacks + Drop, B: NamesTable> IdleWorkers<'t, S, B> {
    /// No worker is reserved at first. A worker is made from a seat of `unused_seats` when it is
    /// first taken. It allocates nothing.
    pub(crate) fn new(alloc: Global, unused_seats: UnusedSeats<'t, S, B>) -> Self {
        IdleWorkers {
            unused_seats,
            workers: Vec::new(alloc),
            free: SEAT_LIMIT,
        }
    }

    /// Reserves a worker for a thread that is to be started, and the room for its return. Returns
    /// false if no worker is free, or if the allocation for that room fails.
    pub(crate) fn reserve(&mut self) -> bool {
        let Some(free) = self.free.checked_sub(1) else {
            return false;
        };
        if self
            .workers
            .reserve(SEAT_LIMIT.saturating_sub(free))
            .is_err()
        {
            return false;
        }
        self.free = free;
        true
    }

    /// Cancels a reservation, because the thread was not started.
    pub(crate) fn release(&mut self) {
        self.free = self.free.saturating_add(1);
    }

    /// Returns a worker that was reserved.
    pub(crate) fn take(&mut self) -> Option<Worker<'t, S, B>> {
        match self.workers.pop() {
            Some(worker) => Some(worker),
            None => self.unused_seats.take(),
        }
    }

    /// Takes a worker back. It allocates nothing, because `reserve` made the room.
    pub(crate) fn put(&mut self, worker: Worker<'t, S, B>) {
        let is_back = self.workers.push(worker).is_ok();
        self.free = self.free.saturating_add(is_back as usize);
    }

    /// Returns the seats of all workers. The vector once had all these seats, so there is room for
    /// them. A seat without room would be lost.
    pub(crate) fn into_seats(self) -> Vec<HoldSeat>
        ensures { All (λ s. IsSeatAt B.table s × HoldsJust s.view None) result.items }
    {
        let IdleWorkers {
            unused_seats,
            mut workers,
            free: _,
        } = self;
        let mut seats = unused_seats.into_seats();
        while let Some(worker) = workers.pop() {
            let _ = seats.push(worker.into_seat());
        }
        seats
    }
}
