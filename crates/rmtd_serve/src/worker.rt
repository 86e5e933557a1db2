//! A seat with its stacks, for one thread.
ghost use Rattle.std.specs.Prelude.{◌≡◌, ◌≤◌, None};
ghost use Rattle.std.proofs.Props.{props};
ghost use Rattle.drives.specs.Holding.{HoldsJust};
ghost use Rattle.hold_table.specs.Seats.{IsSeatAt};
ghost use Rattle.hold_table.specs.declared.table.TheConstants.{SEAT_LIMIT};

use crate::at::serve_timed;
use crate::idle_watch::IdleWatch;
use crate::names_table::NamesTable;
use drives::{DriveTable, Stacks};
use hold_table::{HoldSeat, HoldTable, TableHand};
use rmt_wire::Counted;
use std::alloc::Global;
use std::cell::Cell;
use std::io::{Read, Write};
use std::marker::PhantomData;

/// A seat of a table that holds no drive, and the stacks on which its sessions work.
#[derive(Drop)]
pub(crate) struct Worker<'t, S: Stacks + Drop, B: NamesTable> {
    table: &'t HoldTable,
    seat: HoldSeat,
    stacks: S,
    at: PhantomData<B>,
    ghost here: { table.now ≡ B.table },
    ghost same: { seat.table ≡ B.table },
    ghost numbered: { 1 ≤ seat.view.number },
    ghost dealt: { seat.view.number ≤ SEAT_LIMIT },
    ghost idle: { HoldsJust seat.view None } by { Prim.hlevel props },
    ghost enough: { S.drives stacks ≤ table.now.words },
}

impl<'t, S: Stacks + Drop, B: NamesTable> Worker<'t, S, B> {
    pub(crate) fn new(table: &'t HoldTable, seat: HoldSeat, stacks: S) -> Self
        requires here { table.now ≡ B.table }
        requires seat { IsSeatAt B.table seat }
        requires idle { HoldsJust seat.view None }
        requires enough { S.drives stacks ≤ table.now.words }
    {
        Worker {
            table,
            seat,
            stacks,
            at: PhantomData,
        }
    }

    pub(crate) fn into_seat(self) -> HoldSeat
        ensures seat { IsSeatAt B.table result }
        ensures idle { HoldsJust result.view None }
    {
        let Worker {
            table: _,
            seat,
            stacks: _,
            at: _,
        } = self;
        seat
    }

    /// Serves the streams of pair `number` in a session at this seat, and drops them.
    pub(crate) fn serve<I: Read + Drop, O: Write + Drop>(
        self,
        alloc: Global,
        number: u64,
        input: I,
        output: O,
    ) -> Self {
        let Worker {
            table,
            seat,
            stacks,
            at,
        } = self;
        let holds = TableHand { table };
        let drives = DriveTable { holds, stacks };
        let is_idle = Cell::new(false);
        let mut input = Counted::new(IdleWatch::new(input, &is_idle));
        let mut output = Counted::new(IdleWatch::new(output, &is_idle));
        let (seat, stacks) = serve_timed(
            alloc,
            drives,
            seat,
            number,
            &mut input,
            &mut output,
            &is_idle,
        );
        Worker {
            table,
            seat,
            stacks,
            at,
        }
    }
}
