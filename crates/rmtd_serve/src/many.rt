//! Serves each pair of streams in a thread of its own.
ghost use Rattle.std.specs.Prelude.{◌≡◌, ◌≤◌, None, All, length};
ghost use Rattle.std.specs.Thread.{IsSync, IsSend};
ghost use Rattle.drives.specs.Holding.{HoldsJust};
ghost use Rattle.hold_table.specs.Seats.{IsSeatAt};

use crate::idle_workers::IdleWorkers;
use crate::incoming::{DropReason, Incoming};
use crate::names_table::NamesTable;
use crate::unused_seats::UnusedSeats;
use drives::Stacks;
use hold_table::{HoldSeat, HoldTable, SEAT_LIMIT};
use std::alloc::Global;
use std::io::{Read, Write};
use std::marker::Brand;
use std::sync::{Mutex, Wait};
use std::thread::{self, Threads};

/// Serves pair `number` with a reserved worker, and puts the worker back.
fn work<W: Wait, I: Read + Drop, O: Write + Drop, S: Stacks + Drop, B: NamesTable>(
    rt: &W,
    alloc: Global,
    idle_workers: &Mutex<IdleWorkers<'_, S, B>>,
    number: u64,
    input: I,
    output: O,
) {
    let Some(worker) = idle_workers.lock(rt).take() else {
        return;
    };
    let worker = worker.serve(alloc, number, input, output);
    idle_workers.lock(rt).put(worker);
}

fn serve_all<
    R: Threads + Wait + Sync,
    I: Incoming + Drop,
    S: Stacks + Drop + Send,
    B: NamesTable + Send,
>(rt: &R, alloc: Global, incoming: I, idle_workers: &Mutex<IdleWorkers<'_, S, B>>) -> I
where
    S::Reel: Send,
    ensures { I.is_over result }
{
    thread::scope(
        thread::scope_env(),
        rt,
        move |scope| -> I
            requires { IsSync R.row × IsSend S.row × IsSend S.Reel.row × IsSend B.row × IsSend I.In.row × IsSend I.Out.row }
            ensures { I.is_over result }
        {
            let mut incoming = incoming;
            for _ in rt.forever() {
                let Some((input, output)) = incoming.next() else {
                    return incoming;
                };
                let number = incoming.number();
                let is_promised = idle_workers.lock(rt).reserve();
                if !is_promised {
                    incoming.dropped(DropReason::NoSeat);
                    continue;
                }
                let started = scope.spawn(move || work(
                    rt,
                    alloc,
                    idle_workers,
                    number,
                    input,
                    output,
                ));
                if started.is_err() {
                    idle_workers.lock(rt).release();
                    incoming.dropped(DropReason::NoThread);
                }
            }
            unreachable!()
        },
    )
}

/// Serves the pairs with a table that the type `B` names.
fn serve_at_table<
    R: Threads + Wait + Sync,
    I: Incoming + Drop,
    S: Stacks + Drop + Send,
    B: NamesTable + Send,
>(
    rt: &R,
    alloc: Global,
    incoming: I,
    table: &HoldTable,
    seats: Vec<HoldSeat>,
    stacks: Vec<S>,
) -> (I, Vec<HoldSeat>)
where
    S::Reel: Send,
    requires here { table.now ≡ B.table }
    requires seats { All (λ s. IsSeatAt B.table s × HoldsJust s.view None) seats.items }
    requires stacks { All (λ s. S.drives s ≤ table.now.words) stacks.items }
    ensures over { I.is_over result.0 }
    ensures seats { All (λ s. IsSeatAt B.table s × HoldsJust s.view None) result.1.items }
{
    let unused_seats = UnusedSeats::<S, B>::new(table, seats, stacks);
    let idle_workers = Mutex::new(IdleWorkers::new(alloc, unused_seats));
    let incoming = serve_all(rt, alloc, incoming, &idle_workers);
    (incoming, idle_workers.into_inner().into_seats())
}

/// Serves each pair of streams in its own session and its own thread, at most 32 (`SEAT_LIMIT`)
/// pairs in parallel.
///
/// The caller passes all seats of the table, none of which holds a drive, and as many stacks, each
/// with no more drives than the table. When a session has ended, its seat and stacks serve a later
/// pair.
///
/// It returns after the last pair has come and each thread has ended. It returns the source of the
/// pairs, and the seats in any order. A seat for which the server has no memory is missing.
///
/// A pair is closed unserved if all seats are taken, or if an allocation or the start of a thread
/// fails. Then nothing is read from it or written to it, and `Incoming::dropped` is called.
///
/// The stacks log when a pair begins to be served and how it ended, both with the pair's number.
pub fn serve_many<R: Threads + Wait + Sync, I: Incoming + Drop, S: Stacks + Drop + Send>(
    rt: &R,
    alloc: Global,
    incoming: I,
    table: &HoldTable,
    seats: Vec<HoldSeat>,
    stacks: Vec<S>,
) -> (I, Vec<HoldSeat>)
where
    S::Reel: Send,
    requires seats { (length seats.items ≡ SEAT_LIMIT) × All (λ s. IsSeatAt table.now s × HoldsJust s.view None) seats.items }
    requires stacks { (length stacks.items ≡ SEAT_LIMIT) × All (λ s. S.drives s ≤ table.now.words) stacks.items }
    ensures over { I.is_over result.0 }
    ensures seats { All (λ s. IsSeatAt table.now s × HoldsJust s.view None) result.1.items }
{
    serve_at_table::<R, I, S, Brand>(rt, alloc, incoming, table, seats, stacks)
}
