//! Two sessions that share two drives: what one of them does, and the state afterwards.

ghost use Rattle.std.specs.Prelude.{◌≡◌, ◌≢◌, ◌≤◌, length};
ghost use Rattle.tape.specs.contracts.troubled.TroubledReelReel.TheImpl.{ghosts as of_reel};
ghost use Rattle.drives.specs.Opening.{kinds};
ghost use Rattle.rmt_server.specs.State.{state, IsAt};
ghost use Rattle.drives.specs.contracts.local.LocalHoldsHolds.TheImpl.{ghosts as of_holds};
ghost use Rattle.drives.specs.contracts.list.ListStacksStacks.TheImpl.{ghosts as of_stacks};

use super::fixture::{Client, Drives, new_session, two_drives};
use drives::{Holds, ListStacks, ListedReel, LocalHolds, Stacks};
use rmt_server::{more_seats, one_holder, stacks_trouble};
use rmt_wire::{Reply, Request};
use std::alloc::Global;
use tape::{Reel, Trouble};

/// An action of a session.
pub(crate) enum Event {
    /// The session sends this request and gets this reply.
    Ask(Request<'static>, Reply<'static>),
    End,
    /// The next device call of its reel fails with this injected fault, if a reel is online.
    Device(Trouble),
    /// The next latch or move of the stacks fails, whichever session makes it.
    Stacks,
}

/// Whether both replies are the same.
fn is_answer(reply: &Reply<'_>, wanted: &Reply<'_>) -> bool {
    match (reply, wanted) {
        (Reply::Done { number }, Reply::Done { number: other }) => number == other,
        (Reply::Data { bytes }, Reply::Data { bytes: other }) => bytes == other,
        (
            Reply::Error { number, text },
            Reply::Error {
                number: other,
                text: words,
            },
        ) => { number == other && text == words }
        _ => false,
    }
}

/// Whether a session gives this reply to a request, beside another session.
fn carry(
    drives: &mut Drives,
    session: &mut Client,
    other: &Client,
    request: Request<'_>,
    wanted: &Reply<'_>,
) -> bool
    requires at { IsAt (kinds of_holds of_stacks of_reel) (state drives.old session.old) }
    requires other { IsAt (kinds of_holds of_stacks of_reel) (state drives.old other.now) }
    requires apart { other.now.seat.number ≢ session.old.seat.number }
    ensures at { IsAt (kinds of_holds of_stacks of_reel) (state drives.new session.new) }
    ensures other { IsAt (kinds of_holds of_stacks of_reel) (state drives.new other.now) }
    ensures number { session.new.seat.number ≡ session.old.seat.number }
{
    one_holder::<ListStacks>();
    is_answer(&session.carry_out(drives, request), wanted)
}

/// Ends a session beside another.
fn end(drives: &mut Drives, session: &mut Client, other: &Client)
    requires at { IsAt (kinds of_holds of_stacks of_reel) (state drives.old session.old) }
    requires other { IsAt (kinds of_holds of_stacks of_reel) (state drives.old other.now) }
    requires apart { other.now.seat.number ≢ session.old.seat.number }
    ensures at { IsAt (kinds of_holds of_stacks of_reel) (state drives.new session.new) }
    ensures other { IsAt (kinds of_holds of_stacks of_reel) (state drives.new other.now) }
    ensures number { session.new.seat.number ≡ session.old.seat.number }
{
    one_holder::<ListStacks>();
    session.end(drives);
}

/// Returns the name of the drive with this number.
fn device(drive: usize) -> &'static [u8] {
    match drive {
        0 => b"/dev/st0",
        _ => b"/dev/st1",
    }
}

/// Has a session act beside another. Returns whether the reply was as expected.
fn does(drives: &mut Drives, session: &mut Client, other: &Client, event: &Event) -> bool
    requires at { IsAt (kinds of_holds of_stacks of_reel) (state drives.old session.old) }
    requires other { IsAt (kinds of_holds of_stacks of_reel) (state drives.old other.now) }
    requires apart { other.now.seat.number ≢ session.old.seat.number }
    ensures at { IsAt (kinds of_holds of_stacks of_reel) (state drives.new session.new) }
    ensures other { IsAt (kinds of_holds of_stacks of_reel) (state drives.new other.now) }
    ensures number { session.new.seat.number ≡ session.old.seat.number }
{
    match event {
        Event::Ask(request, wanted) => carry(drives, session, other, *request, wanted),
        Event::End => {
            end(drives, session, other);
            true
        }
        Event::Device(trouble) => {
            session.trouble(*trouble);
            true
        }
        Event::Stacks => {
            stacks_trouble::<LocalHolds>();
            drives.stacks.trouble(true);
            true
        }
    }
}

/// The drives, and two sessions with them.
#[derive(Drop)]
struct Two {
    drives: Drives,
    first: Client,
    second: Client,
    ghost at_first: { IsAt (kinds of_holds of_stacks of_reel) (state drives first) },
    ghost at_second: { IsAt (kinds of_holds of_stacks of_reel) (state drives second) },
    ghost apart: { first.seat.number ≢ second.seat.number },
}

impl Two {
    /// Has session `number` act. Returns whether the reply was as expected.
    fn does(&mut self, number: usize, event: &Event) -> bool {
        let drives = &mut self.drives;
        match number {
            1 => does(drives, &mut self.first, &self.second, event),
            _ => does(drives, &mut self.second, &self.first, event),
        }
    }

    /// Returns the number of the seat that holds the drive, or 0. Returns `None` if there is no
    /// seat left to ask with.
    fn holder(&mut self, drive: usize) -> Option<u64> {
        more_seats::<ListStacks>();
        let drive = self.drives.stacks.drive(device(drive))?;
        let mut seat = self.drives.holds.seat()?;
        Some(self.drives.holds.holder(&mut seat, drive))
    }

    /// Returns the drive that session `number` has open with a reel, and the number of failures of
    /// the reel's device.
    fn online(&self, number: usize) -> Option<(usize, u64)> {
        let session = match number {
            1 => &self.first,
            _ => &self.second,
        };
        let (drive, reel) = session.reel()?;
        Some((drive, reel.failures()))
    }
}

/// Whether these reels have these names, of one byte each.
fn has_names(reels: &[ListedReel], names: &[u8]) -> bool {
    for (at, reel) in reels.iter().enumerate() {
        if reel.name() != names.get(at..=at).unwrap_or(&[]) {
            return false;
        }
    }
    reels.len() == names.len()
}

/// Whether the stack of the drive has reels of these names.
fn has_stack(stacks: &ListStacks, drive: usize, names: &[u8]) -> bool {
    match stacks.drive(device(drive)) {
        Some(drive) => has_names(stacks.stack(drive), names),
        None => false,
    }
}

/// Whether both stacks and the bin have reels of these names.
fn has_reels(stacks: &ListStacks, [first, second, bin]: [&[u8]; 3]) -> bool {
    has_stack(stacks, 0, first) && has_stack(stacks, 1, second) && has_names(stacks.bin(), bin)
}

/// The number of the session, what it does, and who then holds each drive. The last field is the
/// drive that the session has open with its reel, and the number of failures of the reel's device.
pub(crate) type Row = (usize, Event, [u64; 2], Option<(usize, u64)>);

/// Whether the row has the expected outcome.
fn is_row(two: &mut Two, row: &Row) -> bool {
    let (number, event, holders, online) = row;
    two.does(*number, event)
        && two.holder(0) == Some(holders[0])
        && two.holder(1) == Some(holders[1])
        && two.online(*number) == *online
}

/// Whether all rows have the expected outcome.
fn are_rows(two: &mut Two, rows: &[Row]) -> bool {
    for row in rows {
        if !is_row(two, row) {
            return false;
        }
    }
    true
}

/// Rows, and the rows before them. Then the names of the reels on both stacks and in the bin, and
/// the number of failed latches and moves.
pub(crate) struct Table {
    pub(crate) before: &'static [Row],
    pub(crate) rows: &'static [Row],
    pub(crate) names: [&'static [u8]; 3],
    pub(crate) failures: u64,
}

/// Whether two sessions act as the table says.
fn is_table(mut two: Two, table: &Table) -> bool {
    let right = are_rows(&mut two, table.before) && are_rows(&mut two, table.rows);
    let stacks = &two.drives.stacks;
    right && has_reels(stacks, table.names) && stacks.failures() == table.failures
}

/// Runs `is_table` with this session and a new one, which has the next seat.
fn is_beside(alloc: Global, mut drives: Drives, first: Client, table: &Table) -> bool
    requires few { length drives.stacks.library.drives ≤ length drives.holds.numbers }
    requires at { IsAt (kinds of_holds of_stacks of_reel) (state drives first) }
    requires last { first.seat.number ≡ drives.holds.last }
{
    match new_session(alloc, &mut drives) {
        Some(second) => is_table(
            Two {
                drives,
                first,
                second,
            },
            table,
        ),
        None => false,
    }
}

/// Runs `is_table` with two new sessions, whose seats have the numbers 1 and 2.
fn is_new(alloc: Global, mut drives: Drives, table: &Table) -> bool
    requires { length drives.stacks.library.drives ≤ length drives.holds.numbers }
{
    match new_session(alloc, &mut drives) {
        Some(first) => is_beside(alloc, drives, first, table),
        None => false,
    }
}

/// Runs `is_new` with new drives, whose reels have 100 bytes each.
pub(crate) fn is_met(alloc: Global, table: &Table) -> bool {
    match two_drives(alloc, 100) {
        Some(drives) => is_new(alloc, drives, table),
        None => false,
    }
}

/// The reply to an open or a close that succeeded, or to an operation of count 0.
pub(crate) const DONE: Reply<'static> = Reply::Done { number: 0 };

/// The reply to an operation of count 1, or to a write of one byte.
pub(crate) const ONE: Reply<'static> = Reply::Done { number: 1 };

pub(crate) const INVALID: Reply<'static> = Reply::Error {
    number: 22,
    text: b"Invalid argument",
};

pub(crate) const IO: Reply<'static> = Reply::Error {
    number: 5,
    text: b"Input/output error",
};

/// Opens the first drive for reading and writing.
pub(crate) const OPEN: Request<'static> = Request::Open {
    device: b"/dev/st0",
    mode: 2,
};
