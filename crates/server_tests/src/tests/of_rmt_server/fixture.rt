//! Makes two drives in memory, and serves one stream in a new session.

ghost use Rattle.std.specs.Prelude.{◌≡◌, ◌≤◌, ◌+◌, IfOk, IfSome, None, [], length};
ghost use Rattle.drives.specs.declared.view.View.{View};
ghost use Rattle.drives.specs.Local.{IsSeatOf};
ghost use Rattle.drives.specs.Opening.{kinds};
ghost use Rattle.rmt_wire.specs.RequestReader.{Unread};
ghost use Rattle.rmt_server.specs.declared.session.session_state.SessionState.{SessionState};
ghost use Rattle.rmt_server.specs.State.{state, IsAt};
ghost use Rattle.drives.specs.contracts.local.LocalHoldsHolds.TheImpl.{ghosts as of_holds};

use drives::{DriveFault, DriveTable, Holds, ListStacks, LocalHolds, LocalSeat, Stacks};
use rmt_server::{ServeFault, Served, Session, more_seats, serve};
use rmt_wire::{Counted, RequestReader, WireFault};
use std::alloc::Global;
use std::io::{Read, Write};

/// The drives of these tests.
pub(crate) type Drives = DriveTable<LocalHolds, ListStacks>;

/// The sessions of these tests.
pub(crate) type Client = Session<LocalHolds, ListStacks>;

/// How serving ended: between two requests, inside one, at bytes that are not a request, or with a
/// failed read or write that was not retried.
pub(crate) const END: u8 = 0;

pub(crate) const NO_INPUT: u8 = 1;

pub(crate) const TRUNCATED: u8 = 2;

pub(crate) const UNKNOWN: u8 = 3;

pub(crate) const BAD_NUMBER: u8 = 4;

pub(crate) const NO_OUTPUT: u8 = 5;

/// The stream was not served, or serving ended in another way.
const NOT_SERVED: u8 = 6;

/// Returns this number, from the result of serving and the number of failed reads and writes.
fn status_of(ending: Result<Served, ServeFault>, reads: u64, writes: u64) -> u8 {
    match (ending, reads, writes) {
        (Ok(Served::End), 0, 0) => END,
        (Ok(Served::Truncated), 0, 0) => TRUNCATED,
        (Ok(Served::Broken(WireFault::UnknownCommand)), 0, 0) => UNKNOWN,
        (Ok(Served::Broken(WireFault::BadNumber)), 0, 0) => BAD_NUMBER,
        (Err(ServeFault::Input), 1, 0) => NO_INPUT,
        (Err(ServeFault::Output), 0, 1) => NO_OUTPUT,
        _ => NOT_SERVED,
    }
}

/// Adds the drives `/dev/st0` and `/dev/st1`.
fn add_drives(stacks: &mut ListStacks) -> Result<(), DriveFault>
    requires { length stacks.old.library.drives ≡ 0 }
    ensures { IfOk result (λ _. length stacks.new.library.drives ≡ 2) }
{
    stacks.add_drive(b"/dev/st0")?;
    stacks.add_drive(b"/dev/st1")?;
    Ok(())
}

/// Adds the reels `a` and `b` to the first drive, and `c` to the second.
fn add_reels(stacks: &mut ListStacks, capacity: u64) -> Result<(), DriveFault>
    requires { length stacks.old.library.drives ≡ 2 }
    ensures { length stacks.new.library.drives ≡ 2 }
{
    stacks.add_reel(0, b"a", capacity)?;
    stacks.add_reel(0, b"b", capacity)?;
    stacks.add_reel(1, b"c", capacity)
}

/// Makes these drives, with empty reels. Returns `None` if an allocation fails.
pub(crate) fn two_drives(alloc: Global, capacity: u64) -> Option<Drives>
    ensures { IfSome result (λ drives. length drives.stacks.library.drives ≤ length drives.holds.numbers) }
{
    let holds = LocalHolds::new(alloc, 2).ok()?;
    let mut stacks = ListStacks::new(alloc);
    add_drives(&mut stacks).ok()?;
    add_reels(&mut stacks, capacity).ok()?;
    Some(DriveTable { holds, stacks })
}

/// Makes a session with a new seat and nothing open. Returns `None` if there is no seat, or if an
/// allocation fails.
pub(crate) fn new_session<S: Stacks>(
    alloc: Global,
    drives: &mut DriveTable<LocalHolds, S>,
) -> Option<Session<LocalHolds, S>>
    requires { S.drives drives.old.stacks ≤ length drives.old.holds.numbers }
    ensures at { IfSome result (λ session. IsAt (kinds of_holds S.Stacks S.Reel.Reel) (state drives.new session)) }
    ensures closed { IfSome result (λ session. session.opened ≡ None) }
    ensures number { IfSome result (λ session. session.seat.number ≡ drives.new.holds.last) }
    ensures next { IfSome result (λ _. drives.new.holds.last ≡ drives.old.holds.last + 1) }
    ensures numbers { drives.new.holds.numbers ≡ drives.old.holds.numbers }
    ensures stacks { drives.new.stacks ≡ drives.old.stacks }
    ensures others { (session_state : SessionState View S.Reel) → IsAt (kinds of_holds S.Stacks S.Reel.Reel) (state drives.old session_state) →
        IsAt (kinds of_holds S.Stacks S.Reel.Reel) (state drives.new session_state) }
{
    more_seats::<S>();
    let seat = drives.holds.seat()?;
    Session::new(alloc, seat).ok()
}

/// Serves one stream with a new session.
pub(crate) fn serve_once<R: Read + Drop, W: Write + Drop, S: Stacks>(
    alloc: Global,
    drives: &mut DriveTable<LocalHolds, S>,
    input: R,
    output: W,
) -> u8
    requires { S.drives drives.old.stacks ≤ length drives.old.holds.numbers }
    ensures { S.drives drives.new.stacks ≤ length drives.new.holds.numbers }
{
    let mut input = Counted::new(input);
    let mut output = Counted::new(output);
    serve_counted(alloc, drives, &mut input, &mut output)
}

/// Serves one stream with a new session and a new reader.
fn serve_counted<R: Read, W: Write, S: Stacks>(
    alloc: Global,
    drives: &mut DriveTable<LocalHolds, S>,
    input: &mut Counted<R>,
    output: &mut Counted<W>,
) -> u8
    requires { S.drives drives.old.stacks ≤ length drives.old.holds.numbers }
    ensures { S.drives drives.new.stacks ≤ length drives.new.holds.numbers }
{
    match RequestReader::new(alloc) {
        Ok(mut wire) => serve_new(alloc, drives, input, output, &mut wire),
        Err(_) => NOT_SERVED,
    }
}

/// Serves one stream with a new session and this reader.
fn serve_new<R: Read, W: Write, S: Stacks>(
    alloc: Global,
    drives: &mut DriveTable<LocalHolds, S>,
    input: &mut Counted<R>,
    output: &mut Counted<W>,
    wire: &mut RequestReader,
) -> u8
    requires few { S.drives drives.old.stacks ≤ length drives.old.holds.numbers }
    requires empty { Unread wire.old [] }
    ensures { S.drives drives.new.stacks ≤ length drives.new.holds.numbers }
{
    let Some(mut session) = new_session(alloc, drives) else {
        return NOT_SERVED;
    };
    let ending = serve(input, output, wire, &mut session, drives);
    status_of(ending, input.failures(), output.failures())
}

/// Returns the number of the seat that holds the first drive, or 0.
pub(crate) fn first_holder(drives: &mut Drives, seat: &mut LocalSeat) -> Option<u64>
    requires few { length drives.old.stacks.library.drives ≤ length drives.old.holds.numbers }
    requires seat { IsSeatOf drives.old.holds seat.old }
{
    let drive = drives.stacks.drive(b"/dev/st0")?;
    Some(drives.holds.holder(seat, drive))
}
