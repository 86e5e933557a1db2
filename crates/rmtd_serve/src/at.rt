//! Serves one pair of streams at a seat, in a session of its own.
ghost use Rattle.std.specs.Prelude.{◌≤◌, None};
ghost use Rattle.drives.specs.Holding.{HoldsJust};
ghost use Rattle.drives.specs.Opening.{kinds};
ghost use Rattle.rmt_server.specs.Stream.{streams};
ghost use Rattle.rmtd_serve.specs.Seating.{idle, GivesBack, ServesAfresh};

use crate::ended::Ended;
use crate::error_log::text_of;
use crate::session_fault::SessionFault;
use drives::{DriveTable, Holds, Stacks};
use rmt_server::{Served, Session, serve};
use rmt_wire::{Counted, RequestReader};
use std::alloc::Global;
use std::cell::Cell;
use std::io::{Read, Write};

/// Serves one pair of streams in a session with the given seat, and returns the seat and the
/// stacks.
///
/// The seat must hold no drive, and holds none afterwards, however the streams end: what the
/// session opens is closed at its end. If an allocation fails before the first request is read,
/// nothing is read or written.
///
/// The stacks log when the pair begins to be served and how it ended, both with `number`.
pub fn serve_at<H: Holds + Drop, S: Stacks + Drop, I: Read, O: Write>(
    alloc: Global,
    drives: DriveTable<H, S>,
    seat: H::Seat,
    number: u64,
    input: &mut Counted<I>,
    output: &mut Counted<O>,
) -> (H::Seat, S)
    requires own { H.belongs drives.holds seat }
    requires idle { HoldsJust (H.shows seat) None }
    requires enough { S.drives drives.stacks ≤ H.drives drives.holds }
    ensures { GivesBack (kinds H.Holds S.Stacks S.Reel.Reel) I.Read O.Write (idle input.old output.old drives seat)
        (streams input.new output.new) result }
{
    let is_idle = Cell::new(false);
    serve_timed(alloc, drives, seat, number, input, output, &is_idle)
}

/// Like `serve_at`. If a read or a write fails because it waited for too long, the caller's streams
/// set `is_idle`, and the log line says `idle`.
pub(crate) fn serve_timed<H: Holds + Drop, S: Stacks + Drop, I: Read, O: Write>(
    alloc: Global,
    drives: DriveTable<H, S>,
    seat: H::Seat,
    number: u64,
    input: &mut Counted<I>,
    output: &mut Counted<O>,
    is_idle: &Cell<bool>,
) -> (H::Seat, S)
    requires own { H.belongs drives.holds seat }
    requires idle { HoldsJust (H.shows seat) None }
    requires enough { S.drives drives.stacks ≤ H.drives drives.holds }
    ensures { GivesBack (kinds H.Holds S.Stacks S.Reel.Reel) I.Read O.Write (idle input.old output.old drives seat)
        (streams input.new output.new) result }
{
    let mut drives = drives;
    let begun = text_of(format_args!("connection {number}: served"));
    drives.stacks.note(begun.as_str());
    let (seat, ending) = serve_afresh(alloc, &mut drives, seat, input, output);
    let ended = Ended {
        number,
        ending,
        is_idle: is_idle.get(),
    };
    drives.stacks.note(text_of(ended).as_str());
    (seat, drives.stacks)
}

pub(crate) fn serve_afresh<H: Holds, S: Stacks, I: Read, O: Write>(
    alloc: Global,
    drives: &mut DriveTable<H, S>,
    seat: H::Seat,
    input: &mut Counted<I>,
    output: &mut Counted<O>,
) -> (H::Seat, Result<Served, SessionFault>)
    requires own { H.belongs drives.old.holds seat }
    requires idle { HoldsJust (H.shows seat) None }
    requires enough { S.drives drives.old.stacks ≤ H.drives drives.old.holds }
    ensures { ServesAfresh (kinds H.Holds S.Stacks S.Reel.Reel) I.Read O.Write (idle input.old output.old drives.old seat)
        (idle input.new output.new drives.new result.0) result.1 }
{
    let Ok(mut wire) = RequestReader::new(alloc) else {
        return (seat, Err(SessionFault::OutOfMemory));
    };
    let mut session = match Session::new(alloc, seat) {
        Ok(session) => session,
        Err((seat, _)) => return (seat, Err(SessionFault::OutOfMemory)),
    };
    let ending = serve(input, output, &mut wire, &mut session, drives);
    (session.into_seat(), ending.map_err(SessionFault::Stream))
}
