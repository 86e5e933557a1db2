//! The server's side of a connection in memory.
ghost use Rattle.std.specs.Prelude.{◌≡◌, ◌≤◌, None, IfSome, IsTrue, length};
ghost use Rattle.rmt_wire.specs.Lent.{plain_request};
ghost use Rattle.rmt_server.specs.Memory.{in_memory};
ghost use Rattle.rmt_server.specs.Opening.{IsClosed};
ghost use Rattle.rmt_server.specs.State.{state, IsAt};
ghost use Rattle.rmt_server.specs.Replies.{IsSayable};
ghost use Rattle.rmt_tools.specs.Telling.{IsAfterEnd, IsCleared, IsMadeWith};

use drives::{DriveTable, ListStacks, LocalHolds};
use rmt_server::{Session, more_seats};
use rmt_wire::{NUMBER_LIMIT, Request, RequestReader, push_reply};
use std::alloc::{AllocError, Global};

type Drives = DriveTable<LocalHolds, ListStacks>;

type Server = Session<LocalHolds, ListStacks>;

/// The drives with one session, and the reader of its requests.
#[derive(Drop)]
pub(super) struct FarEnd {
    alloc: Global,
    pub(super) drives: Drives,
    wire: RequestReader,
    session: Server,
    ghost at: { IsAt in_memory (state drives session) },
}

impl FarEnd {
    /// Starts a session with nothing open at these drives. Returns None if an allocation fails, or
    /// if no number is left for a session.
    pub(super) fn new(alloc: Global, mut drives: Drives) -> Option<FarEnd>
        requires { length drives.stacks.library.drives ≤ length drives.holds.numbers }
        ensures { IfSome result (λ far. IsMadeWith drives far.drives far.session) }
    {
        let seat = drives.holds.seat()?;
        let session = Session::new(alloc, seat).ok()?;
        let wire = RequestReader::new(alloc).ok()?;
        Some(FarEnd {
            alloc,
            drives,
            wire,
            session,
        })
    }

    /// Ends the session, and starts another one with an empty reader. Returns None if an allocation
    /// fails, or if no number is left for a session.
    pub(super) fn renew(&mut self) -> Option<()>
        ensures fresh { self.new.session.opened ≡ None }
        ensures cleared { IsCleared self.old.drives self.old.session self.new.drives }
    {
        more_seats::<ListStacks>();
        self.end();
        self.wire = RequestReader::new(self.alloc).ok()?;
        let seat = self.drives.holds.seat()?;
        self.session = Session::new(self.alloc, seat).ok()?;
        Some(())
    }

    /// Takes bytes in, carries out each request that is whole, and appends the replies to `back`.
    /// Bytes that are no request end the session. Returns whether the session is still open.
    ///
    /// Fails if an allocation for a reply fails, or if no reply can have the count of an operation.
    pub(super) fn serve(&mut self, bytes: &[u8], back: &mut Vec<u8>) -> Result<bool, AllocError> {
        let goes_on = take_in(
            bytes,
            &mut self.wire,
            &mut self.session,
            &mut self.drives,
            back,
        )?;
        if !goes_on {
            self.end();
        }
        Ok(goes_on)
    }

    /// Ends the session; what is open is closed.
    pub(super) fn end(&mut self)
        ensures { IsClosed in_memory (state self.old.drives self.old.session) (state self.new.drives self.new.session) }
    {
        self.session.end(&mut self.drives);
    }

    pub(super) fn into_drives(mut self) -> Drives
        ensures apart { IsAfterEnd self.drives self.session result }
        ensures enough { length result.stacks.library.drives ≤ length result.holds.numbers }
    {
        self.end();
        let FarEnd { drives, .. } = self;
        drives
    }
}

/// Takes bytes in, and carries out each request that is whole. Returns false if the bytes are no
/// request, so that no more can follow.
fn take_in(
    bytes: &[u8],
    wire: &mut RequestReader,
    session: &mut Server,
    drives: &mut Drives,
    back: &mut Vec<u8>,
) -> Result<bool, AllocError>
    requires { IsAt in_memory (state drives.old session.old) }
    ensures { IsAt in_memory (state drives.new session.new) }
{
    let mut rest = bytes;
    while !rest.is_empty() {
        let count = wire.push(rest).min(rest.len());
        if count == 0 || !carry_all(wire, session, drives, back)? {
            return Ok(false);
        }
        rest = &rest[count..];
    }
    Ok(true)
}

/// Carries out each whole request that the reader holds. Returns false as `take_in` does.
fn carry_all(
    wire: &mut RequestReader,
    session: &mut Server,
    drives: &mut Drives,
    back: &mut Vec<u8>,
) -> Result<bool, AllocError>
    requires { IsAt in_memory (state drives.old session.old) }
    ensures { IsAt in_memory (state drives.new session.new) }
{
    loop {
        match wire.next() {
            Err(_) => return Ok(false),
            Ok(None) => return Ok(true),
            Ok(Some(request)) => carry(request, session, drives, back)?,
        }
    }
}

/// Carries out a request, and appends the reply. Fails if an allocation fails, or if no reply can
/// have the request's count.
fn carry(
    request: Request<'_>,
    session: &mut Server,
    drives: &mut Drives,
    back: &mut Vec<u8>,
) -> Result<(), AllocError>
    requires { IsAt in_memory (state drives.old session.old) }
    ensures { IsAt in_memory (state drives.new session.new) }
{
    if !fits_reply(&request) {
        return Err(AllocError);
    }
    let reply = session.carry_out(drives, request);
    push_reply(back, &reply)
}

/// Whether a reply can have the count of the request's operation.
fn fits_reply(request: &Request<'_>) -> bool
    ensures { IsTrue result → IsSayable (plain_request request.now) }
{
    match request {
        Request::Op { count, .. } => *count <= NUMBER_LIMIT,
        _ => true,
    }
}
