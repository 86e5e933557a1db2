//! The session of one client: what it has open, and its replies.
ghost use Rattle.std.specs.Prelude.{◌≡◌, ◌≤◌, length, Ok, Err, IfOk};
ghost use Rattle.rmt_wire.specs.Lent.{plain_request, plain_reply};
ghost use Rattle.rmt_wire.specs.Reply.{ReplyHasSpelling, reply_text};
ghost use Rattle.rmt_wire.specs.declared.limits.TheConstants.{READER_LIMIT};

mod dispatch;
mod moving;
mod opening;
mod serving;
mod session_state;
mod trouble;

use dispatch::{Given, dispatch};
use drives::{DriveTable, Holds, Stacks};
use rmt_wire::{RECORD_LIMIT, Reply, Request};
pub(crate) use session_state::{Opened, SessionState};
use std::alloc::{AllocError, Global};
use std::marker::Model;

/// The session of one client. It has nothing open, or a drive that its seat holds. The drive's reel
/// is open with it, unless the reel was moved to the bin. Contracts see the seat and what is open.
#[derive(Drop)]
pub struct Session<H: Holds, S: Stacks> {
    session_state: SessionState<H::Seat, S::Reel>,
    buffer: Vec<u8>,
}

impl<H: Holds, S: Stacks> Model for Session<H, S> {
    ghost use Rattle.std.specs.Prelude.{◌≡◌, length};
    ghost use Rattle.rmt_wire.specs.declared.limits.TheConstants.{RECORD_LIMIT};
    ghost use Rattle.rmt_server.specs.declared.session.session_state.SessionState.{SessionState};

    ghost Value = { SessionState H.Seat S.Reel };

    ghost view = { λ s. s.session_state };

    ghost invariant = { λ s. length s.buffer.items ≡ RECORD_LIMIT };
}

impl<H: Holds, S: Stacks> Session<H, S> {
    ghost use Rattle.std.specs.Prelude.{MatchResult, MatchOption, None};
    ghost use Rattle.std.specs.Borrow.{sem};
    ghost use Rattle.drives.specs.Holding.{HoldsJust};
    ghost use Rattle.drives.specs.Opening.{kinds};
    ghost use Rattle.rmt_server.specs.State.{state, IsAt, FitsItsDrives, IsOnline, online_drive};
    ghost use Rattle.rmt_server.specs.Replies.{IsSayable};
    ghost use Rattle.rmt_server.specs.Opening.{IsClosed};
    ghost use Rattle.rmt_server.specs.Lending.{LendsReply};

    /// Returns a session with nothing open. The seat must hold no drive. It allocates 262,144
    /// bytes, the buffer for reads. If that fails, the error contains the seat.
    pub fn new(alloc: Global, seat: H::Seat) -> Result<Session<H, S>, (H::Seat, AllocError)>
        requires { HoldsJust (H.shows seat) None }
        ensures made { MatchResult result (λ s. s ≡ record { seat = seat; opened = None }) (λ refused. refused.0 ≡ seat) }
        ensures at { IfOk result (FitsItsDrives (kinds H.Holds S.Stacks S.Reel.Reel) seat) }
    {
        match Vec::from_elem(alloc, 0u8, RECORD_LIMIT) {
            Ok(buffer) => Ok(Session {
                session_state: SessionState { seat, opened: None },
                buffer,
            }),
            Err(error) => Err((seat, error)),
        }
    }

    /// Carries out a request and returns its reply (rmt(8), with the operations of mtio). The bytes
    /// of a read are borrowed until the next call. `drives` must match this session.
    ///
    /// An open first closes what is open. It then fails with the first of these errors that
    /// applies:
    /// - 22 if the mode modulo 4 is 3,
    /// - 2 if no drive has that name,
    /// - 16 if another seat holds the drive,
    /// - 6 if there is no reel on its stack,
    /// - 5 if the device failed,
    /// - 12 if an allocation failed.
    ///
    /// Every other request fails with the first of these errors that applies:
    /// - 9 if nothing is open,
    /// - 6 if the reel is in the bin, except for a close,
    /// - 9 for a write or a read without that access,
    /// - 22 for an operation above 7,
    /// - 13 for marks without the access to write,
    /// - 22 for a count of a write or read that is 0 or, for a write, above 262,144,
    /// - 28 for marks without room (a write without room is no error: its reply has the number 0),
    /// - 12 if an allocation failed,
    /// - 5 if the device failed,
    /// - 5 if spacing first met a mark, the end or the beginning,
    /// - 5 if the bin has a reel with the name of the one that operation 6 is to move.
    ///
    /// A latch, a move or a call of the reel that fails is not tried again. Operation 6 rewinds the
    /// reel and moves it to the bin. The drive stays open and held. If the move fails, the reel
    /// stays on its stack, open and at its beginning.
    ///
    /// A read returns at most 262,144 bytes, whatever its count. A reply without an error has 0 for
    /// an open or a close, and the count for a write or an operation. For a read it has the bytes.
    pub fn carry_out(&mut self, drives: &mut DriveTable<H, S>, request: Request<'_>) -> Reply<'_>
        requires { IsAt (kinds H.Holds S.Stacks S.Reel.Reel) (state drives.old self.old) }
        // Checks come in the order above, and the first that fails is the reply. `IsCarriedOut`
        // says field by field what changes.
        ensures* rests { sem 𝓛 (LendsReply H.row S.row H.Seat.row S.Reel.row H.Holds S.Stacks S.Reel.Reel self.entry
            drives.old drives.new request.entry result) }
        ensures spelling { IsSayable (plain_request request.entry) → ReplyHasSpelling (plain_reply result) }
        ensures short { IsSayable (plain_request request.entry) → length (reply_text (plain_reply result)) ≤ READER_LIMIT }
    {
        let outcome = dispatch(
            drives,
            &mut self.session_state,
            self.buffer.as_mut_slice(),
            request,
        );
        match outcome {
            Ok(Given::Number(number)) => Reply::Done { number },
            Ok(Given::Bytes(count)) => Reply::Data {
                bytes: &self.buffer.as_slice()[..count],
            },
            Err(refusal) => refusal.reply(),
        }
    }

    /// Ends the session: closes what it has open, so that its seat holds no drive. `drives` must
    /// match this session.
    pub fn end(&mut self, drives: &mut DriveTable<H, S>)
        requires { IsAt (kinds H.Holds S.Stacks S.Reel.Reel) (state drives.old self.old) }
        ensures { IsClosed (kinds H.Holds S.Stacks S.Reel.Reel) (state drives.old self.old) (state drives.new self.new) }
    {
        opening::close(drives, &mut self.session_state);
    }

    /// Returns the seat of a session that has nothing open, for another session.
    pub fn into_seat(self) -> H::Seat
        requires { self.opened ≡ None }
        ensures { result ≡ self.seat }
    {
        self.session_state.seat
    }

    /// Returns the number of the open drive, and the open reel. Returns `None` if nothing is open
    /// or the reel is in the bin.
    pub fn reel(&self) -> Option<(usize, &S::Reel)>
        ensures { MatchOption result (online_drive self.now.opened ≡ None) (λ told. IsOnline self.now.opened told.0 told.1.now) }
    {
        let device = self.session_state.opened.as_ref()?;
        let reel = device.reel.as_ref()?;
        Some((device.drive, reel))
    }
}
