//! Carries out each request, given the parts of a session.
ghost use Rattle.std.specs.Prelude.{◌≡◌, ◌≤◌, ℕ, List, length, IfOk};
ghost use Rattle.rmt_wire.specs.declared.limits.TheConstants.{RECORD_LIMIT};
ghost use Rattle.rmt_wire.specs.Lent.{plain_request};
ghost use Rattle.drives.specs.Opening.{kinds};
ghost use Rattle.rmt_server.specs.Session.{is_offline};
ghost use Rattle.rmt_server.specs.State.{state, IsAt};
ghost use Rattle.rmt_server.specs.Replies.{number_reply, data_reply, outcome_reply, IsWithinBuffer, IsSayable, IsOutcomeSayable};
ghost use Rattle.rmt_server.specs.Carrying.{Operates, CarriesOut};

use crate::refusal::Refusal;
use crate::session::{SessionState, moving, opening, serving};
use drives::{DriveTable, Holds, Stacks};
use rmt_wire::Request;
use rmt_wire::mtio::MTOFFL;

/// The result of a request that succeeded.
#[derive(Clone, Copy)]
pub(crate) enum Given {
    /// The request is done, and the reply has this number.
    Number(u32),
    /// This many bytes were read into the buffer.
    Bytes(usize),
}

fn operate<H: Holds, S: Stacks>(
    drives: &mut DriveTable<H, S>,
    session_state: &mut SessionState<H::Seat, S::Reel>,
    op: u32,
    count: u32,
) -> Result<u32, Refusal>
    requires { IsAt (kinds H.Holds S.Stacks S.Reel.Reel) (state drives.old session_state.old) }
    ensures operates { Operates (kinds H.Holds S.Stacks S.Reel.Reel) (is_offline op) (state drives.old session_state.old) op count
        (number_reply result) (state drives.new session_state.new) }
    ensures number { IfOk result (λ n. n ≡ count) }
{
    if op == MTOFFL {
        moving::take_offline(drives, &mut session_state.opened, count)
    } else {
        serving::operate(&mut session_state.opened, op, count)
    }
}

/// Carries out a request. The bytes of a read are put into the buffer.
pub(crate) fn dispatch<H: Holds, S: Stacks>(
    drives: &mut DriveTable<H, S>,
    session_state: &mut SessionState<H::Seat, S::Reel>,
    buffer: &mut [u8],
    request: Request<'_>,
) -> Result<Given, Refusal>
    requires at { IsAt (kinds H.Holds S.Stacks S.Reel.Reel) (state drives.old session_state.old) }
    requires room { length buffer.old ≡ RECORD_LIMIT }
    ensures carried { CarriesOut (kinds H.Holds S.Stacks S.Reel.Reel) (state drives.old session_state.old) (plain_request request.entry)
        (outcome_reply result buffer.new) (state drives.new session_state.new) }
    ensures small { IsSayable (plain_request request.entry) → IsOutcomeSayable result }
    ensures within { IsWithinBuffer result buffer.new }
{
    match request {
        Request::Open { device, mode } => numbered(opening::open(
            drives,
            session_state,
            device,
            mode,
        )),
        Request::Close => numbered(opening::close_opened(drives, session_state)),
        Request::Write { bytes } => numbered(serving::write(&mut session_state.opened, bytes)),
        Request::WriteDropped { .. } => Err(serving::refuse_dropped(&session_state.opened)),
        Request::Read { count } => filled(serving::read(&mut session_state.opened, buffer, count)),
        Request::Op { op, count } => numbered(operate(drives, session_state, op, count)),
    }
}

fn numbered(given: Result<u32, Refusal>) -> Result<Given, Refusal>
    ensures reply { (buffer : List ℕ) → outcome_reply result buffer ≡ number_reply given }
    ensures small { IfOk given (λ n. n ≤ 2147483647) → IsOutcomeSayable result }
    ensures within { (buffer : List ℕ) → IsWithinBuffer result buffer }
{
    match given {
        Ok(number) => Ok(Given::Number(number)),
        Err(refusal) => Err(refusal),
    }
}

fn filled(read: Result<usize, Refusal>) -> Result<Given, Refusal>
    ensures reply { (buffer : List ℕ) → outcome_reply result buffer ≡ data_reply read buffer }
    ensures small { IsOutcomeSayable result }
    ensures within { (buffer : List ℕ) → IfOk read (λ n. n ≤ length buffer) → IsWithinBuffer result buffer }
{
    match read {
        Ok(count) => Ok(Given::Bytes(count)),
        Err(refusal) => Err(refusal),
    }
}
