//! One turn of a session, with an injected fault.
ghost use Rattle.std.specs.Prelude.{◌≡◌, ℕ, ◌+◌, ◌≤◌, List, length, vec_len, vec_capacity, false};
ghost use Rattle.rmt_wire.specs.Lent.{plain_request, plain_reply};
ghost use Rattle.rmt_wire.specs.Reply.{ReplyHasSpelling, reply_text};
ghost use Rattle.rmt_wire.specs.RequestReader.{Unread};
ghost use Rattle.rmt_wire.specs.declared.limits.TheConstants.{READER_LIMIT};
ghost use Rattle.tape.specs.declared.trouble.Trouble.TheVariants.{None as NoTrouble};
ghost use Rattle.rmt_server.specs.State.{state};
ghost use Rattle.rmt_server.specs.Replies.{IsSayable};
ghost use Rattle.rmt_server.specs.Memory.{MemoryState};
ghost use Rattle.rmt_server.specs.TroubledServe.{with_troubles, set_for};
ghost use Rattle.world_host.specs.Turns.{sent_back};
ghost use Rattle.world_host.specs.Hosting.{IsUntroubledAt, CarriesBack, TurnsSession, session_back};

use crate::turn::{Carried, Turn};
use drives::{DriveTable, ListStacks, LocalHolds};
use rmt_server::{Session, one_session_view, troubled_serve, troubles_set};
use rmt_wire::mtio::MTOFFL;
use rmt_wire::{Reply, Request, RequestReader, push_reply};
use tape::Trouble;

/// Returns the trouble to set for the open reel, and whether to set one for the stacks. An open and
/// MTOFFL meet it at the stacks, and a close nowhere.
fn place(trouble: Trouble, request: &Request<'_>) -> (Trouble, bool)
    ensures { (x : MemoryState) → set_for trouble (plain_request request.now) x ≡ with_troubles result.0 result.1 x }
{
    let stacks = (Trouble::None, !matches!(trouble, Trouble::None));
    match *request {
        Request::Open { .. } => stacks,
        Request::Op { op, .. } if op == MTOFFL => stacks,
        Request::Close => (Trouble::None, false),
        Request::Op { .. }
        | Request::Write { .. }
        | Request::WriteDropped { .. }
        | Request::Read { .. } => (trouble, false),
    }
}

fn set_troubles(
    session: &mut Session<LocalHolds, ListStacks>,
    drives: &mut DriveTable<LocalHolds, ListStacks>,
    reel: Trouble,
    stacks: bool,
)
    ensures { state drives.new session.new ≡ with_troubles reel stacks (state drives.old session.old) }
{
    session.trouble(reel);
    drives.stacks.trouble(stacks);
}

fn clear_troubles(
    session: &mut Session<LocalHolds, ListStacks>,
    drives: &mut DriveTable<LocalHolds, ListStacks>,
)
    ensures { state drives.new session.new ≡ with_troubles NoTrouble false (state drives.old session.old) }
{
    set_troubles(session, drives, Trouble::None, false);
}

fn send_back(back: &mut Vec<u8>, reply: &Reply<'_>, lost: bool)
    requires spelling { ReplyHasSpelling (plain_reply reply.now) }
    requires room { vec_len back.old + length (reply_text (plain_reply reply.now)) ≤ vec_capacity back.old }
    ensures { back.new.items ≡ sent_back lost back.old.items (reply_text (plain_reply reply.now)) }
{
    if lost {
        return;
    }
    let _ = push_reply(back, reply);
}

/// Carries out a request, whose device call meets this trouble. No trouble is set before it, and
/// none after it.
fn carry(
    session: &mut Session<LocalHolds, ListStacks>,
    drives: &mut DriveTable<LocalHolds, ListStacks>,
    trouble: Trouble,
    request: Request<'_>,
    back: &mut Vec<u8>,
    lost: bool,
) -> Carried
    requires untroubled { IsUntroubledAt (state drives.old session.old) }
    requires sayable { IsSayable (plain_request request) }
    requires room { vec_len back.old + READER_LIMIT ≤ vec_capacity back.old }
    ensures { CarriesBack trouble lost (state drives.old session.old) back.old.items (plain_request request.entry) result
        (state drives.new session.new) back.new.items }
{
    one_session_view();
    troubles_set();
    troubled_serve();
    let (reel, stacks) = place(trouble, &request);
    set_troubles(session, drives, reel, stacks);
    let reply = session.carry_out(drives, request);
    send_back(back, &reply, lost);
    let carried = Carried::new(&request, &reply);
    clear_troubles(session, drives);
    carried
}

/// Carries out the next request, if a whole one was pushed.
pub(crate) fn take_turn(
    reader: &mut RequestReader,
    session: &mut Session<LocalHolds, ListStacks>,
    drives: &mut DriveTable<LocalHolds, ListStacks>,
    trouble: Trouble,
    back: &mut Vec<u8>,
    lost: bool,
) -> Turn
    requires untroubled { IsUntroubledAt (state drives.old session.old) }
    requires readable { (bytes : List ℕ) × Unread reader.old bytes }
    requires room { vec_len back.old + READER_LIMIT ≤ vec_capacity back.old }
    ensures { TurnsSession trouble lost (session_back reader.old (state drives.old session.old) back.old.items) result
        (session_back reader.new (state drives.new session.new) back.new.items) }
{
    match reader.next() {
        Err(fault) => Turn::Broken(fault),
        Ok(None) => Turn::Nothing,
        Ok(Some(request)) => Turn::Carried(carry(session, drives, trouble, request, back, lost)),
    }
}
