//! Opens and closes a drive.
ghost use Rattle.std.specs.Prelude.{◌≡◌, ℕ, ◌<◌, Some, None, IfOk};
ghost use Rattle.drives.specs.Calls.{stacks_kind};
ghost use Rattle.drives.specs.Stacking.{HasLatched};
ghost use Rattle.drives.specs.Opening.{kinds};
ghost use Rattle.rmt_server.specs.Access.{access_of};
ghost use Rattle.rmt_server.specs.State.{state, IsAt, online_in};
ghost use Rattle.rmt_server.specs.Replies.{number_reply};
ghost use Rattle.rmt_server.specs.Opening.{LaysBack, IsClosed, Closes, OpensFor, OpensDevice};

use crate::access::Access;
use crate::refusal::Refusal;
use crate::session::{Opened, SessionState};
use drives::{DriveTable, Holds, OpenRefusal, Stacks};
use tape::Reel;

/// Rewinds the reel and lays it on its stack. Does nothing if the reel is in the bin.
fn put_back<S: Stacks>(stacks: &mut S, drive: usize, reel: Option<S::Reel>)
    requires drive { drive < S.drives stacks.old }
    requires latched { (d : ℕ) → online_in drive reel ≡ Some d → HasLatched S.holds stacks.old d }
    ensures { LaysBack (stacks_kind S.holds S.drives S.failures S.can_fail S.makes) S.Reel.Reel stacks.old drive reel stacks.new }
{
    if let Some(mut reel) = reel {
        reel.rewind();
        stacks.unlatch(drive, reel);
    }
}

/// Closes what is open, if anything.
pub(crate) fn close<H: Holds, S: Stacks>(
    drives: &mut DriveTable<H, S>,
    session_state: &mut SessionState<H::Seat, S::Reel>,
)
    requires { IsAt (kinds H.Holds S.Stacks S.Reel.Reel) (state drives.old session_state.old) }
    ensures { IsClosed (kinds H.Holds S.Stacks S.Reel.Reel) (state drives.old session_state.old) (state drives.new session_state.new) }
{
    let Some(device) = session_state.opened.take() else {
        return;
    };
    let Opened { drive, reel, .. } = device;
    put_back(&mut drives.stacks, drive, reel);
    drives.holds.give(&mut session_state.seat, drive);
}

pub(crate) fn close_opened<H: Holds, S: Stacks>(
    drives: &mut DriveTable<H, S>,
    session_state: &mut SessionState<H::Seat, S::Reel>,
) -> Result<u32, Refusal>
    requires { IsAt (kinds H.Holds S.Stacks S.Reel.Reel) (state drives.old session_state.old) }
    ensures closes { Closes (kinds H.Holds S.Stacks S.Reel.Reel) (state drives.old session_state.old) (number_reply result)
        (state drives.new session_state.new) }
    ensures number { IfOk result (λ n. n ≡ 0) }
{
    if session_state.opened.is_none() {
        return Err(Refusal::BadDescriptor);
    }
    close(drives, session_state);
    Ok(0)
}

/// Opens the drive with that name. The stacks log why an open is refused.
fn open_named<H: Holds, S: Stacks>(
    drives: &mut DriveTable<H, S>,
    session_state: &mut SessionState<H::Seat, S::Reel>,
    device: &[u8],
    mode: u32,
) -> Result<u32, Refusal>
    requires at { IsAt (kinds H.Holds S.Stacks S.Reel.Reel) (state drives.old session_state.old) }
    requires nothing { session_state.old.opened ≡ None }
    ensures opens { OpensFor (kinds H.Holds S.Stacks S.Reel.Reel) (state drives.old session_state.old) device.now (access_of mode)
        (number_reply result) (state drives.new session_state.new) }
    ensures number { IfOk result (λ n. n ≡ 0) }
{
    let Some(access) = Access::of(mode) else {
        drives
            .stacks
            .note_refused(device, OpenRefusal::BadMode(mode));
        return Err(Refusal::Invalid);
    };
    match drives.open(&mut session_state.seat, device) {
        Ok((drive, reel)) => {
            session_state.opened = Some(Opened {
                drive,
                access,
                reel: Some(reel),
            });
            Ok(0)
        }
        Err(fault) => {
            drives
                .stacks
                .note_refused(device, OpenRefusal::Drive(fault));
            Err(Refusal::of_drive(fault))
        }
    }
}

pub(crate) fn open<H: Holds, S: Stacks>(
    drives: &mut DriveTable<H, S>,
    session_state: &mut SessionState<H::Seat, S::Reel>,
    device: &[u8],
    mode: u32,
) -> Result<u32, Refusal>
    requires { IsAt (kinds H.Holds S.Stacks S.Reel.Reel) (state drives.old session_state.old) }
    ensures opens { OpensDevice (kinds H.Holds S.Stacks S.Reel.Reel) (state drives.old session_state.old) device.now mode (number_reply result)
        (state drives.new session_state.new) }
    ensures number { IfOk result (λ n. n ≡ 0) }
{
    close(drives, session_state);
    open_named(drives, session_state, device, mode)
}
