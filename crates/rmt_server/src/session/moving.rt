//! Moves the open reel to the bin.
ghost use Rattle.std.specs.Prelude.{◌≡◌, ℕ, ◌<◌, Some, IfOk};
ghost use Rattle.drives.specs.Stacking.{HasLatched};
ghost use Rattle.drives.specs.Opening.{kinds};
ghost use Rattle.rmt_server.specs.State.{seated_at, drive_of, online_drive};
ghost use Rattle.rmt_server.specs.Replies.{number_reply};
ghost use Rattle.rmt_server.specs.Moving.{MovesOff};

use crate::refusal::Refusal;
use crate::session::Opened;
use drives::{DriveTable, Holds, Stacks};
use tape::Reel;

/// Rewinds the open reel, moves it to the bin, and returns `count`. The drive stays held. If the
/// move fails, the reel stays open, at its beginning.
pub(crate) fn take_offline<H: Holds, S: Stacks>(
    drives: &mut DriveTable<H, S>,
    opened: &mut Option<Opened<S::Reel>>,
    count: u32,
) -> Result<u32, Refusal>
    requires below { (d : ℕ) → drive_of opened.old ≡ Some d → d < S.drives drives.old.stacks }
    requires latched { (d : ℕ) → online_drive opened.old ≡ Some d → HasLatched S.holds drives.old.stacks d }
    ensures moves { (seat : H.Seat) → MovesOff (kinds H.Holds S.Stacks S.Reel.Reel) (seated_at drives.old seat opened.old) 6 count
        (number_reply result) (seated_at drives.new seat opened.new) }
    ensures number { IfOk result (λ n. n ≡ count) }
{
    let Some(device) = opened else {
        return Err(Refusal::BadDescriptor);
    };
    let Some(mut latched) = device.reel.take() else {
        return Err(Refusal::NotConfigured);
    };
    latched.rewind();
    match drives.stacks.offline(device.drive, latched) {
        Ok(()) => Ok(count),
        Err((reel, fault)) => {
            device.reel = Some(reel);
            Err(Refusal::of_drive(fault))
        }
    }
}
