//! Laws of sessions. Each function does nothing: its contract is the law.

ghost use Rattle.std.specs.Prelude.{◌≡◌, Bool};
ghost use Rattle.tape.specs.contracts.troubled.TroubledReelReel.TheImpl.{ghosts as of_reel};
ghost use Rattle.drives.specs.contracts.list.ListStacksStacks.TheImpl.{ghosts as of_stacks};
ghost use Rattle.drives.specs.contracts.local.LocalHoldsHolds.TheImpl.{ghosts as of_holds};
ghost use Rattle.drives.specs.ListLibrary.{library_of, IsLibrary, troubled_in};
ghost use Rattle.drives.specs.Opening.{kinds};
ghost use Rattle.rmt_wire.specs.Request.{PlainRequest};
ghost use Rattle.tape.specs.declared.trouble.Trouble.{Trouble};
ghost use Rattle.rmt_server.specs.Session.{SessionView};
ghost use Rattle.rmt_server.specs.State.{IsAt, HasView};
ghost use Rattle.rmt_server.specs.Memory.{MemoryState, in_memory, session_view_seen};
ghost use Rattle.rmt_server.specs.TroubledServe.{IsTroubled, with_troubles, set_for, IsSetFor};
ghost use Rattle.rmt_server.specs.Laws.{NoDriveIsOpenTwice, OthersStayAt, OpenIsHeld, FreeIsClosed, StaysAt, StaysAtElsewhere, StaysAtWithMoreSeats};
ghost use Rattle.rmt_server.specs.Laws.{StaysAtUnderTrouble, TroublesAreServed, TroubledIsServed, NoMemoryIsWanted, EndsUntroubled};

use drives::{Holds, Stacks, lying_troubles};
use tape::device_steps;

/// If one thread uses the drives, two sessions with different seats never have the same drive open,
/// even with its reel in the bin. If one session acts, the drives still match each other session.
pub fn one_holder<S: Stacks>()
    ensures one { NoDriveIsOpenTwice (kinds of_holds S.Stacks S.Reel.Reel) }
    ensures others { OthersStayAt (kinds of_holds S.Stacks S.Reel.Reel) }
{}

/// If one thread uses the drives, a session's seat holds the drive that the session has open, even
/// with its reel in the bin. A drive that no seat holds is therefore open in no session.
#[tactic(auto, using(crate::proofs::Sharing::open_held, crate::proofs::Sharing::free_closed))]
pub fn open_is_held<S: Stacks>()
    ensures held { OpenIsHeld (kinds of_holds S.Stacks S.Reel.Reel) }
    ensures free { FreeIsClosed (kinds of_holds S.Stacks S.Reel.Reel) }
{}

/// Drives still match a session after other sessions or an operator have acted on them, if three
/// conditions hold. The seat still belongs to the holds, the numbers of drives are unchanged, and
/// the reel of an online drive stays latched. For the third it is enough that reels stay latched at
/// all drives but one, which this session does not have open.
#[tactic(auto, using(crate::proofs::Sharing::still, crate::proofs::Sharing::still_elsewhere))]
pub fn still_at<H: Holds, S: Stacks>()
    ensures at { StaysAt (kinds H.Holds S.Stacks S.Reel.Reel) }
    ensures elsewhere { StaysAtElsewhere (kinds H.Holds S.Stacks S.Reel.Reel) }
{}

/// After more seat numbers were assigned, the drives of one thread still match a session that they
/// matched before.
#[tactic(auto, using(crate::proofs::Sharing::still_seated))]
pub fn more_seats<S: Stacks>()
    ensures { StaysAtWithMoreSeats (kinds of_holds S.Stacks S.Reel.Reel) }
{}

/// After a trouble of the stacks was set or cleared, drives in memory still match a session that
/// they matched before.
#[tactic(auto, using(crate::proofs::Sharing::still_troubled))]
pub fn stacks_trouble<H: Holds>()
    ensures { StaysAtUnderTrouble (kinds H.Holds of_stacks of_reel) }
{}

/// Stacks and reels in memory have exactly one session view, if no two reels have the same name.
#[tactic(auto, using(crate::proofs::Troubles::seen_told, crate::proofs::Troubles::seen_only))]
pub fn one_session_view()
    ensures told { (x : MemoryState) → IsLibrary x.drives.stacks (library_of x.drives.stacks) → HasView in_memory x (session_view_seen x) }
    ensures one { (x : MemoryState) (v : SessionView) → HasView in_memory x v → v ≡ session_view_seen x }
{}

/// The effect of one request on drives in memory under one trouble. The trouble is set on the
/// stacks before an open and operation 6 of mtio, and otherwise on the open reel. Before a close
/// none is set. No other trouble is set.
///
/// `TroubledServe` gives the reply, drives, session and holders. Afterwards no reel on the stacks
/// or in the bin has a trouble. The trouble of the open reel or of the stacks is still set, or a
/// device call met it. In the second case that call failed, the reply is error 5, and the trouble
/// is cleared.
pub fn troubled_serve()
    ensures { TroublesAreServed }
{
    lying_troubles();
}

/// Every effect that `troubled_serve` states is a serve step. An open and operation 6 of mtio never
/// run out of memory then, since stacks in memory allocate nothing for them.
#[tactic(auto, using(crate::proofs::TroubledSteps::serve_step, crate::proofs::TroubledSteps::none_wanted))]
pub fn troubled_is_served()
    ensures served { TroubledIsServed }
    ensures memory { NoMemoryIsWanted }
{
    device_steps();
}

/// After troubles of the open reel and of the stacks are set or cleared, drives in memory still
/// match a session that they matched before. The session view is unchanged. If no reel on the
/// stacks or in the bin has a trouble, the troubles are then set as `troubled_serve` requires.
#[tactic(auto, using(crate::proofs::Troubles::troubles_at, crate::proofs::Troubles::troubles_told, crate::proofs::Troubles::troubles_are_set, crate::proofs::Troubles::request_set))]
pub fn troubles_set()
    ensures at { (reel : Trouble) (stacks : Bool) (x : MemoryState) → IsAt in_memory x → IsAt in_memory (with_troubles reel stacks x) }
    ensures told { (reel : Trouble) (stacks : Bool) (x : MemoryState) (v : SessionView) →
        HasView in_memory x v → HasView in_memory (with_troubles reel stacks x) v }
    ensures set { (reel : Trouble) (stacks : Bool) (x : MemoryState) → troubled_in x.drives.stacks.library ≡ 0 →
        IsTroubled reel stacks (with_troubles reel stacks x) }
    ensures request { (trouble : Trouble) (request : PlainRequest) (x : MemoryState) → troubled_in x.drives.stacks.library ≡ 0 →
        IsSetFor trouble request (set_for trouble request x) }
{}

/// If no reel has a trouble, the end of a session in memory lays the open reel back on its stack
/// and frees the drive. Afterwards no reel on the stacks or in the bin has a trouble.
pub fn untroubled_end()
    ensures { EndsUntroubled }
{
    lying_troubles();
}
