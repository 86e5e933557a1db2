//! Laws: everything that each event preserves, and the effect of one request.

ghost use Rattle.std.specs.Prelude.{◌≡◌, ◌⊎◌, ℕ, List, ◌++◌};
ghost use Rattle.rmt_wire.specs.Request.{PlainRequest};
ghost use Rattle.tape.specs.declared.trouble.Trouble.{Trouble};
ghost use Rattle.world_model.specs.World.{World, AttemptState, Count};
ghost use Rattle.world_model.specs.Changes.{HasDump, with_no_failure, ended_at};
ghost use Rattle.world_model.specs.Events.{PlainEvent};
ghost use Rattle.world_model.specs.Events.PlainEvent.{Serve};
ghost use Rattle.world_model.specs.Rows.{Possible};
ghost use Rattle.world_model.specs.Steps.{Runs, Happens};
ghost use Rattle.world_model.specs.First.{PlainDriveSpec, AreGoodDrives, first_world, IsReached};
ghost use Rattle.world_model.specs.Headline.{Headline, CountedReels, IsNotReopened, NoTwoHolders, DumpdatesGained};
ghost use Rattle.world_model.specs.Sums.{CountedSums};
ghost use Rattle.world_model.specs.Restores.{DumpsComeBack};
ghost use Rattle.world_model.specs.Written.{IsAlone};
ghost use Rattle.world_model.specs.Further.{SentRequests, LatchedReels, ReelsNotReopened, OwnOpens, LabelledReels, ClientsCounts, CountsGrow};
ghost use Rattle.world_model.specs.Standing.{AreHeld};
ghost use Rattle.world_model.specs.Kept.{IsWorldKept};
ghost use Rattle.world_model.specs.Naming.{SameNames, IsUnopenedSince};
ghost use Rattle.world_model.specs.Talk.{Talks, IsBeginning};
ghost use Rattle.world_model.specs.Serving.{ServerTurn, IsNextSent, Meets, OthersStay, IsMoveDone, IsWholeInBin};

use dump_client::same_run;
use restore::what_was_dumped_comes_back;
use rmt_wire::{dropped_writes, one_reading, one_reply, one_reply_reading};

/// Two lists of events, one after the other, lead to the same world as the joined list.
///
/// Does nothing: its contract is a law of the definitions.
#[tactic(auto, using(crate::proofs::Runs::run_on))]
pub fn one_run()
    ensures { (first before after : World) (events more : List PlainEvent) →
        Runs first events before → Runs before more after → Runs first (events ++ more) after }
{}

/// States what is true in each world, whatever events led to it.
///
/// Drives are *good* if there are 1 to 64, no two drives have the same name, and no two reels have
/// the same name. The first world of good drives satisfies the invariant `IsWorldKept`, and each
/// event preserves it. Each possible event leads to at least one next world (`steps`). No event
/// adds or removes the name of a reel (`names`).
///
/// The *headline* is the main result. Its three statements are also clauses:
///
/// - `counted_reels`: Each counted reel still exists. If no foreign session reopened it, it holds
///   exactly the counted volume: the label, one record for each counted block, and one mark.
/// - `no_two_holders`: No two sessions have the same drive open.
/// - `dumpdates_gained`: Dumpdates has exactly the entries of the runs that were entered, and none
///   was entered twice. When a run was entered, the volumes in the client's list had all its
///   blocks, in order, and the history has a count of each.
///
/// These facts hold beside the headline:
///
/// - `holders`: The *holder* of a drive is the connection whose session has the drive open, with a
///   reel or without.
/// - `reels_not_reopened`: If no foreign session reopened a counted reel, only the count's own
///   session has written on it since that session opened it.
/// - `unopened`, `unwritten`: If nobody opened a reel for writing after a session did, no other
///   session has written on it since. If it was counted in this session, no foreign session
///   reopened it.
/// - `own_opens`: Until the client counts the volume of its attempt, the attempt's session is not
///   foreign to the count of any volume in its list.
/// - `labelled_reels`: Once its label is accepted, an attempt's reel holds exactly what the
///   attempt's accepted writes wrote. This ends if one of its writes meets a device fault, or
///   another session writes on the reel. Until the attempt's MTOFFL is carried out, the reel is
///   positioned at its end while the attempt's session has it in its drive.
/// - `counted_sums`: A counted reel that no foreign session reopened has the sum of the counted
///   volume.
/// - `dumps_come_back`: What was dumped comes back. A *shelf* is a list of reels, each as the bytes
///   of a record file. Let the shelf have, for each volume of a run that was entered, a counted
///   reel that no foreign session reopened. A catalog, if one is given, must have a line in force
///   with the label and the sum of each of these volumes. If this run is wanted, and its payload
///   has at least the wanted length, whatever `restore` can restore is the beginning of this
///   payload that has that length.
/// - `sent_requests`, `requests`, `talks`: On each of its connections, the client's requests are
///   carried out in the order in which they were sent: all of them, or all but the last.
/// - `latched_reels`: A reel is *latched* while a session has it in its drive. It is then the first
///   on that drive's stack, and no other session has it.
/// - `clients_counts`, `counts_grow`: Each volume in the client's list was counted under the number
///   of its run. Counts are added only when bytes reach the client, and are then exactly those that
///   its list gets. This is also true after a restart with a saved list.
///
/// Does nothing: its contract is a law of the definitions.
pub fn kept()
    ensures first { (drives : List PlainDriveSpec) → AreGoodDrives drives → IsWorldKept (first_world drives) }
    ensures after { (w u : World) (event : PlainEvent) → IsWorldKept w → Happens w event u → IsWorldKept u }
    ensures runs { (drives : List PlainDriveSpec) (events : List PlainEvent) (w : World) → AreGoodDrives drives →
        Runs (first_world drives) events w → IsWorldKept w }
    ensures reached { (w : World) → IsReached w → IsWorldKept w }
    ensures steps { (w : World) (event : PlainEvent) → IsWorldKept w → Possible w event → (u : World) × Happens w event u }
    ensures names { (w u : World) (event : PlainEvent) → IsWorldKept w → Happens w event u → SameNames w.server.library u.server.library }
    ensures headline { (w : World) → IsWorldKept w → Headline w }
    ensures holders { (w : World) → IsWorldKept w → AreHeld w.server }
    ensures no_two_holders { (w : World) → IsWorldKept w → NoTwoHolders w }
    ensures reels_not_reopened { (w : World) → IsWorldKept w → ReelsNotReopened w }
    ensures unopened { (w : World) (x : Count) → IsUnopenedSince w.opens x.connection x.reel → IsNotReopened w x }
    ensures unwritten { (w : World) (k : ℕ) (reel : List ℕ) → IsWorldKept w → IsUnopenedSince w.opens k reel → IsAlone w k reel }
    ensures own_opens { (w : World) → IsWorldKept w → OwnOpens w }
    ensures labelled_reels { (w : World) → IsWorldKept w → LabelledReels w }
    ensures counted_reels { (w : World) → IsWorldKept w → CountedReels w }
    ensures counted_sums { (w : World) → IsWorldKept w → CountedSums w }
    ensures dumpdates_gained { (w : World) → IsWorldKept w → DumpdatesGained w }
    ensures dumps_come_back { (w : World) → IsWorldKept w → DumpsComeBack w }
    ensures sent_requests { (w : World) → IsWorldKept w → SentRequests w }
    ensures requests { (drives : List PlainDriveSpec) (events : List PlainEvent) (w : World) (k : ℕ) (sent carried : List PlainRequest) →
        AreGoodDrives drives → Talks k (first_world drives) events w sent carried → IsBeginning w k sent carried }
    ensures talks { (first w : World) (events : List PlainEvent) (k : ℕ) → Runs first events w →
        (sent : List PlainRequest) × (carried : List PlainRequest) × Talks k first events w sent carried }
    ensures latched_reels { (w : World) → IsWorldKept w → LatchedReels w }
    ensures clients_counts { (w : World) → IsWorldKept w → ClientsCounts w }
    ensures counts_grow { (w u : World) (event : PlainEvent) → Happens w event u → CountsGrow w event u }
{
    same_run();
    one_reading();
    dropped_writes();
    one_reply();
    one_reply_reading();
    what_was_dumped_comes_back();
}

/// States what happens when the server carries out one request, in a world that satisfies
/// `IsWorldKept`. The event `Serve` carries out one request, or ends the server's side of the
/// connection (`carries`).
///
/// On one of the client's connections, it is the one request that was sent and not carried out
/// (`next_request`). A request of any session, also of one whose client is gone, has one of three
/// outcomes (`stale_requests`):
///
/// - `refusal`: It is refused. Drives, stacks, bin, reels, holders and session stay the same,
///   except that a refused open closes what the session had open.
/// - `own`: It meets the drive that this session still holds. It can change only that drive, and
///   add reels at the end of the bin.
/// - `free`: It closes what the session had open, and opens a drive that then has no holder. It can
///   change the stack of this drive, and add reels at the end of the bin.
///
/// It changes no drive that another session has open. Once an MTOFFL of a client's session is done,
/// the reel is in the bin with its whole volume, even if the reply never arrives
/// (`whole_at_the_move`).
///
/// Does nothing: its contract is a law of the definitions.
pub fn one_request()
    ensures carries { (w u : World) (k : ℕ) (trouble : Trouble) → Happens w (Serve k trouble) u →
        ServerTurn w k trouble u ⊎ (u ≡ ended_at (with_no_failure w) k) }
    ensures next_request { (w u : World) (k : ℕ) (t : Trouble) (c : ServerTurn w k t u) (d : AttemptState) →
        IsWorldKept w → HasDump w k d → IsNextSent w d c.request }
    ensures stale_requests { (w u : World) (k : ℕ) (trouble : Trouble) (c : ServerTurn w k trouble u) → IsWorldKept w →
        Meets w k c.s.session c.request c.reply u c.session }
    ensures others_stay { (w u : World) (k : ℕ) (trouble : Trouble) (c : ServerTurn w k trouble u) → IsWorldKept w → OthersStay w k u }
    ensures whole_at_the_move { (w u : World) (k : ℕ) (t : Trouble) (c : ServerTurn w k t u) (d : AttemptState) →
        IsWorldKept w → HasDump w k d → IsMoveDone c.request c.reply → IsWholeInBin w k d u }
{
    one_reading();
    dropped_writes();
}
