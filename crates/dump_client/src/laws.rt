//! Laws of an attempt and its counts.

ghost use Rattle.std.specs.Prelude.{◌≡◌, ◌≢◌, ◌⊎◌, ◌↔◌, ℕ, ◌+◌, ◌≤◌, List, [], ◌++◌, length};
ghost use Rattle.rmt_wire.specs.Reply.{PlainReply, AnswersTo, data_length};
ghost use Rattle.rmt_wire.specs.Reply.PlainReply.{Error};
ghost use Rattle.rmt_wire.specs.Request.{PlainRequest, IsTextOf, request_text};
ghost use Rattle.rmt_wire.specs.declared.limits.TheConstants.{READER_LIMIT};
ghost use Rattle.dump_run.specs.Run.{PlainRun, IsRun};
ghost use Rattle.dump_run.specs.Counts.{AreVolumes};
ghost use Rattle.dump_run.specs.Checkpoint.{SpellsCheckpoint, HasResumeFault, checkpoint_text};
ghost use Rattle.dump_run.specs.declared.fault.ResumeFault.{ResumeFault};
ghost use Rattle.dump_run.specs.declared.fault.ResumeFault.TheVariants.{OutOfMemory};
ghost use Rattle.dump_run.specs.Label.{label_bytes};
ghost use Rattle.dump_client.specs.Script.{IsCount, steps_of, wanted_of};
ghost use Rattle.dump_client.specs.Position.{RepliesFollow, Received, IsWantedAt, CanBeHeard, IsFailure, FailsAsCounted, ShowsCounted, after_reply, outcome};
ghost use Rattle.dump_client.specs.Position.Received.{Noise, End};
ghost use Rattle.dump_client.specs.Standing.{Standing, Feeds, CutAt, IsOver};
ghost use Rattle.dump_client.specs.Client.{FeedsNext, IsShapedAs};
ghost use Rattle.dump_client.specs.Going.{GoesOnWith, AgreesWithProgress};
ghost use Rattle.dump_client.specs.declared.step.Step.{Step};
ghost use Rattle.dump_client.specs.Lawful.{IsLawful, StandsAt, sent_before, AsksAtCheckpoint, SendsNext, SendsLast};
ghost use Rattle.dump_client.specs.Replies.{GrantedOnTheWay, GrantedAtTheCount};
ghost use Rattle.dump_run.specs.declared.count.VolumeCount.{VolumeCount};
ghost use Rattle.dump_client.specs.declared.step.Step.TheVariants.{Open, Look, Close};
ghost use Rattle.dump_client.specs.declared.outcome.Outcome.TheVariants.{Fails, Ended};
ghost use Rattle.dump_client.specs.declared.stage.Progress.{Progress};
ghost use Rattle.dump_client.specs.declared.stage.Progress.TheVariants.{Failed};
ghost use Rattle.dump_client.specs.declared.fault.AttemptFault.{AttemptFault};
ghost use Rattle.dump_client.specs.declared.fault.AttemptFault.TheVariants.{Refused, Botched, ConnectionEnded, CountedReel};

use dump_run::one_checkpoint;

/// An attempt follows its script. Each wanted reply leads to the next request, the reply to MTOFFL
/// also to the count, and the reply to the close to the attempt's end. Any other reply fails the
/// attempt.
///
/// Before the close, a wanted reply with no more bytes than a label is of the kind that is awaited.
/// No reply of that kind has more bytes.
#[tactic(auto, using(crate::proofs::Follow::script_follows, crate::proofs::Follow::other_replies, crate::proofs::Follow::can_be_heard, crate::proofs::Follow::brief))]
pub fn wanted_replies()
    ensures next { (run : PlainRun) (counts : List VolumeCount) (first count : ℕ) → IsRun run → IsCount run first count →
        RepliesFollow run counts first (steps_of run first count) }
    ensures others { (run : PlainRun) (counts : List VolumeCount) (first : ℕ) (step : Step) (reply : PlainReply) →
        IsWantedAt run counts first step reply ⊎ IsFailure (after_reply run counts first step reply) }
    ensures heard { (run : PlainRun) (counts : List VolumeCount) (first : ℕ) (step : Step) (reply : PlainReply) →
        CanBeHeard run counts first step reply }
    ensures brief { (step : Step) (reply : PlainReply) → AnswersTo reply (wanted_of step) → data_length reply ≤ label_bytes }
{}

/// An attempt fails with `CountedReel` if and only if the look reads the label of a counted volume.
/// An error in reply to the look fails the attempt with `Refused`.
#[tactic(auto, using(crate::proofs::Reels::alone))]
pub fn counted_reels()
    ensures exactly { (run : PlainRun) (counts : List VolumeCount) (first volume : ℕ) (reply : PlainReply) → IsRun run →
        AreVolumes run 1 0 counts → FailsAsCounted run counts first volume reply ↔ ShowsCounted run counts volume reply }
    ensures stops { (run : PlainRun) (counts : List VolumeCount) (first volume : ℕ) (reply : PlainReply) →
        ShowsCounted run counts volume reply → IsFailure (after_reply run counts first Look reply) }
    ensures refused { (run : PlainRun) (counts : List VolumeCount) (first n : ℕ) (text : List ℕ) →
        after_reply run counts first Look (Error n text) ≡ Fails (Refused n) }
    ensures alone { (run : PlainRun) (counts : List VolumeCount) (first volume : ℕ) (step : Step) (heard : Received) → step ≢ Look →
        outcome run counts first step heard ≢ Fails (CountedReel volume) }
{}

/// An attempt reaches a step, or the count, only by wanted replies: one to each request before it,
/// all of one script of the attempt's volume. At the count it is the script that writes exactly the
/// counted blocks.
#[tactic(auto, using(crate::proofs::Order::granted_on_the_way))]
pub fn granted_replies()
    ensures on_the_way { (run : PlainRun) (had : List VolumeCount) (first : ℕ) (step : Step) (replies : List PlainReply) →
        GrantedOnTheWay run had first step replies }
    ensures counted { (run : PlainRun) (had : List VolumeCount) (first next : ℕ) (replies : List PlainReply) →
        GrantedAtTheCount run had first next replies }
{}

/// A client's run, counts and stage determine its position in a script of the attempt's volume:
/// which requests were sent, and how many replies came. A step has the same request, whether it is
/// taken from the checkpoint now or from that at the attempt's start.
#[tactic(auto, using(crate::proofs::Order::asked))]
pub fn lawful_positions()
    ensures stands { (s : Standing) (payload : List (List ℕ)) → IsLawful s → StandsAt s.run payload s.counts s.stage }
    ensures asked { (run : PlainRun) (payload : List (List ℕ)) (counts : List VolumeCount) → AsksAtCheckpoint run payload counts }
{}

/// The text of a request has at most `READER_LIMIT` bytes. With that much spare room in `out`,
/// `Client::next_request` does not return `OutOfMemory`.
#[tactic(auto, using(crate::proofs::Requests::short_request))]
pub fn short_requests()
    ensures { (run : PlainRun) (at : ℕ × ℕ) (step : Step) (request : PlainRequest) → IsShapedAs run at step request →
        IsTextOf (request_text request) request → length (request_text request) ≤ READER_LIMIT }
{}

/// A client appends the requests of the attempt's script, in order. Each reply that continues the
/// attempt, or counts the volume, adds the request that it answers.
#[tactic(auto, using(crate::proofs::Order::sent_next, crate::proofs::Order::sent_counted))]
pub fn sent_in_order()
    ensures none { (run : PlainRun) (payload : List (List ℕ)) (counts : List VolumeCount) → sent_before run payload counts Open ≡ [] }
    ensures next { (run : PlainRun) (payload : List (List ℕ)) (counts : List VolumeCount) → SendsNext run payload counts }
    ensures counted { (run : PlainRun) (payload : List (List ℕ)) (counts : List VolumeCount) → SendsLast run payload counts }
{}

/// An attempt cannot fail after it has reached the close: anything that the client receives then
/// ends it. Before the close, bytes that are no reply fail the attempt, and so does the end of the
/// connection.
#[tactic(auto, using(crate::proofs::Outcomes::close_ends, crate::proofs::Outcomes::noise_fails, crate::proofs::Outcomes::cut_fails))]
pub fn after_the_count()
    ensures close { (run : PlainRun) (counts : List VolumeCount) (first : ℕ) (heard : Received) →
        outcome run counts first Close heard ≡ Ended }
    ensures noise { (run : PlainRun) (counts : List VolumeCount) (first : ℕ) (step : Step) → step ≢ Close →
        outcome run counts first step Noise ≡ Fails Botched }
    ensures cut { (run : PlainRun) (counts : List VolumeCount) (first : ℕ) (step : Step) → step ≢ Close →
        outcome run counts first step End ≡ Fails ConnectionEnded }
{}

/// The effect of arriving bytes does not depend on how they are cut into pieces. An attempt that
/// fails, by bytes or by the end of the connection, leaves the counts as they were.
#[tactic(auto, using(crate::proofs::Pieces::fed_in_pieces, crate::proofs::Going::fed_changes, crate::proofs::Going::cut_changes, crate::proofs::Going::failed))]
pub fn fed_in_pieces()
    ensures pieces { (old middle new : Standing) (bytes p q : List ℕ) (a b : Progress) → Feeds old bytes p a middle →
        FeedsNext middle bytes p q b new → (c : Progress) × Feeds old bytes (p ++ q) c new }
    ensures failed { (old new : Standing) (bytes p : List ℕ) (fault : AttemptFault) →
        Feeds old bytes p (Failed fault) new → new.counts ≡ old.counts }
    ensures cut { (old new : Standing) (fault : AttemptFault) → CutAt old.stage old (Failed fault) new → new.counts ≡ old.counts }
{}

/// A client keeps its run and its counts when bytes arrive or the connection ends. A piece of bytes
/// adds at most one count, and the end adds none. A finished client stays finished, and a lawful
/// one (`IsLawful`) stays lawful. The returned progress agrees with the new stage.
#[tactic(auto, using(crate::proofs::Going::fed_changes, crate::proofs::Going::cut_changes, crate::proofs::Going::cut_goes_on, crate::proofs::Going::over_lawful))]
pub fn same_run()
    ensures fed { (old new : Standing) (bytes piece : List ℕ) (progress : Progress) → Feeds old bytes piece progress new →
        (more : List VolumeCount) × GoesOnWith old new more }
    ensures one_count { (old new : Standing) (bytes piece : List ℕ) (progress : Progress) → Feeds old bytes piece progress new →
        length new.counts ≤ length old.counts + 1 }
    ensures cut { (old new : Standing) (progress : Progress) → CutAt old.stage old progress new → GoesOnWith old new [] }
    ensures fed_lawful { (old new : Standing) (bytes piece : List ℕ) (progress : Progress) → IsLawful old →
        Feeds old bytes piece progress new → IsLawful new }
    ensures fed_stands { (old new : Standing) (bytes piece : List ℕ) (progress : Progress) → Feeds old bytes piece progress new →
        AgreesWithProgress old progress new }
    ensures cut_stands { (old new : Standing) (progress : Progress) → CutAt old.stage old progress new → AgreesWithProgress old progress new }
    ensures cut_lawful { (old new : Standing) (progress : Progress) → IsLawful old → CutAt old.stage old progress new → IsLawful new }
    ensures over_lawful { (run : PlainRun) (counts : List VolumeCount) (at : Standing) → IsRun run → AreVolumes run 1 0 counts →
        IsOver run counts at → IsLawful at }
{}

/// A client's checkpoint text determines its run and counts. Resuming a client from it fails only
/// with `OutOfMemory`.
pub fn resumes()
    ensures spelled { (at : Standing) → IsLawful at → SpellsCheckpoint (checkpoint_text at.run at.counts) at.run at.counts }
    ensures alone { (at : Standing) (run : PlainRun) (counts : List VolumeCount) → IsLawful at →
        SpellsCheckpoint (checkpoint_text at.run at.counts) run counts → (run ≡ at.run) × (counts ≡ at.counts) }
    ensures taken { (at : Standing) (fault : ResumeFault) → IsLawful at →
        HasResumeFault (checkpoint_text at.run at.counts) fault → fault ≡ OutOfMemory }
{
    one_checkpoint();
}
