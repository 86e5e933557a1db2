//! The run, its counts and the stage, on which a client's requests and counts depend.
ghost use Rattle.std.specs.Prelude.{◌≡◌, ℕ, ◌+◌, ◌<◌, false, List, [], length, OnErr, OnOk, None};
ghost use Rattle.rmt_wire.specs.Reply.{PlainReply};
ghost use Rattle.rmt_wire.specs.ReplyReader as readers;
ghost use Rattle.rmt_wire.specs.ReplyReader.{ReplyUnread};
ghost use Rattle.dump_client.specs.Client.{HasFedAt, unanswered};
ghost use Rattle.dump_client.specs.Listening.{IsSummary};
ghost use Rattle.dump_client.specs.Position.Received.{Reply, Noise, End};
ghost use Rattle.dump_run.specs.Run.{IsRun};
ghost use Rattle.dump_client.specs.Standing.{standing, checkpoint_of, StartedAt, AnsweredAt, ReceivesAt, Becomes, IsOver, IsAtStep};
ghost use Rattle.dump_client.specs.Lawful.{IsLawful, AreVolumes, IsUnfinishedRun, StageFits, OutcomeFits, RoomFits};
ghost use Rattle.dump_client.specs.declared.stage.Stage.TheVariants as stages;
ghost use Rattle.dump_client.specs.declared.stage.Progress.TheVariants as moved;
ghost use Rattle.dump_client.specs.declared.outcome.Outcome.TheVariants as outcomes;

use crate::count::{checkpoint, covers};
use crate::listen::ReplySummary;
use crate::outcome::{Outcome, after_end, after_noise, after_reply};
use crate::stage::Stage;
use crate::step::Step;
use crate::{Answer, AttemptFault, Progress, Run, StartFault, VolumeCount};
use std::alloc::Global;
use std::marker::Model;

#[derive(Drop)]
pub(crate) struct Ledger {
    run: Run,
    counted: Vec<VolumeCount>,
    stage: Stage,
}

impl Model for Ledger {
    ghost use Rattle.std.specs.Prelude.{◌-◌};
    ghost use Rattle.std.specs.Vec.{vec_capacity, vec_len};
    ghost use Rattle.dump_client.specs.Standing.{LedgerState, standing};
    ghost use Rattle.dump_client.specs.Lawful.{IsLawful, RoomFits};

    ghost Value = { LedgerState };

    ghost view = { λ l. record { at = standing l.run l.counted.items l.stage; room = vec_capacity l.counted - vec_len l.counted } };

    ghost invariant = { λ l. IsLawful (standing l.run l.counted.items l.stage)
        × RoomFits l.stage (vec_capacity l.counted - vec_len l.counted) };
}

impl Ledger {
    pub(crate) fn new(alloc: Global, run: Run) -> Ledger
        ensures { result.at ≡ standing run [] stages.Ready }
    {
        Ledger {
            run,
            counted: Vec::new(alloc),
            stage: Stage::Ready,
        }
    }

    pub(crate) fn resumed(run: Run, counted: Vec<VolumeCount>) -> Ledger
        requires run { IsRun run }
        requires volumes { AreVolumes run 1 0 counted.items }
        ensures { IsOver run counted.items result.at }
    {
        let stage = over(&run, &counted);
        Ledger {
            run,
            counted,
            stage,
        }
    }

    pub(crate) fn run(&self) -> &Run
        ensures { result.now ≡ self.now.at.run }
    {
        &self.run
    }

    pub(crate) fn counted(&self) -> &[VolumeCount]
        ensures { result.now ≡ self.now.at.counts }
    {
        &self.counted
    }

    pub(crate) fn stage(&self) -> Stage
        ensures value { result ≡ self.now.at.stage }
        ensures lawful { IsLawful self.now.at }
        ensures room { RoomFits self.now.at.stage self.now.room }
    {
        self.stage
    }

    /// Returns the next volume and its first block.
    pub(crate) fn checkpoint(&self) -> (u32, u32)
        ensures { result ≡ checkpoint_of self.now.at.counts }
    {
        checkpoint(&self.run, &self.counted)
    }

    /// Starts an attempt, and reserves the room for its count. If it fails, nothing has changed.
    pub(crate) fn start(&mut self) -> Result<(), StartFault>
        ensures started { StartedAt self.old.at.stage self.old.at self.old.room result self.new.at }
        ensures room { OnOk result (0 < self.new.room) }
        ensures same_room { OnErr result (self.new.room ≡ self.old.room) }
    {
        let Stage::Ready = self.stage else {
            return Err(StartFault::WrongState);
        };
        if self.counted.reserve(1).is_err() {
            return Err(StartFault::OutOfMemory);
        }
        self.stage = Stage::ToSend(Step::Open);
        Ok(())
    }

    pub(crate) fn answer(&mut self, answer: Answer) -> Result<(), StartFault>
        ensures answered { AnsweredAt self.old.at.stage self.old.at answer result self.new.at }
        ensures slots { self.new.room + length self.new.at.counts ≡ self.old.room + length self.old.at.counts }
    {
        let Stage::Asking = self.stage else {
            return Err(StartFault::WrongState);
        };
        self.stage = match answer {
            Answer::Retry => Stage::Ready,
            Answer::Abandon => Stage::Abandoned,
        };
        Ok(())
    }

    pub(crate) fn wait(&mut self, step: Step)
        requires { self.old.at.stage ≡ stages.ToSend step }
        ensures waits { self.new.at ≡ standing self.old.at.run self.old.at.counts (stages.Waiting step) }
        ensures slots { self.new.room + length self.new.at.counts ≡ self.old.room + length self.old.at.counts }
    {
        self.stage = Stage::Waiting(step);
    }

    /// Hears a reply to a step. `more` says that bytes follow it.
    #[tactic(auto, using(crate::proofs::Going::reply_at))]
    pub(crate) fn reply(&mut self, step: Step, summary: ReplySummary, more: bool) -> Progress
        requires at { IsAtStep self.old.at.stage step }
        requires lawful { IsLawful self.old.at }
        requires room { RoomFits self.old.at.stage self.old.room }
        ensures heard { (reply : PlainReply) → IsSummary self.old.at.run self.old.at.counts reply summary →
            ReceivesAt self.old.at step (Reply reply) more result self.new.at }
        ensures slots { self.new.room + length self.new.at.counts ≡ self.old.room + length self.old.at.counts }
        ensures fed { (reader : readers.ReplyHeld) (bytes : List ℕ) → (more ≡ false → ReplyUnread reader None []) →
            HasFedAt self.new.at.stage reader (unanswered self.new.at.stage bytes) }
        ensures same_run { self.new.at.run ≡ self.old.at.run }
    {
        let (_, first) = self.checkpoint();
        let outcome = after_reply(&self.run, first, step, summary);
        self.apply_outcome(outcome, more)
    }

    #[tactic(auto, using(crate::proofs::Going::noise_at, crate::proofs::Received::final_fed, crate::proofs::Outcomes::noise_final))]
    pub(crate) fn noise(&mut self, step: Step) -> Progress
        requires at { IsAtStep self.old.at.stage step }
        requires lawful { IsLawful self.old.at }
        requires room { RoomFits self.old.at.stage self.old.room }
        ensures heard { ReceivesAt self.old.at step Noise false result self.new.at }
        ensures slots { self.new.room + length self.new.at.counts ≡ self.old.room + length self.old.at.counts }
        ensures fed { (reader : readers.ReplyHeld) (bytes : List ℕ) →
            HasFedAt self.new.at.stage reader (unanswered self.new.at.stage bytes) }
        ensures same_run { self.new.at.run ≡ self.old.at.run }
    {
        self.apply_outcome(after_noise(step), false)
    }

    #[tactic(auto, using(crate::proofs::Going::end_at, crate::proofs::Received::final_fed, crate::proofs::Outcomes::end_final))]
    pub(crate) fn end(&mut self, step: Step) -> Progress
        requires at { IsAtStep self.old.at.stage step }
        requires lawful { IsLawful self.old.at }
        requires room { RoomFits self.old.at.stage self.old.room }
        ensures heard { ReceivesAt self.old.at step End false result self.new.at }
        ensures slots { self.new.room + length self.new.at.counts ≡ self.old.room + length self.old.at.counts }
        ensures fed { (reader : readers.ReplyHeld) (bytes : List ℕ) →
            HasFedAt self.new.at.stage reader (unanswered self.new.at.stage bytes) }
        ensures same_run { self.new.at.run ≡ self.old.at.run }
    {
        self.apply_outcome(after_end(step), false)
    }

    /// Changes the stage and the counts as an outcome says. `more`: bytes follow the reply that led
    /// to it.
    #[tactic(auto, using(crate::proofs::Received::becomes_fed, crate::proofs::Received::becomes_run))]
    fn apply_outcome(&mut self, outcome: Outcome, more: bool) -> Progress
        requires { OutcomeFits self.old.at.run self.old.at.counts self.old.room outcome }
        ensures becomes { Becomes self.old.at outcome more result self.new.at }
        ensures slots { self.new.room + length self.new.at.counts ≡ self.old.room + length self.old.at.counts }
        ensures fed { (reader : readers.ReplyHeld) (bytes : List ℕ) → (more ≡ false → ReplyUnread reader None []) →
            HasFedAt self.new.at.stage reader (unanswered self.new.at.stage bytes) }
        ensures same_run { self.new.at.run ≡ self.old.at.run }
    {
        match outcome {
            Outcome::GoesOn(step) if !more => self.send(step),
            Outcome::GoesOn(_) => self.fail(AttemptFault::Botched),
            Outcome::Fails(fault) => self.fail(fault),
            Outcome::Counted(next) => self.count(next, more),
            Outcome::Ended => self.finish(),
        }
    }

    /// The request of this step is to be sent.
    fn send(&mut self, step: Step) -> Progress
        requires { OutcomeFits self.old.at.run self.old.at.counts self.old.room (outcomes.GoesOn step) }
        ensures becomes { Becomes self.old.at (outcomes.GoesOn step) false result self.new.at }
        ensures slots { self.new.room + length self.new.at.counts ≡ self.old.room + length self.old.at.counts }
    {
        self.stage = Stage::ToSend(step);
        Progress::Send
    }

    pub(crate) fn fail(&mut self, fault: AttemptFault) -> Progress
        requires { IsUnfinishedRun self.old.at.run self.old.at.counts }
        ensures failed { (result ≡ moved.Failed fault) × (self.new.at ≡ standing self.old.at.run self.old.at.counts stages.Asking) }
        ensures slots { self.new.room + length self.new.at.counts ≡ self.old.room + length self.old.at.counts }
    {
        self.stage = Stage::Asking;
        Progress::Failed(fault)
    }

    /// Counts the volume, which ends before block `next`.
    #[tactic(auto, using(crate::proofs::Checkpoint::volumes_to, crate::proofs::Checkpoint::counted_some))]
    fn count(&mut self, next: u32, more: bool) -> Progress
        requires { OutcomeFits self.old.at.run self.old.at.counts self.old.room (outcomes.Counted next) }
        ensures becomes { Becomes self.old.at (outcomes.Counted next) more result self.new.at }
        ensures slots { self.new.room + length self.new.at.counts ≡ self.old.room + length self.old.at.counts }
    {
        let (volume, first) = checkpoint(&self.run, &self.counted);
        let count = next - first;
        self.counted.push_reserved(VolumeCount {
            volume,
            first,
            count,
        });
        if more {
            self.stage = over(&self.run, &self.counted);
            return Progress::Ended;
        }
        self.stage = Stage::ToSend(Step::Close);
        Progress::Send
    }

    pub(crate) fn finish(&mut self) -> Progress
        ensures over { (result ≡ moved.Ended) × IsOver self.old.at.run self.old.at.counts self.new.at }
        ensures slots { self.new.room + length self.new.at.counts ≡ self.old.room + length self.old.at.counts }
    {
        self.stage = over(&self.run, &self.counted);
        Progress::Ended
    }
}

/// Returns the stage after an attempt that is over.
#[tactic(auto, using(crate::proofs::Checkpoint::left_of))]
fn over(run: &Run, counts: &[VolumeCount]) -> Stage
    requires run { IsRun run.now }
    requires volumes { AreVolumes run.now 1 0 counts.now }
    ensures over { IsOver run.now counts.now (standing run.now counts.now result) }
    ensures fits { StageFits run.now counts.now result }
    ensures room { (room : ℕ) → RoomFits result room }
{
    if covers(run, counts) {
        Stage::Finished
    } else {
        Stage::Ready
    }
}
