//! The client.
ghost use Rattle.std.specs.Prelude.{◌≡◌, ◌↔◌, ℕ, ◌++◌, ◌+◌, ◌<◌, true, List, [], length, IfOk, IfErr, OnErr, OnOk, Ok};
ghost use Rattle.std.specs.Vec.{vec_capacity};
ghost use Rattle.dump_run.specs.Blocks.{listed};
ghost use Rattle.dump_run.specs.Run.{PlainRun};
ghost use Rattle.dump_run.specs.Checkpoint.{SpellsCheckpoint, HasResumeFault};
ghost use Rattle.dump_run.specs.Checkpoint as texts;
ghost use Rattle.dump_client.specs.Standing.{VolumeCount, standing, state_of, checkpoint_of, IsOver, StartedAt, AnsweredAt, FedAt, CutAt};
ghost use Rattle.dump_client.specs.Lawful.{IsLawful};
ghost use Rattle.dump_client.specs.Looking.{FindsLabel};
ghost use Rattle.dump_client.specs.Looking as looking;
ghost use Rattle.dump_client.specs.Client.{Carries, HasFed, IsIdle, ResumesAs, unanswered, IsPayload, NextRequestAt, ReadAt, TellsEntry, failures_after, is_source_fault};
ghost use Rattle.dump_client.specs.declared.stage.Stage.TheVariants as stages;

use crate::ledger::Ledger;
use crate::listen::{FeedResult, listen};
use crate::request::push_step;
use crate::stage::Stage;
use crate::step::Step;
use crate::{
    Answer, AttemptFault, Blocks, ListBlocks, Progress, ResumeFault, Run, StartFault, State,
    VolumeCount, VolumeLabel,
};
use dump_run::{Checkpoint, one_checkpoint, push_checkpoint};
use dumpdates::Entry;
use rmt_wire::ReplyReader;
use std::alloc::{AllocError, Global};
use std::marker::Model;

/// Dumps a run to a remote tape (rmt(8), dump(8)).
///
/// Each attempt writes one volume on a connection of its own. An attempt that fails leaves the
/// counts and the checkpoint as they were.
#[derive(Drop)]
pub struct Client<B: Blocks> {
    ledger: Ledger,
    source: B,
    reader: ReplyReader,
}

impl<B: Blocks> Model for Client<B> {
    ghost use Rattle.std.specs.Prelude.{ℕ, List};
    ghost use Rattle.dump_client.specs.Client.{ClientHeld, HasFedAt, IsPayload};

    ghost Value = { ClientHeld B };

    ghost view = { λ c. record { at = c.ledger.at; source = c.source; reader = c.reader; room = c.ledger.room } };

    ghost invariant = { λ c. ((payload : List (List ℕ)) → B.Blocks.holds c.source payload → IsPayload c.ledger.at.run payload)
        × ((bytes : List ℕ) × HasFedAt c.ledger.at.stage c.reader bytes) };
}

impl<B: Blocks + Drop> Client<B> {
    /// Makes a client for the given run, in state `Ready`. It has counted nothing.
    ///
    /// If the source's blocks are known, they must be as many as the run has, each of its size. The
    /// call reserves `rmt_wire::READER_LIMIT` bytes for replies, and fails only if that allocation
    /// fails.
    pub fn new(alloc: Global, run: Run, source: B) -> Result<Client<B>, AllocError>
        requires { (payload : List (List ℕ)) → B.holds source payload → IsPayload run payload }
        ensures made { IfOk result (λ c. c.at ≡ standing run [] stages.Ready) }
        ensures given { IfOk result (λ c. c.source ≡ source) }
    {
        Client::of_ledger(alloc, Ledger::new(alloc, run), source)
    }

    #[tactic(auto, using(crate::proofs::Feeding::idle_fed))]
    fn of_ledger(alloc: Global, ledger: Ledger, source: B) -> Result<Client<B>, AllocError>
        requires blocks { (payload : List (List ℕ)) → B.holds source payload → IsPayload ledger.at.run payload }
        requires idle { IsIdle ledger.at.stage }
        ensures made { IfOk result (λ c. c.at ≡ ledger.at) }
        ensures given { IfOk result (λ c. c.source ≡ source) }
    {
        let reader = ReplyReader::new(alloc)?;
        Ok(Client {
            ledger,
            source,
            reader,
        })
    }
}

impl<B: Blocks + Drop> Client<B> {
    /// Makes a client with the run and the counts that a checkpoint's text contains.
    ///
    /// The client is `Finished` if the counts are the whole run, and `Ready` otherwise. The source
    /// must be as for `new`. If the bytes are not such a text, it returns the error of
    /// `dump_run::Checkpoint::read`. A text that a client appended fails only with `OutOfMemory`.
    /// Besides the counts it reserves `rmt_wire::READER_LIMIT` bytes for replies.
    pub fn resume(alloc: Global, bytes: &[u8], source: B) -> Result<Client<B>, ResumeFault>
        requires { (run : PlainRun) (counts : List VolumeCount) (payload : List (List ℕ)) → SpellsCheckpoint bytes.now run counts →
            B.holds source payload → IsPayload run payload }
        ensures spelled { IfOk result (λ c. SpellsCheckpoint bytes.now c.at.run c.at.counts) }
        ensures over { IfOk result (λ c. IsOver c.at.run c.at.counts c.at) }
        ensures given { IfOk result (λ c. c.source ≡ source) }
        ensures refused { IfErr result (HasResumeFault bytes.now) }
        ensures resumes { (run : PlainRun) (counts : List VolumeCount) → SpellsCheckpoint bytes.now run counts →
            ResumesAs run counts result }
    {
        one_checkpoint();
        let checkpoint = Checkpoint::read(alloc, bytes)?;
        match Client::from_checkpoint(alloc, checkpoint, source) {
            Ok(client) => Ok(client),
            Err(_) => Err(ResumeFault::OutOfMemory),
        }
    }

    /// Makes a client with the run and the counts of a checkpoint, as `resume` does. Fails only if
    /// the allocation for replies fails.
    pub fn from_checkpoint(
        alloc: Global,
        checkpoint: Checkpoint,
        source: B,
    ) -> Result<Client<B>, AllocError>
        requires { (payload : List (List ℕ)) → B.holds source payload → IsPayload checkpoint.run payload }
        ensures over { IfOk result (λ c. IsOver checkpoint.run checkpoint.counts c.at) }
        ensures resumes { IfOk result (λ c. (c.at.run ≡ checkpoint.run) × (c.at.counts ≡ checkpoint.counts)) }
        ensures given { IfOk result (λ c. c.source ≡ source) }
    {
        let (run, counts) = checkpoint.into_parts();
        let ledger = Ledger::resumed(run, counts);
        Client::of_ledger(alloc, ledger, source)
    }
}

impl<B: Blocks> Client<B> {
    /// Returns the client's state: what it waits for.
    pub fn state(&self) -> State
        ensures state { result ≡ state_of self.now.at.stage }
        ensures lawful { IsLawful self.now.at }
        ensures fed { (bytes : List ℕ) × HasFed self.now bytes }
    {
        let stage = self.ledger.stage();
        stage.state()
    }

    /// Returns the run.
    pub fn run(&self) -> &Run
        // The types allow no other body, so no wrong body is tried.
        ensures { result.now ≡ self.now.at.run }
    {
        self.ledger.run()
    }

    /// Returns the source of the blocks.
    pub fn source(&self) -> &B
        // The types allow no other body, so no wrong body is tried.
        ensures { result.now ≡ self.now.source }
    {
        &self.source
    }

    /// Returns the counted volumes, in order.
    pub fn counted(&self) -> &[VolumeCount]
        ensures { result.now ≡ self.now.at.counts }
    {
        self.ledger.counted()
    }

    /// Returns the number and the first block of the next volume.
    pub fn checkpoint(&self) -> (u32, u32)
        ensures { result ≡ checkpoint_of self.now.at.counts }
    {
        self.ledger.checkpoint()
    }

    /// Appends the text of the client's checkpoint to `out`, for `resume`.
    ///
    /// Fails if an allocation fails. Nothing is appended then.
    pub fn checkpoint_text(&self, out: &mut Vec<u8>) -> Result<(), AllocError>
        ensures appended { OnOk result (out.new.items ≡ out.old.items ++ texts.checkpoint_text self.now.at.run self.now.at.counts) }
        ensures unchanged { OnErr result (out.new.items ≡ out.old.items) }
    {
        push_checkpoint(self.ledger.run(), self.ledger.counted(), out)
    }

    /// Returns the run's entry for the dumpdates file, if the run is finished.
    pub fn finished(&self) -> Option<Entry<'_>>
        ensures { TellsEntry self.now.at.stage self.now.at.run result }
    {
        match self.ledger.stage() {
            Stage::Finished => {
                let run = self.ledger.run();
                Entry::new(run.name(), run.level(), run.date())
            }
            _ => None,
        }
    }

    /// Starts an attempt on a new connection, and reserves memory for one more count.
    ///
    /// Returns `WrongState` unless the client is `Ready`, and `OutOfMemory` if the allocation
    /// fails.
    pub fn start(&mut self) -> Result<(), StartFault>
        ensures started { StartedAt self.old.at.stage self.old.at self.old.room result self.new.at }
        ensures fed { (bytes : List ℕ) → HasFed self.old bytes → HasFed self.new bytes }
        ensures same_source { self.new.source ≡ self.old.source }
        ensures room { OnOk result (0 < self.new.room) }
        ensures same_room { OnErr result (self.new.room ≡ self.old.room) }
        ensures same_reader { OnErr result (self.new.reader ≡ self.old.reader) }
    {
        self.ledger.start()?;
        self.reader.clear();
        Ok(())
    }

    /// Appends the attempt's next request to `out`.
    ///
    /// Returns true if a request was appended. In any state but `ToSend` it returns false and does
    /// nothing. A block is read into its place in `out`, after the room for its write is reserved.
    ///
    /// If it fails, nothing is appended and the attempt has failed:
    /// - `SourceFault`: the block could not be read.
    /// - `OutOfMemory`: `out` has less spare room than the text of the request needs, and the
    ///   allocation for more fails.
    ///
    /// The close comes after the count, so there a failed allocation is no error. It returns false
    /// then, and the attempt is over.
    #[tactic(auto, using(crate::proofs::Feeding::read_done, crate::proofs::Feeding::read_failed, crate::proofs::Listening::waiting_anew))]
    pub fn next_request(&mut self, out: &mut Vec<u8>) -> Result<bool, AttemptFault>
        ensures asked { NextRequestAt self.old.at.stage (B.holds self.old.source) self.old.at (vec_capacity out.old) out.old.items
            result out.new.items self.new.at }
        ensures read { ReadAt self.old.at.stage self.old.at.run.block_bytes B.reads self.old.source out.old.items
            result self.new.source out.new.items }
        ensures same_blocks { (payload : List (List ℕ)) → B.holds self.old.source payload ↔ B.holds self.new.source payload }
        ensures counted { B.failures self.new.source ≡ failures_after result (B.failures self.old.source) }
        ensures able { is_source_fault result ≡ true → B.can_fail self.old.source }
        ensures quiet { B.can_fail self.new.source → B.can_fail self.old.source }
        ensures fed { (bytes : List ℕ) → HasFed self.old bytes → HasFed self.new bytes }
        // The request that is appended can be given to `sent`.
        ensures carries { result ≡ Ok true → Carries B.holds self.new out.new.items }
        ensures slots { self.new.room + length self.new.at.counts ≡ self.old.room + length self.old.at.counts }
    {
        let Stage::ToSend(step) = self.ledger.stage() else {
            return Ok(false);
        };
        match push_step(&self.ledger, step, &mut self.source, out) {
            Ok(()) => {
                self.reader.expect(step.wanted());
                self.ledger.wait(step);
                Ok(true)
            }
            Err(_) if step == Step::Close => {
                self.ledger.finish();
                Ok(false)
            }
            Err(fault) => {
                self.ledger.fail(fault);
                Err(fault)
            }
        }
    }

    /// Tells the source that the block of the last request was sent, if that was the write of a
    /// block. `text` ends with the request, as `next_request` appended it.
    #[tactic(auto, using(crate::proofs::Requests::tail_block))]
    pub fn sent(&mut self, text: &[u8])
        requires { Carries B.holds self.old text.now }
        ensures { self.new ≡ self.old }
    {
        let Stage::Waiting(Step::Block(number)) = self.ledger.stage() else {
            return;
        };
        if let Some(start) = text.len().checked_sub(self.ledger.run().block_bytes()) {
            self.source.sent(number, &text[start..]);
        }
    }

    /// Takes the next piece of the bytes that the server sends, which may be cut in any way.
    ///
    /// The wanted reply to MTOFFL counts the volume, with the blocks that were written. If the reel
    /// becomes full after at least one block, the volume ends with the last written block.
    ///
    /// Before the count, these fail the attempt: a reply that is not wanted, bytes that are no
    /// reply, and bytes that come while no reply is awaited. After the count, any reply and such
    /// bytes end the attempt. An empty piece changes nothing.
    pub fn feed(&mut self, piece: &[u8]) -> Progress
        ensures moved { (bytes : List ℕ) → HasFed self.old bytes → FedAt self.old.at.stage self.old.at bytes piece.now result self.new.at }
        ensures fed { (bytes : List ℕ) → HasFed self.old bytes → HasFed self.new (unanswered self.new.at.stage (bytes ++ piece.now)) }
        ensures same_source { self.new.source ≡ self.old.source }
        ensures slots { self.new.room + length self.new.at.counts ≡ self.old.room + length self.old.at.counts }
    {
        let (progress, _) = self.feed_finding_label(piece);
        progress
    }

    /// Does what `feed` does, and also returns the label that the attempt is about to overwrite.
    ///
    /// The label is returned once, with the piece that completes the reply to the look. It is None
    /// if the record is no label, or if the attempt fails at it.
    pub fn feed_finding_label(&mut self, piece: &[u8]) -> (Progress, Option<VolumeLabel>)
        ensures moved { (bytes : List ℕ) → HasFed self.old bytes → FedAt self.old.at.stage self.old.at bytes piece.now result.0 self.new.at }
        ensures found { (bytes : List ℕ) → HasFed self.old bytes → FindsLabel self.old.at.stage (bytes ++ piece.now) result.0 result.1 }
        ensures fed { (bytes : List ℕ) → HasFed self.old bytes → HasFed self.new (unanswered self.new.at.stage (bytes ++ piece.now)) }
        ensures same_source { self.new.source ≡ self.old.source }
        ensures slots { self.new.room + length self.new.at.counts ≡ self.old.room + length self.old.at.counts }
    {
        match self.ledger.stage() {
            Stage::ToSend(_) if piece.is_empty() => (Progress::Send, None),
            Stage::ToSend(step) => (self.ledger.noise(step), None),
            Stage::Waiting(step) => {
                let (run, counts) = (self.ledger.run(), self.ledger.counted());
                match listen(&mut self.reader, run, counts, piece) {
                    FeedResult::Waits => (Progress::Waiting, None),
                    FeedResult::Reply { heard, more } => {
                        let progress = self.ledger.reply(step, heard.summary, more);
                        (progress, found_label(step, progress, heard.label))
                    }
                    FeedResult::Noise => (self.ledger.noise(step), None),
                }
            }
            _ => (Progress::Idle, None),
        }
    }

    /// Informs the client that the connection has ended. Before the count this fails the attempt.
    /// After the count the attempt is over.
    pub fn ended(&mut self) -> Progress
        ensures moved { CutAt self.old.at.stage self.old.at result self.new.at }
        ensures fed { HasFed self.new [] }
        ensures same_source { self.new.source ≡ self.old.source }
        ensures slots { self.new.room + length self.new.at.counts ≡ self.old.room + length self.old.at.counts }
    {
        match self.ledger.stage() {
            Stage::ToSend(step) | Stage::Waiting(step) => self.ledger.end(step),
            _ => Progress::Idle,
        }
    }

    /// Takes the operator's answer after an attempt failed.
    ///
    /// Returns `WrongState` unless the client is `Asking`.
    pub fn answer(&mut self, answer: Answer) -> Result<(), StartFault>
        ensures answered { AnsweredAt self.old.at.stage self.old.at answer result self.new.at }
        ensures fed { (bytes : List ℕ) → HasFed self.old bytes → HasFed self.new bytes }
        ensures same_source { self.new.source ≡ self.old.source }
        ensures slots { self.new.room + length self.new.at.counts ≡ self.old.room + length self.old.at.counts }
    {
        self.ledger.answer(answer)
    }
}

fn found_label(step: Step, progress: Progress, label: Option<VolumeLabel>) -> Option<VolumeLabel>
    ensures { result ≡ looking.found_label step progress label }
{
    match (step, progress) {
        (Step::Look, Progress::Send) => label,
        _ => None,
    }
}

impl Client<ListBlocks> {
    /// Sets whether reads of the source fail, until the next call of `source_trouble`.
    pub fn source_trouble(&mut self, fails: bool)
        ensures source { self.new.source ≡ listed self.old.source.blocks fails self.old.source.failures }
        ensures same { self.new.at ≡ self.old.at }
        ensures same_room { self.new.room ≡ self.old.room }
        ensures fed { (bytes : List ℕ) → HasFed self.old bytes → HasFed self.new bytes }
    {
        self.source.trouble(fails);
    }
}
