//! Decides what comes next in an attempt. `first` is the first block of the attempt's volume, and
//! `n` the number in the server's reply.
ghost use Rattle.std.specs.Prelude.{◌≡◌, ◌<◌, ℕ, List};
ghost use Rattle.rmt_wire.specs.Reply.{PlainReply};
ghost use Rattle.dump_client.specs.Listening.{IsSummary};
ghost use Rattle.dump_client.specs.Position as spec;
ghost use Rattle.dump_client.specs.Script.{counted_label};
ghost use Rattle.dump_run.specs.declared.count.VolumeCount.{VolumeCount};
ghost use Rattle.dump_run.specs.Run.{IsRun};

use crate::listen::ReplySummary;
use crate::step::{Step, TapeOp};
use crate::{AttemptFault, Run};
use dump_run::LABEL_BYTES;
use rmt_wire::errno::ENOSPC;

/// The next event of an attempt. `Counted` has the first block that is not in the volume.
#[derive(Clone, Copy)]
pub(crate) enum Outcome {
    GoesOn(Step),
    Fails(AttemptFault),
    Counted(u32),
    Ended,
}

fn block_or_mark(run: &Run, number: u32) -> Step
    ensures { result ≡ spec.block_or_mark run.now number }
{
    if number < run.blocks() {
        Step::Block(number)
    } else {
        Step::Operation(TapeOp::Mark(number))
    }
}

fn after_done(op: TapeOp) -> Outcome
    ensures { result ≡ spec.after_done op }
{
    match op {
        TapeOp::Rewind => Outcome::GoesOn(Step::Look),
        TapeOp::RewindAgain => Outcome::GoesOn(Step::Label),
        TapeOp::Mark(next) => Outcome::GoesOn(Step::Operation(TapeOp::Unload(next))),
        TapeOp::Unload(next) => Outcome::Counted(next),
    }
}

/// Only this function and `after_done` know the order of the requests.
fn after_step(run: &Run, first: u32, step: Step) -> Outcome
    requires run { IsRun run.now }
    requires block { spec.IsBelow run.now step }
    ensures { result ≡ spec.after_step run.now first step }
{
    match step {
        Step::Open => Outcome::GoesOn(Step::Operation(TapeOp::Rewind)),
        Step::Operation(op) => after_done(op),
        Step::Look => Outcome::GoesOn(Step::Operation(TapeOp::RewindAgain)),
        Step::Label => Outcome::GoesOn(block_or_mark(run, first)),
        Step::Block(number) => Outcome::GoesOn(block_or_mark(run, number + 1)),
        Step::Close => Outcome::Ended,
    }
}

/// Returns what follows if the reel has no room for a record.
fn at_end_of_reel(first: u32, step: Step) -> Outcome
    ensures { result ≡ spec.at_end_of_reel first step }
{
    match step {
        Step::Block(number) if first < number => Outcome::GoesOn(Step::Operation(TapeOp::Mark(
            number,
        ))),
        _ => Outcome::Fails(AttemptFault::ReelTooSmall),
    }
}

fn after_write(run: &Run, first: u32, step: Step, size: usize, n: u32) -> Outcome
    requires run { IsRun run.now }
    requires block { spec.IsBelow run.now step }
    ensures { result ≡ spec.after_write run.now first step size n }
{
    if n as usize == size {
        after_step(run, first, step)
    } else if n == 0 {
        at_end_of_reel(first, step)
    } else {
        Outcome::Fails(AttemptFault::ShortWrite)
    }
}

fn after_number(run: &Run, first: u32, step: Step, n: u32) -> Outcome
    requires run { IsRun run.now }
    requires block { spec.IsBelow run.now step }
    ensures { result ≡ spec.after_number run.now first step n }
{
    match step {
        Step::Open | Step::Close => after_step(run, first, step),
        Step::Label => after_write(run, first, step, LABEL_BYTES, n),
        Step::Block(_) => after_write(run, first, step, run.block_bytes(), n),
        Step::Operation(_) if n == 1 => after_step(run, first, step),
        Step::Operation(_) | Step::Look => Outcome::Fails(AttemptFault::Botched),
    }
}

fn after_error(first: u32, step: Step, n: u32) -> Outcome
    ensures { result ≡ spec.after_error first step n }
{
    match step {
        Step::Close => Outcome::Ended,
        Step::Label | Step::Block(_) if n == ENOSPC => at_end_of_reel(first, step),
        _ => Outcome::Fails(AttemptFault::Refused(n)),
    }
}

/// `counted` is the number of the counted volume whose label the bytes are, if there is one.
fn after_data(run: &Run, first: u32, step: Step, counted: Option<u32>) -> Outcome
    requires run { IsRun run.now }
    ensures { (counts : List VolumeCount) (bytes : List ℕ) → counted ≡ counted_label run.now counts bytes →
        result ≡ spec.after_data run.now counts first step bytes }
{
    match (step, counted) {
        (Step::Look, None) => after_step(run, first, step),
        (Step::Look, Some(volume)) => Outcome::Fails(AttemptFault::CountedReel(volume)),
        _ => after_noise(step),
    }
}

pub(crate) fn after_reply(run: &Run, first: u32, step: Step, summary: ReplySummary) -> Outcome
    requires run { IsRun run.now }
    requires block { spec.IsBelow run.now step }
    ensures { (counts : List VolumeCount) (reply : PlainReply) → IsSummary run.now counts reply summary →
        result ≡ spec.after_reply run.now counts first step reply }
{
    match summary {
        ReplySummary::Number(n) => after_number(run, first, step, n),
        ReplySummary::Looked(counted) => after_data(run, first, step, counted),
        ReplySummary::Error(n) => after_error(first, step, n),
    }
}

/// Returns what follows bytes that are no reply, or that come while no reply is awaited.
pub(crate) fn after_noise(step: Step) -> Outcome
    ensures { result ≡ spec.after_noise step }
{
    match step {
        Step::Close => Outcome::Ended,
        _ => Outcome::Fails(AttemptFault::Botched),
    }
}

pub(crate) fn after_end(step: Step) -> Outcome
    ensures { result ≡ spec.after_end step }
{
    match step {
        Step::Close => Outcome::Ended,
        _ => Outcome::Fails(AttemptFault::ConnectionEnded),
    }
}
