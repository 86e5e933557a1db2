//! The rounds of a dump: its attempts, the lines that report them, and the answers.
ghost use Rattle.std.specs.Prelude.{◌≡◌, ◌≢◌, ◌⊎◌, false, List, [], Some, length, drop, if◌then◌else◌};
ghost use Rattle.dump_client.specs.Standing.{VolumeCount, checkpoint_of};
ghost use Rattle.dump_client.specs.declared.stage.Stage.TheVariants as stages;
ghost use Rattle.rdump_net.specs.Lines.{DumpLines, IsBetween, IsFinish, IsPrefixOf, IsReplied, IsRound, complete_line, count_lines, failure_lines};
ghost use Rattle.rdump_net.specs.Observing.{HasTold, Observes, told_of};
ghost use Rattle.rdump_net.specs.declared.attempt.Attempted.TheVariants.{Held, NotStarted};
ghost use Rattle.rdump_net.specs.declared.conclusion.Conclusion.TheVariants as ends;
ghost use Rattle.rdump_net.specs.declared.observer.Reply.TheVariants as replies;
ghost use Rattle.rmt_wire.specs.Print.{IsPrinted};
ghost use Rattle.rdump_net.specs.Talk.{FromThis, TalksAlone, TalksOver};

use crate::attempt::{Attempted, attempt};
use crate::lines::{LINE_ROOM, QUESTION, complete_text, failure_text, print_counts};
use crate::{Conclusion, DumpObserver, Peer, Reply};
use arrayvec::ArrayString;
use dump_client::{Answer, AttemptFault, Blocks, Client, State, VolumeCount};
use rmt_wire::{Counted, print_text};
use std::io::Write;

/// Does the one thing that the client waits for.
#[tactic(auto, using(crate::proofs::Talking::nothing_said, crate::proofs::Talking::by_itself, crate::proofs::Printed::last_alone))]
pub(crate) fn round<B: Blocks, P: Peer, W: Write, O: DumpObserver<B, P>>(
    client: &mut Client<B>,
    peer: &mut P,
    observer: &mut O,
    out: &mut Counted<W>,
    text: &mut Vec<u8>,
) -> Option<Conclusion>
    ensures talks { TalksOver B.holds (FromThis client.old.at) P.tells client.old client.new peer.old peer.new }
    ensures printed { IsRound W.contents client.old.at.counts client.new.at out.old out.new result }
    ensures still { result ≡ Some ends.Complete → client.new.at ≡ client.old.at }
    ensures told { Observes O.logs O.can_stop observer.old observer.new (told_of (drop (length client.old.at.counts) client.new.at.counts)) }
    ensures able { result ≡ Some ends.Left → O.can_stop observer.old }
{
    match client.state() {
        State::Ready | State::ToSend | State::Waiting => {
            try_volume(client, peer, observer, out, text)
        }
        State::Asking => ask(client, observer),
        State::Finished | State::Abandoned => Some(finish(client, out)),
    }
}

/// Makes one attempt, if the observer lets it begin. The observer is told of each count before the
/// count's line is printed.
fn try_volume<B: Blocks, P: Peer, W: Write, O: DumpObserver<B, P>>(
    client: &mut Client<B>,
    peer: &mut P,
    observer: &mut O,
    out: &mut Counted<W>,
    text: &mut Vec<u8>,
) -> Option<Conclusion>
    ensures talks { TalksOver B.holds (FromThis client.old.at) P.tells client.old client.new peer.old peer.new }
    ensures printed { IsRound W.contents client.old.at.counts client.new.at out.old out.new result }
    ensures still { result ≡ Some ends.Complete → client.new.at ≡ client.old.at }
    ensures told { Observes O.logs O.can_stop observer.old observer.new (told_of (drop (length client.old.at.counts) client.new.at.counts)) }
    ensures able { result ≡ Some ends.Left → O.can_stop observer.old }
{
    let before = volumes(client);
    let may = may_attempt(client, observer);
    let attempted = attempt(client, peer, observer, text, may);
    tell_counts(client, before, observer);
    report(client, before, attempted, observer, out)
}

fn may_attempt<B: Blocks, P: Peer, O: DumpObserver<B, P>>(
    client: &Client<B>,
    observer: &mut O,
) -> bool
    ensures ready { result ≡ false → client.now.at.stage ≡ stages.Ready }
    ensures observed { Observes O.logs O.can_stop observer.old observer.new [] }
{
    client.state() != State::Ready || observer.may_begin()
}

fn report<B: Blocks, P: Peer, W: Write, O: DumpObserver<B, P>>(
    client: &Client<B>,
    before: usize,
    attempted: Attempted,
    observer: &mut O,
    out: &mut Counted<W>,
) -> Option<Conclusion>
    requires told { HasTold O.logs observer.old (drop before client.now.at.counts) }
    requires between { (attempted ≡ NotStarted) ⊎ (attempted ≡ Held) → IsBetween client.now.at.stage }
    ensures printed { (first : List VolumeCount) → before ≡ length first → IsPrefixOf first client.now.at.counts →
        IsRound W.contents first client.now.at out.old out.new result }
    ensures ends { result ≡ Some ends.Complete → (attempted ≡ NotStarted) ⊎ (attempted ≡ Held) }
    ensures observed { Observes O.logs O.can_stop observer.old observer.new [] }
    ensures able { result ≡ Some ends.Left → O.can_stop observer.old }
{
    if !print_since(client, before, out) {
        return Some(Conclusion::PrintFailed);
    }
    report_outcome(client, attempted, observer, out)
}

/// Prints that an attempt failed. One that did not start left the client as it was, so the question
/// is asked here.
#[tactic(auto, using(crate::proofs::Observed::observes_none))]
fn report_outcome<B: Blocks, P: Peer, W: Write, O: DumpObserver<B, P>>(
    client: &Client<B>,
    attempted: Attempted,
    observer: &mut O,
    out: &mut Counted<W>,
) -> Option<Conclusion>
    requires { (attempted ≡ NotStarted) ⊎ (attempted ≡ Held) → IsBetween client.now.at.stage }
    ensures printed { IsRound W.contents client.now.at.counts client.now.at out.old out.new result }
    ensures ends { result ≡ Some ends.Complete → (attempted ≡ NotStarted) ⊎ (attempted ≡ Held) }
    ensures observed { Observes O.logs O.can_stop observer.old observer.new [] }
    ensures able { result ≡ Some ends.Left → O.can_stop observer.old }
{
    match attempted {
        Attempted::Over => None,
        Attempted::Failed(fault) => report_failed(client, fault, out),
        Attempted::NotStarted => {
            let lines = failure_of(client, AttemptFault::OutOfMemory);
            ask_here(client, lines.as_bytes(), observer, out)
        }
        Attempted::Held => ask_here(client, QUESTION.as_bytes(), observer, out),
    }
}

#[tactic(auto, using(crate::proofs::Printed::lines_failed))]
fn report_failed<B: Blocks, W: Write>(
    client: &Client<B>,
    fault: AttemptFault,
    out: &mut Counted<W>,
) -> Option<Conclusion>
    ensures printed { IsRound W.contents client.now.at.counts client.now.at out.old out.new result }
    ensures ends { (result ≢ Some ends.Complete) × (result ≢ Some ends.Left) }
{
    if print_failure(client, fault, out) {
        None
    } else {
        Some(Conclusion::PrintFailed)
    }
}

fn ask_here<B: Blocks, P: Peer, W: Write, O: DumpObserver<B, P>>(
    client: &Client<B>,
    lines: &[u8],
    observer: &mut O,
    out: &mut Counted<W>,
) -> Option<Conclusion>
    requires lines { DumpLines client.now.at.counts client.now.at.counts lines.now }
    requires between { IsBetween client.now.at.stage }
    ensures printed { IsRound W.contents client.now.at.counts client.now.at out.old out.new result }
    ensures observed { Observes O.logs O.can_stop observer.old observer.new [] }
    ensures able { result ≡ Some ends.Left → O.can_stop observer.old }
{
    if !print_text(out, lines) {
        return Some(Conclusion::PrintFailed);
    }
    match observer.answer() {
        Reply::Retry => None,
        Reply::Abandon => Some(finish(client, out)),
        Reply::Leave => Some(Conclusion::Left),
    }
}

fn volumes<B: Blocks>(client: &Client<B>) -> usize
    ensures { result ≡ length client.now.at.counts }
{
    client.counted().len()
}

fn tell_counts<B: Blocks, P: Peer, O: DumpObserver<B, P>>(
    client: &Client<B>,
    before: usize,
    observer: &mut O,
)
    ensures { Observes O.logs O.can_stop observer.old observer.new (told_of (drop before client.now.at.counts)) }
{
    for count in counts_from(client, before) {
        observer.counted(client, *count);
    }
}

fn print_since<B: Blocks, W: Write>(client: &Client<B>, before: usize, out: &mut Counted<W>) -> bool
    ensures { IsPrinted W.contents (count_lines (drop before client.now.at.counts)) out.old out.new result }
{
    print_counts(counts_from(client, before), out)
}

#[tactic(auto, using(std::proofs::lemmas::List::drop_min))]
fn counts_from<B: Blocks>(client: &Client<B>, before: usize) -> &[VolumeCount]
    ensures { result.now ≡ drop before client.now.at.counts }
{
    let counts = client.counted();
    &counts[before.min(counts.len())..]
}

fn print_failure<B: Blocks, W: Write>(
    client: &Client<B>,
    fault: AttemptFault,
    out: &mut Counted<W>,
) -> bool
    ensures { IsPrinted W.contents (failure_lines (checkpoint_of client.now.at.counts).0 fault) out.old out.new result }
{
    print_text(out, failure_of(client, fault).as_bytes())
}

fn failure_of<B: Blocks>(client: &Client<B>, fault: AttemptFault) -> ArrayString<LINE_ROOM>
    ensures { result.bytes ≡ failure_lines (checkpoint_of client.now.at.counts).0 fault }
{
    let (volume, _) = client.checkpoint();
    failure_text(volume, fault)
}

fn ask<B: Blocks, P: Peer, O: DumpObserver<B, P>>(
    client: &mut Client<B>,
    observer: &mut O,
) -> Option<Conclusion>
    requires { client.old.at.stage ≡ stages.Asking }
    ensures same { client.new.at.counts ≡ client.old.at.counts }
    ensures alone { TalksAlone B.holds client.old client.new }
    ensures ends { IsReplied client.new.at result }
    ensures observed { Observes O.logs O.can_stop observer.old observer.new [] }
    ensures able { result ≡ Some ends.Left → O.can_stop observer.old }
{
    let reply = observer.answer();
    take_reply(client, reply)
}

#[tactic(auto, using(crate::proofs::Talking::answered_alone, crate::proofs::Talking::left_alone))]
fn take_reply<B: Blocks>(client: &mut Client<B>, reply: Reply) -> Option<Conclusion>
    requires { client.old.at.stage ≡ stages.Asking }
    ensures same { client.new.at.counts ≡ client.old.at.counts }
    ensures alone { TalksAlone B.holds client.old client.new }
    ensures ends { IsReplied client.new.at result }
    ensures left { reply ≡ replies.Leave → (client.new ≡ client.old) × (result ≡ Some ends.Left) }
    ensures able { result ≡ Some ends.Left → reply ≡ replies.Leave }
{
    let answer = match reply {
        Reply::Retry => Answer::Retry,
        Reply::Abandon => Answer::Abandon,
        Reply::Leave => return Some(Conclusion::Left),
    };
    let _ = client.answer(answer);
    None
}

pub(crate) fn finish<B: Blocks, W: Write>(client: &Client<B>, out: &mut Counted<W>) -> Conclusion
    ensures printed { IsFinish W.contents client.now.at out.old out.new result }
    ensures stays { result ≢ ends.Left }
{
    match client.state() {
        State::Finished => {
            let printed = print_text(out, last_line(client).as_bytes());
            ended(printed, Conclusion::Complete)
        }
        _ => {
            let printed = print_text(out, b"dump abandoned\n");
            ended(printed, Conclusion::Abandoned)
        }
    }
}

fn ended(printed: bool, end: Conclusion) -> Conclusion
    ensures { result ≡ (if printed then end else ends.PrintFailed) }
{
    if printed {
        end
    } else {
        Conclusion::PrintFailed
    }
}

fn last_line<B: Blocks>(client: &Client<B>) -> ArrayString<LINE_ROOM>
    ensures { result.bytes ≡ complete_line client.now.at.counts }
{
    let (_, blocks) = client.checkpoint();
    complete_text(volumes(client), blocks)
}
