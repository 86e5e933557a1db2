//! A whole dump, with an observer or an operator.
ghost use Rattle.std.specs.Prelude.{◌≡◌, ◌⊎◌, false};
ghost use Rattle.rdump_net.specs.Ending.{IsDumpEnded};
ghost use Rattle.rdump_net.specs.Keeping.{IsDumpKept, IsKeptUp, IsUnkept, kept_ends, kept_kind, plain_checkpoint};
ghost use Rattle.rdump_net.specs.Lines.{IsDumped};
ghost use Rattle.rdump_net.specs.Talk.{FromAny, TalksOver};
ghost use Rattle.rdump_net.specs.declared.conclusion.Conclusion.TheVariants as ends;

use crate::operator::answer;
use crate::rounds::{finish, round};
use crate::settle::settle;
use crate::{Conclusion, DumpEnd, DumpObserver, Peer, Reply};
use console::ExitStatus;
use dump_client::{Blocks, Client, State, VolumeCount};
use rmt_wire::{Counted, print_text};
use std::alloc::Global;
use std::io::{Read, Write};

/// An operator who answers the questions. Nothing is kept.
#[derive(Drop)]
struct Asked<'a, R> {
    operator: &'a mut R,
}

impl<B: Blocks, P: Peer, R: Read> DumpObserver<B, P> for Asked<'_, R> {
    ghost logs = { λ _ _ _. ⊥ };

    ghost can_stop = { λ _. ⊥ };

    fn counted(&mut self, _client: &Client<B>, _count: VolumeCount) {}

    fn keep(&mut self, _client: &Client<B>) -> bool {
        true
    }

    fn answer(&mut self) -> Reply {
        answer(self.operator)
    }

    fn complete(&mut self, _client: &Client<B>) -> bool {
        true
    }

    fn enter(&mut self, _client: &Client<B>) -> bool {
        true
    }

    fn forget(&mut self) -> bool {
        true
    }
}

/// Makes a client write the volumes of its run to a tape server (the peer), over a new connection
/// for each attempt.
///
/// For each counted volume it prints `volume 1: 2 blocks from 0`, and at the end
/// `dump complete: 2 volumes, 3 blocks`.
///
/// If an attempt fails, it prints `volume 1 failed: Refused 16`, with the fault's name, and
/// `retry?`, and reads one line from the operator. After `yes` it tries the volume again; after
/// anything else it prints `dump abandoned`.
///
/// Returns the exit status of `rdump dump`: `Success` if the run is finished and every line was
/// printed, else `Abnormal`. After a write that fails it does nothing more.
pub fn dump<B: Blocks, P: Peer, R: Read, W: Write>(
    alloc: Global,
    client: &mut Client<B>,
    peer: &mut P,
    operator: &mut R,
    out: &mut Counted<W>,
) -> ExitStatus
    ensures talks { TalksOver B.holds FromAny P.tells client.old client.new peer.old peer.new }
    ensures printed { IsDumped W.contents client.old.at.counts client.new.at out.old out.new result }
{
    let mut observer = Asked { operator };
    let end = dump_to_conclusion(alloc, client, peer, &mut observer, out);
    end.status()
}

/// Makes a client write the volumes of its run as `dump` does, with an observer, and does what
/// follows.
///
/// The observer keeps the checkpoint before the first attempt, and after each count once the
/// count's line is printed. If it cannot, this prints `checkpoint not written`, starts no further
/// attempt, and concludes as `Unkept`.
///
/// It prints `retry?` and asks the observer after an attempt that failed, and in place of an
/// attempt that the observer does not let begin. If the answer is `Leave`, it does nothing more.
///
/// After `dump complete` is printed, the observer enters the dump in the catalog, then in
/// dumpdates, and then forgets the checkpoint. If the entry in dumpdates fails, this prints
/// `dumpdates not updated`, and the checkpoint stays. After `dump abandoned` is printed, the
/// observer forgets the checkpoint. After any other conclusion nothing more is done.
pub fn dump_to_end<B: Blocks, P: Peer, W: Write, O: DumpObserver<B, P>>(
    alloc: Global,
    client: &mut Client<B>,
    peer: &mut P,
    observer: &mut O,
    out: &mut Counted<W>,
) -> DumpEnd
    ensures ended { IsDumpEnded (kept_kind B.holds P.tells W.contents O.logs) (kept_ends client.old peer.old out.old observer.old)
        (kept_ends client.new peer.new out.new observer.new) result }
    ensures able { (result.conclusion ≡ ends.Unkept) ⊎ (result.conclusion ≡ ends.Left) → O.can_stop observer.old }
{
    let conclusion = dump_to_conclusion(alloc, client, peer, observer, out);
    let status = settle(conclusion, client, observer, out);
    DumpEnd { conclusion, status }
}

fn dump_to_conclusion<B: Blocks, P: Peer, W: Write, O: DumpObserver<B, P>>(
    alloc: Global,
    client: &mut Client<B>,
    peer: &mut P,
    observer: &mut O,
    out: &mut Counted<W>,
) -> Conclusion
    ensures kept { IsDumpKept (kept_kind B.holds P.tells W.contents O.logs) (kept_ends client.old peer.old out.old observer.old)
        (kept_ends client.new peer.new out.new observer.new) result }
    ensures able { (result ≡ ends.Unkept) ⊎ (result ≡ ends.Left) → O.can_stop observer.old }
{
    match client.state() {
        State::Finished | State::Abandoned => return finish(client, out),
        _ => {}
    }
    let (mut text, mut kept) = (Vec::new(alloc), None);
    for _ in 0..u64::MAX {
        if !keep_up(client, &mut kept, observer) {
            return unkept(out);
        }
        if let Some(end) = round(client, peer, observer, out, &mut text) {
            return end;
        }
    }
    if !keep_up(client, &mut kept, observer) {
        return unkept(out);
    }
    finish(client, out)
}

/// Keeps the checkpoint, unless the last one kept counts as many volumes (`kept`).
fn keep_up<B: Blocks, P: Peer, O: DumpObserver<B, P>>(
    client: &Client<B>,
    kept: &mut Option<usize>,
    observer: &mut O,
) -> bool
    ensures put { IsKeptUp O.logs (plain_checkpoint client.now.at.run client.now.at.counts) kept.old result kept.new
        observer.old observer.new }
    ensures able { result ≡ false → O.can_stop observer.old }
    ensures quiet { O.can_stop observer.new → O.can_stop observer.old }
{
    let count = client.counted().len();
    if *kept == Some(count) {
        return true;
    }
    if !observer.keep(client) {
        return false;
    }
    *kept = Some(count);
    true
}

fn unkept<W: Write>(out: &mut Counted<W>) -> Conclusion
    ensures { IsUnkept W.contents out.old out.new result }
{
    print_text(out, b"checkpoint not written\n");
    Conclusion::Unkept
}
