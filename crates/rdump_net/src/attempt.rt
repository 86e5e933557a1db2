//! One attempt of a client, over a connection of its own.
ghost use Rattle.std.specs.Prelude.{◌≡◌, ◌⊎◌, ℕ, false, List, [], OnErr};
ghost use Rattle.dump_client.specs.Client.{HasFed};
ghost use Rattle.dump_client.specs.declared.stage.Stage.TheVariants as stages;
ghost use Rattle.rdump_net.specs.Lines.{IsPrefixOf};
ghost use Rattle.rdump_net.specs.Observing.{Observes};
ghost use Rattle.rdump_net.specs.Talk.{FromThis, FromNone, TalksOver};
ghost use Rattle.rdump_net.specs.declared.attempt.Attempted.TheVariants.{Held, NotStarted};

use crate::{DumpObserver, Peer};
use dump_client::{AttemptFault, Blocks, Client, Progress, StartFault, State};

const PIECE: usize = 4096;

/// What `Peer::receive` returns at the end of a connection.
const NO_BYTES: usize = 0;

#[derive(Clone, Copy)]
pub(crate) enum Attempted {
    /// The attempt did not fail: it is over and its volume is counted, or its turns ran out and it
    /// is still under way.
    Over,
    /// The client now asks whether to retry.
    Failed(AttemptFault),
    /// The client could not start, and is unchanged.
    NotStarted,
    /// The attempt may not begin. Nothing has changed.
    Held,
}

/// Has a client write its next volume over a new connection, if `may` is true. An attempt that is
/// under way continues over the open connection, or ends if there is none. `text` is the buffer for
/// requests.
#[tactic(auto, using(crate::proofs::Talking::nothing_said, crate::proofs::Observed::observes_none, crate::proofs::Growing::grown_none))]
pub(crate) fn attempt<B: Blocks, P: Peer, O: DumpObserver<B, P>>(
    client: &mut Client<B>,
    peer: &mut P,
    observer: &mut O,
    text: &mut Vec<u8>,
    may: bool,
) -> Attempted
    ensures talks { TalksOver B.holds (FromThis client.old.at) P.tells client.old client.new peer.old peer.new }
    ensures still { result ≡ NotStarted → (client.new.at ≡ client.old.at) × (client.old.at.stage ≡ stages.Ready) }
    ensures grows { IsPrefixOf client.old.at.counts client.new.at.counts }
    ensures held { may ≡ false → (client.new ≡ client.old) × (peer.new ≡ peer.old) }
    ensures kept { result ≡ Held → (client.new ≡ client.old) × (may ≡ false) }
    ensures observed { Observes O.logs O.can_stop observer.old observer.new [] }
{
    if !may {
        return Attempted::Held;
    }
    let Ok(begun) = begin(client, peer) else {
        return Attempted::NotStarted;
    };
    let progress = talk(client, peer, observer, text, begun);
    peer.hang_up();
    match progress {
        Progress::Failed(fault) => {
            observer.failed(peer, fault);
            Attempted::Failed(fault)
        }
        _ => Attempted::Over,
    }
}

/// Starts an attempt over a new connection, unless one is under way. Without a connection the
/// attempt ends.
#[tactic(auto, using(crate::proofs::Talking::nothing_said))]
fn begin<B: Blocks, P: Peer>(client: &mut Client<B>, peer: &mut P) -> Result<Progress, StartFault>
    ensures talks { TalksOver B.holds (FromThis client.old.at) P.tells client.old client.new peer.old peer.new }
    ensures still { OnErr result ((client.new.at ≡ client.old.at) × (client.old.at.stage ≡ stages.Ready)) }
    ensures fed { (bytes : List ℕ) × HasFed client.old bytes }
{
    if client.state() != State::Ready {
        return Ok(Progress::Send);
    }
    client.start()?;
    if peer.connect() {
        return Ok(Progress::Send);
    }
    Ok(client.ended())
}

#[tactic(auto, using(crate::proofs::Talking::nothing_said, crate::proofs::Observed::observes_none))]
fn talk<B: Blocks, P: Peer, O: DumpObserver<B, P>>(
    client: &mut Client<B>,
    peer: &mut P,
    observer: &mut O,
    text: &mut Vec<u8>,
    begun: Progress,
) -> Progress
    ensures talks { TalksOver B.holds FromNone P.tells client.old client.new peer.old peer.new }
    ensures observed { Observes O.logs O.can_stop observer.old observer.new [] }
{
    match begun {
        Progress::Send => converse(client, peer, observer, text),
        end => end,
    }
}

#[tactic(auto, using(crate::proofs::Talking::nothing_said, crate::proofs::Talking::followed, crate::proofs::Observed::observes_none, crate::proofs::Observed::observes_then))]
fn converse<B: Blocks, P: Peer, O: DumpObserver<B, P>>(
    client: &mut Client<B>,
    peer: &mut P,
    observer: &mut O,
    text: &mut Vec<u8>,
) -> Progress
    ensures talks { TalksOver B.holds FromNone P.tells client.old client.new peer.old peer.new }
    ensures observed { Observes O.logs O.can_stop observer.old observer.new [] }
{
    for _ in 0..u64::MAX {
        match exchange(client, peer, observer, text) {
            Progress::Send | Progress::Waiting => {}
            progress => return progress,
        }
    }
    Progress::Waiting
}

#[tactic(auto, using(crate::proofs::Talking::nothing_said, crate::proofs::Observed::observes_none))]
fn exchange<B: Blocks, P: Peer, O: DumpObserver<B, P>>(
    client: &mut Client<B>,
    peer: &mut P,
    observer: &mut O,
    text: &mut Vec<u8>,
) -> Progress
    ensures talks { TalksOver B.holds FromNone P.tells client.old client.new peer.old peer.new }
    ensures observed { Observes O.logs O.can_stop observer.old observer.new [] }
{
    match client.state() {
        State::ToSend => ask(client, peer, observer, text),
        State::Waiting => hear(client, peer, observer),
        _ => Progress::Idle,
    }
}

fn ask<B: Blocks, P: Peer, O: DumpObserver<B, P>>(
    client: &mut Client<B>,
    peer: &mut P,
    observer: &mut O,
    text: &mut Vec<u8>,
) -> Progress
    ensures talks { TalksOver B.holds FromNone P.tells client.old client.new peer.old peer.new }
    ensures observed { Observes O.logs O.can_stop observer.old observer.new [] }
{
    text.clear();
    match client.next_request(text) {
        Ok(true) => {
            if peer.send(text.as_slice()) {
                client.sent(text.as_slice());
                observer.sent(client, text.as_slice());
                return Progress::Waiting;
            }
            client.ended()
        }
        Ok(false) => Progress::Ended,
        Err(fault) => Progress::Failed(fault),
    }
}

fn hear<B: Blocks, P: Peer, O: DumpObserver<B, P>>(
    client: &mut Client<B>,
    peer: &mut P,
    observer: &mut O,
) -> Progress
    ensures talks { TalksOver B.holds FromNone P.tells client.old client.new peer.old peer.new }
    ensures observed { Observes O.logs O.can_stop observer.old observer.new [] }
{
    let mut piece = [0; PIECE];
    let count = peer.receive(&mut piece);
    if count == NO_BYTES {
        return client.ended();
    }
    let (progress, found) = client.feed_finding_label(&piece[..count]);
    if let Some(label) = found {
        observer.overwrites(&label);
    }
    progress
}
