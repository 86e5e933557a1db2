//! The observer of a dump.
ghost use Rattle.std.specs.Prelude.{◌≡◌, false, [], ◌∷◌};
ghost use Rattle.rdump_net.specs.Keeping.{plain_checkpoint};
ghost use Rattle.rdump_net.specs.Observing.{LogsOn, kept_if};
ghost use Rattle.rdump_net.specs.Observing.DumpEvent.{Counted, Completed, Entered, Forgotten};
ghost use Rattle.rdump_net.specs.declared.observer.Reply.TheVariants as replies;

use crate::Peer;
use dump_client::{AttemptFault, Blocks, Client, VolumeCount, VolumeLabel};

/// The answer to the question `retry?`.
#[derive(Clone, Copy, Debug, PartialEq, Eq)]
pub enum Reply {
    /// Try again.
    Retry,
    /// Abandon the dump.
    Abandon,
    /// End at once. The checkpoint stays, so the dump can be resumed.
    Leave,
}

/// The observer of a dump: it is told what happens, keeps the checkpoint, and answers the
/// questions.
///
/// No clause says that a dump calls `may_begin`, `sent`, `overwrites` or `failed`.
pub trait DumpObserver<B: Blocks, P: Peer> {
    ghost use Rattle.std.specs.Prelude.{List};
    ghost use Rattle.rdump_net.specs.Observing.{DumpEvent};

    /// `logs first now events` says that the observer `now` has logged these events, in order,
    /// since it was `first`. No state need have a log.
    ghost logs: { Self → Self → List DumpEvent → Type 0 };

    /// Whether `keep` can fail, or `answer` can return `Leave`. No call makes this true (`quiet`).
    ghost can_stop: { Self → Type 0 };

    /// Returns whether the next attempt may begin. Asked before each attempt, with no connection
    /// open. If it returns false, it may print why; then `retry?` is asked in place of the attempt.
    fn may_begin(&mut self) -> bool
        ensures logs { LogsOn logs self.old self.new [] }
        ensures quiet { can_stop self.new → can_stop self.old }
    {
        true
    }

    /// Takes note that a request was sent whole. `request` has its head and its data.
    fn sent(&mut self, client: &Client<B>, request: &[u8])
        ensures logs { LogsOn logs self.old self.new [] }
        ensures quiet { can_stop self.new → can_stop self.old }
    {
        let _ = client;
        let _ = request;
    }

    /// Takes note that the attempt is about to overwrite a reel that begins with this label. The
    /// connection is open, and nothing passes.
    fn overwrites(&mut self, label: &VolumeLabel)
        ensures logs { LogsOn logs self.old self.new [] }
        ensures quiet { can_stop self.new → can_stop self.old }
    {
        let _ = label;
    }

    /// Takes note that an attempt failed, and why. The connection is closed by then.
    fn failed(&mut self, peer: &P, fault: AttemptFault)
        ensures logs { LogsOn logs self.old self.new [] }
        ensures quiet { can_stop self.new → can_stop self.old }
    {
        let _ = peer;
        let _ = fault;
    }

    /// Takes note of a volume that the client has just counted. Its line is not printed yet.
    fn counted(&mut self, client: &Client<B>, count: VolumeCount)
        ensures logs { LogsOn logs self.old self.new (Counted count ∷ []) }
        ensures quiet { can_stop self.new → can_stop self.old };

    /// Keeps the client's checkpoint in place of the previous one. Returns whether it could; if
    /// not, the previous one stays.
    fn keep(&mut self, client: &Client<B>) -> bool
        ensures logs { LogsOn logs self.old self.new (kept_if (plain_checkpoint client.now.at.run client.now.at.counts) result) }
        ensures able { result ≡ false → can_stop self.old }
        ensures quiet { can_stop self.new → can_stop self.old };

    /// Answers the question `retry?`, which was printed just before.
    fn answer(&mut self) -> Reply
        ensures logs { LogsOn logs self.old self.new [] }
        ensures able { result ≡ replies.Leave → can_stop self.old }
        ensures quiet { can_stop self.new → can_stop self.old };

    /// Enters the end of a complete dump in its catalog, if it has one. Returns whether the catalog
    /// has all of the dump.
    fn complete(&mut self, client: &Client<B>) -> bool
        ensures logs { LogsOn logs self.old self.new (Completed result ∷ []) }
        ensures quiet { can_stop self.new → can_stop self.old };

    /// Enters a complete dump in dumpdates, if that was asked for. Returns false if that failed.
    fn enter(&mut self, client: &Client<B>) -> bool
        ensures logs { LogsOn logs self.old self.new (Entered client.now.at.run result ∷ []) }
        ensures quiet { can_stop self.new → can_stop self.old };

    /// Forgets the checkpoint. Returns false if that failed.
    fn forget(&mut self) -> bool
        ensures logs { LogsOn logs self.old self.new (Forgotten result ∷ []) }
        ensures quiet { can_stop self.new → can_stop self.old };
}
