//! The log of what passed between a caller and a peer in memory.
ghost use Rattle.std.specs.Prelude.{◌≡◌, ◌∷◌, ◌++◌, [], IsTrue, map, replicate};
ghost use Rattle.remote_tape.specs.Peer.{Logs};
ghost use Rattle.remote_tape.specs.declared.peer.Passed.TheVariants.{Connected, Sent, Given, Ended};
ghost use Rattle.rmt_tools.specs.Telling.{IsLogOf, events_if};

use rdump_net::Passed;
use std::alloc::Global;
use std::marker::Model;

/// What passed, in order, and how many times `Ended` follows it, up to `u64::MAX`.
///
/// Logging an end allocates nothing, so it never fails. Logging anything else fails if an
/// allocation fails, or once `ends` is `u64::MAX`.
#[derive(Drop)]
pub(super) struct Log {
    passed: Vec<Passed>,
    ends: u64,
}

impl Model for Log {
    ghost use Rattle.rmt_tools.specs.Telling.{KeptLog, kept_log};

    ghost Value = { KeptLog };

    ghost view = { λ l. kept_log l.passed.items l.ends };
}

impl Log {
    pub(super) fn new(alloc: Global) -> Log
        ensures { IsLogOf result [] }
    {
        Log {
            passed: Vec::new(alloc),
            ends: 0,
        }
    }

    pub(super) fn end(&mut self)
        ensures { Logs IsLogOf self.old self.new (Ended ∷ []) }
    {
        self.ends = self.ends.saturating_add(1);
    }

    pub(super) fn connect(&mut self) -> bool
        ensures { Logs IsLogOf self.old self.new (events_if result (Connected ∷ [])) }
    {
        self.flush_ends() && push_connected(&mut self.passed)
    }

    pub(super) fn send(&mut self, bytes: &[u8]) -> bool
        ensures { Logs IsLogOf self.old self.new (events_if result (map Sent bytes.now)) }
    {
        self.flush_ends() && push_sent(&mut self.passed, bytes)
    }

    /// Logs that these bytes came from the peer.
    pub(super) fn give(&mut self, bytes: &[u8]) -> bool
        ensures { Logs IsLogOf self.old self.new (events_if result (map Given bytes.now)) }
    {
        self.flush_ends() && push_given(&mut self.passed, bytes)
    }

    /// Moves the counted ends into `passed`, so that more can be appended. Returns whether it
    /// could.
    fn flush_ends(&mut self) -> bool
        ensures same { Logs IsLogOf self.old self.new [] }
        ensures settled { IsTrue result → self.new.ends ≡ 0 }
    {
        if self.ends == u64::MAX || !push_ends(&mut self.passed, self.ends) {
            return false;
        }
        self.ends = 0;
        true
    }
}

/// Appends this many ends. Returns false if the allocation fails.
fn push_ends(passed: &mut Vec<Passed>, ends: u64) -> bool
    ensures { passed.new.items ≡ passed.old.items ++ events_if result (replicate ends Ended) }
{
    let Some(all) = passed.len().checked_add(ends as usize) else {
        return false;
    };
    passed.resize(all, Passed::Ended).is_ok()
}

fn push_connected(passed: &mut Vec<Passed>) -> bool
    ensures { passed.new.items ≡ passed.old.items ++ events_if result (Connected ∷ []) }
{
    passed.push(Passed::Connected).is_ok()
}

fn push_sent(passed: &mut Vec<Passed>, bytes: &[u8]) -> bool
    ensures { passed.new.items ≡ passed.old.items ++ events_if result (map Sent bytes.now) }
{
    if passed.reserve(bytes.len()).is_err() {
        return false;
    }
    for byte in bytes {
        passed.push_reserved(Passed::Sent(*byte));
    }
    true
}

fn push_given(passed: &mut Vec<Passed>, bytes: &[u8]) -> bool
    ensures { passed.new.items ≡ passed.old.items ++ events_if result (map Given bytes.now) }
{
    if passed.reserve(bytes.len()).is_err() {
        return false;
    }
    for byte in bytes {
        passed.push_reserved(Passed::Given(*byte));
    }
    true
}
