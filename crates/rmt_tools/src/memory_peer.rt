//! A peer in memory, which logs what passed.
ghost use Rattle.std.specs.Prelude.{◌≡◌, ◌≤◌, ◌∷◌, [], None, IfSome, drop, length, min, take};
ghost use Rattle.rmt_server.specs.Memory.{in_memory};
ghost use Rattle.rmt_server.specs.Opening.{IsClosed};
ghost use Rattle.rmt_server.specs.State.{state};
ghost use Rattle.remote_tape.specs.Peer.{Logs, connected};
ghost use Rattle.remote_tape.specs.declared.peer.Passed.TheVariants.{Connected, Ended};
ghost use Rattle.rmt_tools.specs.Telling.{IsCleared, IsLogOf, IsMadeOf, IsTakenApart, events_if};

mod far_end;
mod log;

use drives::{DriveTable, ListStacks, LocalHolds};
use far_end::FarEnd;
use log::Log;
use rdump_net::Peer;
use std::alloc::Global;
use std::marker::Model;

/// A peer in memory: drives with their reels, and one session for each connection. It logs what
/// passed.
///
/// It carries out each request as soon as it is whole, and keeps the replies until they are
/// received. If there is no reply to receive, a receive reports the end of the connection: nothing
/// would come without a further request. Bytes that are no request end the session; the replies to
/// earlier requests can still be received.
///
/// It allocates for the log and for the replies. If an allocation fails, the connection is reported
/// as ended.
///
/// Contracts see the log, the drives and the session.
#[derive(Drop)]
pub struct MemoryPeer {
    far: FarEnd,
    back: Vec<u8>,
    log: Log,
    is_open: bool,
}

impl Model for MemoryPeer {
    ghost use Rattle.rmt_tools.specs.Telling.{MemoryPeerHeld};

    ghost Value = { MemoryPeerHeld };

    ghost view = { λ p. record { log = p.log; drives = p.far.drives; session = p.far.session } };
}

impl MemoryPeer {
    /// Makes a peer that has the given drives, and no connection yet. `stacks` must have no more
    /// drives than `holds`.
    ///
    /// Returns None if an allocation fails, or if no number is left for a session.
    pub fn new(alloc: Global, drives: DriveTable<LocalHolds, ListStacks>) -> Option<MemoryPeer>
        requires { length drives.stacks.library.drives ≤ length drives.holds.numbers }
        ensures tells { IfSome result (λ p. IsLogOf p.log []) }
        ensures made { IfSome result (λ p. IsMadeOf drives p) }
    {
        let far = FarEnd::new(alloc, drives)?;
        Some(MemoryPeer {
            far,
            back: Vec::new(alloc),
            log: Log::new(alloc),
            is_open: false,
        })
    }

    /// Returns the stacks of the peer's drives, and the bin, with their reels. For a reel that a
    /// session has open, only its name is there.
    pub fn stacks(&self) -> &ListStacks
        // The types allow no other body, so no wrong body is tried.
        ensures { result.now ≡ self.now.drives.stacks }
    {
        &self.far.drives.stacks
    }

    /// Ends the peer's session, and returns the peer's drives. Another peer can be made with them.
    pub fn into_drives(self) -> DriveTable<LocalHolds, ListStacks>
        ensures apart { IsTakenApart self result }
        ensures enough { length result.stacks.library.drives ≤ length result.holds.numbers }
    {
        let MemoryPeer { far, .. } = self;
        far.into_drives()
    }

    /// Closes the connection and logs that it ended.
    fn cut(&mut self)
        ensures told { Logs IsLogOf self.old.log self.new.log (Ended ∷ []) }
        ensures closed { IsClosed in_memory (state self.old.drives self.old.session) (state self.new.drives self.new.session) }
    {
        self.hang_up();
        self.log.end();
    }

    /// Makes a connection with a session of its own, and logs it. An earlier connection is dropped.
    fn open(&mut self) -> bool
        ensures told { Logs IsLogOf self.old.log self.new.log (events_if result (Connected ∷ [])) }
        ensures fresh { self.new.session.opened ≡ None }
        ensures cleared { IsCleared self.old.drives self.old.session self.new.drives }
    {
        self.back.clear();
        self.is_open = false;
        if self.far.renew().is_none() {
            return false;
        }
        self.is_open = self.log.connect();
        self.is_open
    }
}

/// Moves bytes from the front of `bytes` to `into`, as many as fit. Returns how many.
fn take_front(bytes: &mut Vec<u8>, into: &mut [u8]) -> usize
    ensures count { result ≡ min (length bytes.old.items) (length into.old) }
    ensures within { result ≤ length into.new }
    ensures room { length into.new ≡ length into.old }
    ensures taken { take result into.new ≡ take result bytes.old.items }
    ensures rest { bytes.new.items ≡ drop result bytes.old.items }
{
    let len = bytes.len();
    let count = len.min(into.len());
    into[..count].copy_from_slice(&bytes.as_slice()[..count]);
    bytes.as_mut_slice().copy_within(count.., 0);
    bytes.truncate(len - count);
    count
}

impl Peer for MemoryPeer {
    // No clause says which call notices an end of the connection.

    ghost use Rattle.rmt_tools.specs.Telling.{IsLogOf};

    ghost tells = { λ p. IsLogOf p.log };

    /// Allocates for a session and for the log. Returns false if that fails, or if no number is
    /// left for a session. In either case what was open is closed.
    fn connect(&mut self) -> bool
        ensures told { Logs IsLogOf self.old.log self.new.log (connected result) }
        ensures fresh { self.new.session.opened ≡ None }
        ensures cleared { IsCleared self.old.drives self.old.session self.new.drives }
    {
        if self.open() {
            return true;
        }
        self.cut();
        false
    }

    /// Returns false if there is no connection, or if earlier bytes that are no request ended it.
    /// Returns false too if an allocation for the log or for a reply fails, or if no reply can have
    /// the count of an operation.
    fn send(&mut self, bytes: &[u8]) -> bool {
        if !self.is_open {
            self.cut();
            return false;
        }
        if !self.log.send(bytes) {
            self.cut();
            return false;
        }
        let Ok(goes_on) = self.far.serve(bytes, &mut self.back) else {
            self.cut();
            return false;
        };
        self.is_open = goes_on;
        true
    }

    /// Returns the replies that are ready, as far as they fit. Reports the end of the connection if
    /// there are none, or if an allocation for the log fails.
    fn receive(&mut self, into: &mut [u8]) -> usize {
        if into.is_empty() {
            return 0;
        }
        let count = take_front(&mut self.back, into);
        if count == 0 {
            self.cut();
            return 0;
        }
        if !self.log.give(&into[..count]) {
            self.cut();
            return 0;
        }
        count
    }

    /// Ends the session, so that what was open is closed, and drops the replies that were not
    /// received.
    fn hang_up(&mut self)
        ensures log { self.new.log ≡ self.old.log }
        ensures closed { IsClosed in_memory (state self.old.drives self.old.session) (state self.new.drives self.new.session) }
    {
        self.far.end();
        self.back.clear();
        self.is_open = false;
    }
}
