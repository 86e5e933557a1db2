//! A peer with given replies.

use rdump_net::Peer;
use std::alloc::Global;

/// The replies of a connection, one at a time. After the last the connection ends.
pub(super) type Replies = &'static [&'static [u8]];

/// A peer that makes as many connections as it has lists of replies. It keeps what it is sent.
#[derive(Drop)]
pub(super) struct FakePeer {
    pub(super) sent: Vec<u8>,
    connections: &'static [Replies],
    made: usize,
    replies: Replies,
    given: usize,
}

impl FakePeer {
    pub(super) fn new(alloc: Global, connections: &'static [Replies]) -> Self {
        FakePeer {
            sent: Vec::new(alloc),
            connections,
            made: 0,
            replies: &[],
            given: 0,
        }
    }
}

impl Peer for FakePeer {
    ghost tells = { λ _ _. ⊥ };

    fn connect(&mut self) -> bool {
        let next = self.connections.get(self.made);
        self.made = self.made.saturating_add(1);
        self.given = 0;
        self.replies = next.copied().unwrap_or(&[]);
        next.is_some()
    }

    fn send(&mut self, bytes: &[u8]) -> bool {
        self.sent.extend_from_slice(bytes).is_ok()
    }

    fn receive(&mut self, into: &mut [u8]) -> usize {
        match self.replies.get(self.given) {
            Some(reply) if reply.len() <= into.len() => {
                into[..reply.len()].copy_from_slice(reply);
                self.given = self.given.saturating_add(1);
                reply.len()
            }
            _ => 0,
        }
    }

    fn hang_up(&mut self) {
        self.replies = &[];
    }
}
