//! A reader of replies that records whether it waits for one.

ghost use Rattle.rmt_wire.specs.Lent.{plain_wanted};
ghost use Rattle.rmt_wire.specs.ReplyReader.{IsWithin};

use rmt_wire::{Reply, ReplyReader, Wanted, WireFault};
use std::alloc::{AllocError, Global};
use std::marker::Model;

/// What a reader returns: the wanted request or reply, another one, or none, perhaps with a fault.
#[derive(Clone, Copy, PartialEq, Eq)]
pub(crate) enum Next {
    Wanted,
    Other,
    None(Option<WireFault>),
}

/// Returns a reply as its letter (lower case if it has data), its number and its bytes.
fn parts<'a>(reply: &Reply<'a>) -> (u8, u32, &'a [u8]) {
    match *reply {
        Reply::Done { number } => (b'A', number, b""),
        Reply::Data { bytes } => (b'a', 0, bytes),
        Reply::Error { number, text } => (b'E', number, text),
    }
}

/// Returns the same kind, with no more data than a reader may wait for.
fn within(wanted: Wanted) -> Wanted
    ensures { IsWithin (plain_wanted result) }
{
    match wanted {
        Wanted::Number => Wanted::Number,
        Wanted::Data(most) => Wanted::Data(most.min(262144)),
    }
}

/// Returns `Wanted` if the reply is the wanted one, else `Other`.
fn compared(wanted: Option<Reply<'_>>, reply: &Reply<'_>) -> Next {
    match wanted {
        Some(wanted) if parts(&wanted) == parts(reply) => Next::Wanted,
        _ => Next::Other,
    }
}

/// A reader of replies. Contracts see whether it waits for a reply.
#[derive(Drop)]
pub(crate) struct Listener {
    reader: ReplyReader,
    is_waiting: bool,
}

impl Model for Listener {
    ghost use Rattle.std.specs.Prelude.{Bool};
    ghost use Rattle.rmt_wire_tests.specs.Listener.{WaitsOnlyIf};

    ghost Value = { Bool };

    ghost view = { λ l. l.is_waiting };

    ghost invariant = { λ l. WaitsOnlyIf l.is_waiting l.reader };
}

impl Listener {
    /// Returns a reader that holds no bytes and waits for nothing.
    pub(crate) fn new(alloc: Global) -> Result<Listener, AllocError> {
        Ok(Listener {
            reader: ReplyReader::new(alloc)?,
            is_waiting: false,
        })
    }

    /// Whether it has `count` bytes unread.
    pub(crate) fn holds(&self, count: usize) -> bool {
        self.reader.room().saturating_add(count) == 262156 && self.reader.is_empty() == (count == 0)
    }

    /// Waits for a reply, unless it waits for one already. Returns whether it did not.
    pub(crate) fn wait(&mut self, wanted: Wanted) -> bool {
        if self.is_waiting {
            return false;
        }
        self.reader.expect(within(wanted));
        self.is_waiting = true;
        true
    }

    pub(crate) fn push(&mut self, piece: &[u8]) -> usize {
        self.reader.push(piece)
    }

    /// Returns what the reader returns next, compared with the wanted reply.
    pub(crate) fn next(&mut self, wanted: Option<Reply<'_>>) -> Next {
        match self.reader.next() {
            Ok(Some(reply)) => {
                let next = compared(wanted, &reply);
                self.is_waiting = false;
                next
            }
            Ok(None) => Next::None(None),
            Err(fault) => Next::None(Some(fault)),
        }
    }

    pub(crate) fn clear(&mut self) {
        self.reader.clear();
        self.is_waiting = false;
    }
}
