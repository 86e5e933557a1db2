//! One direction of a connection.

ghost use Rattle.std.specs.Prelude.{◌≡◌, ◌≤◌, ◌++◌, [], length, drop, OnOk};
ghost use Rattle.world_host.specs.Turns.{ServesAt};

use crate::{Host, Turn};
use rmt_wire::READER_LIMIT;
use std::alloc::{AllocError, Global};
use std::marker::Model;
use tape::Trouble;

/// The bytes in transit in one direction of a connection, in order.
///
/// Bytes that arrived are dropped from the front. The rest is moved there only if more than half
/// have arrived. So bytes that arrive one at a time cost no more than all at once.
///
/// The memory is freed when the bytes are lost, and by `trim`. Otherwise it is kept for the next
/// bytes.
#[derive(Drop)]
pub struct Direction {
    bytes: Vec<u8>,
    start: usize,
}

impl Model for Direction {
    ghost use Rattle.std.specs.Prelude.{◌-◌, ◌≤◌, drop, length, vec_capacity, vec_len};
    ghost use Rattle.world_host.specs.Direction.{PlainDirection, plain_direction};

    ghost Value = { PlainDirection };

    ghost view = { λ p. plain_direction (drop p.start p.bytes.items) (vec_capacity p.bytes - vec_len p.bytes) };

    ghost invariant = { λ p. p.start ≤ length p.bytes.items };
}

impl Direction {
    pub(crate) fn new(alloc: Global) -> Direction
        ensures { result.way ≡ [] }
    {
        Direction {
            bytes: Vec::new(alloc),
            start: 0,
        }
    }

    /// Returns the bytes in transit, in order.
    pub fn bytes(&self) -> &[u8]
        ensures { result.now ≡ self.now.way }
    {
        &self.bytes[self.start..]
    }

    /// Reserves room for `count` more bytes. Fails if an allocation fails.
    pub fn reserve(&mut self, count: usize) -> Result<(), AllocError>
        ensures same { self.new.way ≡ self.old.way }
        ensures room { OnOk result (count ≤ self.new.spare) }
    {
        if self.start > self.bytes.len() / 2 {
            self.move_to_front();
        }
        self.bytes.reserve(count)
    }

    fn move_to_front(&mut self)
        ensures { self.new.way ≡ self.old.way }
    {
        let left = self.bytes.len() - self.start;
        self.bytes.copy_within(self.start.., 0);
        self.bytes.truncate(left);
        self.start = 0;
    }

    /// Adds bytes, for which there must be room.
    pub(crate) fn push(&mut self, bytes: &[u8])
        requires { length bytes.now ≤ self.old.spare }
        ensures { self.new.way ≡ self.old.way ++ bytes.now }
    {
        let _ = self.bytes.extend_from_slice(bytes);
    }

    /// Removes the first `count` bytes, or all if there are fewer.
    pub(crate) fn pass(&mut self, count: usize)
        ensures { self.new.way ≡ drop count self.old.way }
    {
        self.start += count.min(self.bytes.len() - self.start);
    }

    /// Removes all bytes, and frees the memory.
    pub(crate) fn clear(&mut self)
        ensures { self.new.way ≡ [] }
    {
        self.bytes = Vec::new(*self.bytes.allocator());
        self.start = 0;
    }

    /// Frees the memory if no bytes are in transit.
    pub fn trim(&mut self)
        ensures { self.new.way ≡ self.old.way }
    {
        if self.bytes().is_empty() {
            self.clear();
        }
    }

    /// Lets the server's side of a connection take one turn, as `Host::serve` does, and appends the
    /// reply unless `lost` is true. There must be room for `READER_LIMIT` bytes.
    pub fn take_reply(
        &mut self,
        host: &mut Host,
        connection: usize,
        trouble: Trouble,
        lost: bool,
    ) -> Turn
        requires { READER_LIMIT ≤ self.old.spare }
        ensures { ServesAt trouble lost host.old connection self.old.way result host.new self.new.way }
    {
        host.serve(connection, trouble, &mut self.bytes, lost)
    }
}
