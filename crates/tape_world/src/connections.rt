//! All connections that were ever made, by number. The first has number 1.
ghost use Rattle.std.specs.Prelude.{◌≡◌, ◌≤◌, ◌∷◌, ◌++◌, [], true, None, Some, IfOk, OnOk, OnErr, MatchOption, length, map};
ghost use Rattle.world_model.specs.World.{numbered};
ghost use Rattle.world_model.specs.Changes.{changed, without_server, without_peer};
ghost use Rattle.world_host.specs.Connection.{plain_connection, severed, said, arrived, deliver_back};
ghost use Rattle.tape_world.specs.Connections.{IsThere};

use std::alloc::{AllocError, Global};
use std::marker::Model;
use world_host::Connection;

#[derive(Drop)]
pub(crate) struct Connections {
    pub(crate) items: Vec<Connection>,
}

impl Model for Connections {
    ghost use Rattle.std.specs.Prelude.{map, nat_lt, vec_len, vec_capacity};
    ghost use Rattle.world_host.specs.Connection.{plain_connection};
    ghost use Rattle.tape_world.specs.Connections.{ConnectionsHeld};

    ghost Value = { ConnectionsHeld };

    ghost view = { λ c. record { list = map plain_connection c.items.items; has_room = nat_lt (vec_len c.items) (vec_capacity c.items) } };
}

impl Connections {
    pub(crate) fn new(alloc: Global) -> Connections
        ensures { result.list ≡ [] }
    {
        Connections {
            items: Vec::new(alloc),
        }
    }

    /// Returns how many connections there are, which is the number of the last.
    pub(crate) fn len(&self) -> usize
        ensures { result ≡ length self.now.list }
    {
        self.items.len()
    }

    /// Reserves room for one more connection. Fails only if an allocation fails.
    pub(crate) fn reserve(&mut self) -> Result<(), AllocError>
        ensures same { self.new.list ≡ self.old.list }
        ensures room { IfOk result (λ done. self.new.has_room ≡ true) }
    {
        self.items.reserve(1)
    }

    /// Adds a connection, for which there must be room.
    pub(crate) fn add(&mut self, connection: Connection)
        requires { self.old.has_room ≡ true }
        ensures { self.new.list ≡ self.old.list ++ plain_connection connection ∷ [] }
    {
        self.items.push_reserved(connection);
    }

    pub(crate) fn find(&self, number: usize) -> Option<&Connection>
        ensures { MatchOption result (numbered self.now.list number ≡ None) (λ l. numbered self.now.list number ≡ Some (plain_connection l.now)) }
    {
        world_host::find(&self.items, number)
    }

    pub(crate) fn cut(&mut self, number: usize)
        requires { IsThere self.old.list number }
        ensures { self.new.list ≡ changed severed self.old.list number }
    {
        world_host::cut(&mut self.items, number);
    }

    /// Ends the server's side of a connection.
    pub(crate) fn end_here(&mut self, number: usize)
        requires { IsThere self.old.list number }
        ensures { self.new.list ≡ changed without_server self.old.list number }
    {
        world_host::end_here(&mut self.items, number);
    }

    /// Removes the peer from a connection.
    pub(crate) fn end_there(&mut self, number: usize)
        requires { IsThere self.old.list number }
        ensures { self.new.list ≡ changed without_peer self.old.list number }
    {
        world_host::end_there(&mut self.items, number);
    }

    /// Ends the server's sides of all connections.
    pub(crate) fn end_all_here(&mut self)
        ensures { self.new.list ≡ map without_server self.old.list }
    {
        world_host::end_all_here(&mut self.items);
    }

    /// Sends bytes to the server. If an allocation fails, nothing has changed.
    pub(crate) fn send(&mut self, number: usize, bytes: &[u8]) -> Result<(), AllocError>
        requires { IsThere self.old.list number }
        ensures sent { OnOk result (self.new.list ≡ changed (said bytes.now) self.old.list number) }
        ensures refused { OnErr result (self.new.list ≡ self.old.list) }
    {
        world_host::send(&mut self.items, number, bytes)
    }

    /// Removes the first `count` bytes in transit to the server.
    pub(crate) fn arrive(&mut self, number: usize, count: usize)
        requires { IsThere self.old.list number }
        ensures { self.new.list ≡ changed (arrived count) self.old.list number }
    {
        world_host::arrive(&mut self.items, number, count);
    }

    /// Removes the first `count` bytes in transit to the peer.
    pub(crate) fn deliver_back(&mut self, number: usize, count: usize)
        requires { IsThere self.old.list number }
        ensures { self.new.list ≡ changed (deliver_back count) self.old.list number }
    {
        world_host::deliver_back(&mut self.items, number, count);
    }
}
