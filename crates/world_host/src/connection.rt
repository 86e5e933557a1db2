//! Connections, by number from 1. A connection that is changed must exist.
ghost use Rattle.std.specs.Prelude.{◌≡◌, ◌≤◌, false, length, map, slice_get, OnOk, OnErr};
ghost use Rattle.std.specs.Option.{option_copied, option_map};
ghost use Rattle.world_model.specs.World.{numbered};
ghost use Rattle.world_model.specs.Changes.{changed, new_connection, without_server, without_peer};
ghost use Rattle.world_host.specs.Connection.{plain_connection, severed, said, arrived, deliver_back, noted_turn};
ghost use Rattle.world_model.specs.Steps.{sent_connection};

use crate::Turn;
use crate::direction::Direction;
use crate::dumping::AttemptState;
use rmt_wire::READER_LIMIT;
use std::alloc::{AllocError, Global};

/// A connection between the server and a peer, which is the client or a stranger.
#[derive(Drop)]
pub struct Connection {
    /// The bytes in transit to the server.
    pub toward: Direction,
    /// The bytes in transit to the peer.
    pub back: Direction,
    /// Whether the connection was cut.
    pub cut: bool,
    /// Whether the peer is still there.
    pub other: bool,
    /// The client's attempt, or None if the peer is a stranger.
    pub dump: Option<AttemptState>,
}

impl Connection {
    /// Makes a new connection, on which no bytes were sent.
    pub fn new(alloc: Global, dump: Option<AttemptState>) -> Connection
        ensures { plain_connection result ≡ new_connection dump }
    {
        Connection {
            toward: Direction::new(alloc),
            back: Direction::new(alloc),
            cut: false,
            other: true,
            dump,
        }
    }

    fn end_here(&mut self)
        ensures { plain_connection self.new ≡ without_server (plain_connection self.old) }
    {
        self.toward.clear();
        self.cut = true;
    }

    /// Removes the peer: the connection is cut, and what is in transit to the peer is lost.
    pub fn end_there(&mut self)
        ensures { plain_connection self.new ≡ without_peer (plain_connection self.old) }
    {
        self.back.clear();
        self.cut = true;
        self.other = false;
    }

    fn send(&mut self, bytes: &[u8]) -> Result<(), AllocError>
        ensures sent { OnOk result (plain_connection self.new ≡ said bytes.now (plain_connection self.old)) }
        ensures refused { OnErr result (plain_connection self.new ≡ plain_connection self.old) }
    {
        if self.cut {
            return Ok(());
        }
        self.toward.reserve(bytes.len())?;
        self.toward.push(bytes);
        Ok(())
    }

    /// Reserves room for a request of the client (262,156 bytes), unless the connection was cut. If
    /// an allocation fails, nothing has changed.
    pub fn reserve_request(&mut self) -> Result<(), AllocError>
        ensures same { plain_connection self.new ≡ plain_connection self.old }
        ensures room { OnOk result (self.new.cut ≡ false → READER_LIMIT ≤ self.new.toward.spare) }
    {
        if !self.cut {
            self.toward.reserve(READER_LIMIT)?;
        }
        Ok(())
    }

    /// Sends a request of the client to the server. There must be room for it (`reserve_request`),
    /// unless the connection was cut: then it is lost.
    pub fn send_request(&mut self, bytes: &[u8])
        requires { self.old.cut ≡ false → length bytes.now ≤ self.old.toward.spare }
        ensures { plain_connection self.new ≡ sent_connection bytes.now (plain_connection self.old) }
    {
        if let Some(dump) = &mut self.dump {
            dump.note_sent();
        }
        if !self.cut {
            self.toward.push(bytes);
        }
    }

    /// Records one turn of the server's side, also in the attempt. A fault ends the server's side.
    pub fn note_turn(&mut self, turn: Turn)
        ensures { plain_connection self.new ≡ noted_turn turn (plain_connection self.old) }
    {
        match turn {
            Turn::Nothing => {}
            Turn::Carried(carried) => {
                if let Some(dump) = &mut self.dump {
                    dump.note_carried(carried);
                }
            }
            Turn::Broken(_) => self.end_here(),
        }
    }
}

/// Returns the connection with the given number, if there is one.
pub fn find(connections: &[Connection], connection: usize) -> Option<&Connection>
    ensures { option_map plain_connection (option_copied result) ≡ numbered (map plain_connection connections.now) connection }
{
    let place = connection.checked_sub(1)?;
    at(connections, place)
}

fn at(connections: &[Connection], place: usize) -> Option<&Connection>
    ensures { option_copied result ≡ slice_get connections.now place }
{
    connections.get(place)
}

/// Cuts the given connection. The bytes in transit stay in transit.
pub fn cut(connections: &mut [Connection], connection: usize)
    requires first { 1 ≤ connection }
    requires last { connection ≤ length connections.old }
    ensures { map plain_connection connections.new ≡ changed severed (map plain_connection connections.old) connection }
{
    connections[connection - 1].cut = true;
}

/// Ends the server's side of the given connection: the connection is cut, and what is in transit to
/// the server is lost.
pub fn end_here(connections: &mut [Connection], connection: usize)
    requires first { 1 ≤ connection }
    requires last { connection ≤ length connections.old }
    ensures { map plain_connection connections.new ≡ changed without_server (map plain_connection connections.old) connection }
{
    connections[connection - 1].end_here();
}

/// Removes the peer from the given connection, as `Connection::end_there` does.
pub fn end_there(connections: &mut [Connection], connection: usize)
    requires first { 1 ≤ connection }
    requires last { connection ≤ length connections.old }
    ensures { map plain_connection connections.new ≡ changed without_peer (map plain_connection connections.old) connection }
{
    connections[connection - 1].end_there();
}

/// Ends the server's sides of all connections.
pub fn end_all_here(connections: &mut [Connection])
    ensures { map plain_connection connections.new ≡ map without_server (map plain_connection connections.old) }
{
    for conn in connections.iter_mut() {
        conn.end_here();
    }
}

/// Sends bytes to the server on the given connection. After a cut they are lost. If an allocation
/// fails, nothing has changed.
pub fn send(
    connections: &mut [Connection],
    connection: usize,
    bytes: &[u8],
) -> Result<(), AllocError>
    requires first { 1 ≤ connection }
    requires last { connection ≤ length connections.old }
    ensures sent { OnOk result (map plain_connection connections.new ≡ changed (said bytes.now) (map plain_connection connections.old) connection) }
    ensures refused { OnErr result (map plain_connection connections.new ≡ map plain_connection connections.old) }
{
    connections[connection - 1].send(bytes)
}

/// Removes the first `count` bytes in transit to the server, which have arrived.
pub fn arrive(connections: &mut [Connection], connection: usize, count: usize)
    requires first { 1 ≤ connection }
    requires last { connection ≤ length connections.old }
    ensures { map plain_connection connections.new ≡ changed (arrived count) (map plain_connection connections.old) connection }
{
    connections[connection - 1].toward.pass(count);
}

/// Removes the first `count` bytes in transit to the peer, which have arrived.
pub fn deliver_back(connections: &mut [Connection], connection: usize, count: usize)
    requires first { 1 ≤ connection }
    requires last { connection ≤ length connections.old }
    ensures { map plain_connection connections.new ≡ changed (deliver_back count) (map plain_connection connections.old) connection }
{
    connections[connection - 1].back.pass(count);
}
