//! Events at the server's side.
ghost use Rattle.world_model.specs.Events.PlainEvent.{ToServer, EndAtServer, ServerRestart};
ghost use Rattle.world_model.specs.Kept.{IsWorldKept};
ghost use Rattle.tape_world.specs.Holding.{IsEvent};

use super::WorldState;
use crate::stop::EventStop;
use world_model::kept;

impl WorldState {
    /// Delivers the first `count` bytes in transit to the server.
    pub(crate) fn to_server(&mut self, connection: usize, count: usize) -> Result<(), EventStop>
        requires { IsWorldKept self.old }
        ensures { IsEvent self.old (ToServer connection count) result self.new }
    {
        let Some(room) = self.host.room(connection) else {
            return Err(EventStop::NotPossible);
        };
        let Some(conn) = self.connections.find(connection) else {
            return Err(EventStop::NotPossible);
        };
        let way = conn.toward.bytes();
        if count == 0 || way.len() < count || room < count {
            return Err(EventStop::NotPossible);
        }
        self.host.push(connection, &way[..count]);
        self.connections.arrive(connection, count);
        self.failure = None;
        Ok(())
    }

    /// Lets the server notice that the connection has ended, and end its side. The bytes in transit
    /// to the server are lost.
    pub(crate) fn end_at_server(&mut self, connection: usize) -> Result<(), EventStop>
        requires { IsWorldKept self.old }
        ensures { IsEvent self.old (EndAtServer connection) result self.new }
    {
        let Some(conn) = self.connections.find(connection) else {
            return Err(EventStop::NotPossible);
        };
        if !conn.cut || self.host.room(connection).is_none() {
            return Err(EventStop::NotPossible);
        }
        kept();
        self.host.end(connection);
        self.connections.end_here(connection);
        self.failure = None;
        Ok(())
    }

    /// Restarts the server, which ends the server's side of every connection.
    pub(crate) fn server_restart(&mut self) -> Result<(), EventStop>
        requires { IsWorldKept self.old }
        ensures { IsEvent self.old ServerRestart result self.new }
    {
        kept();
        self.host.restart();
        self.connections.end_all_here();
        self.failure = None;
        Ok(())
    }
}
