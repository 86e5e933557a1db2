//! Events of connections themselves.
ghost use Rattle.world_model.specs.Events.PlainEvent.{Cut, Stranger, Says};
ghost use Rattle.tape_world.specs.Holding.{IsEvent};

use super::WorldState;
use crate::stop::EventStop;
use world_host::Connection;

impl WorldState {
    /// Cuts the connection: bytes that are sent on it later are lost.
    pub(crate) fn cut(&mut self, connection: usize) -> Result<(), EventStop>
        ensures { IsEvent self.old (Cut connection) result self.new }
    {
        let Some(conn) = self.connections.find(connection) else {
            return Err(EventStop::NotPossible);
        };
        if conn.cut {
            return Err(EventStop::NotPossible);
        }
        self.connections.cut(connection);
        self.failure = None;
        Ok(())
    }

    /// Makes a new connection of a stranger.
    pub(crate) fn stranger(&mut self) -> Result<(), EventStop>
        ensures { IsEvent self.old Stranger result self.new }
    {
        self.connections.reserve()?;
        self.host.prepare()?;
        self.host.admit();
        self.connections.add(Connection::new(self.alloc, None));
        self.failure = None;
        Ok(())
    }

    /// Sends the given bytes from a stranger to the server. After a cut they are lost.
    pub(crate) fn says(&mut self, connection: usize, bytes: &[u8]) -> Result<(), EventStop>
        ensures { IsEvent self.old (Says connection bytes.now) result self.new }
    {
        let Some(conn) = self.connections.find(connection) else {
            return Err(EventStop::NotPossible);
        };
        if !conn.other || conn.dump.is_some() {
            return Err(EventStop::NotPossible);
        }
        self.connections.send(connection, bytes)?;
        self.failure = None;
        Ok(())
    }
}
