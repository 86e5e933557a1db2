//! One event, of any kind.
ghost use Rattle.world_model.specs.Kept.{IsWorldKept};
ghost use Rattle.tape_world.specs.Holding.{IsEvent};
ghost use Rattle.tape_world.specs.Running.{plain_event};

use super::WorldState;
use crate::event::Event;
use crate::stop::EventStop;

impl WorldState {
    /// Makes one event happen. If it fails, nothing has changed.
    pub(crate) fn make(&mut self, event: &Event<'_>) -> Result<(), EventStop>
        requires { IsWorldKept self.old }
        ensures { IsEvent self.old (plain_event event.now) result self.new }
    {
        match *event {
            Event::StartRun { run, payload } => self.start_run(run, payload),
            Event::Connect => self.connect(),
            Event::Send { fails } => self.send(fails),
            Event::ToServer { connection, count } => self.to_server(connection, count),
            Event::Serve {
                connection,
                trouble,
            } => self.serve(connection, trouble),
            Event::ToClient { connection, count } => self.to_client(connection, count),
            Event::Cut { connection } => self.cut(connection),
            Event::EndAtServer { connection } => self.end_at_server(connection),
            Event::EndAtClient { connection } => self.end_at_client(connection),
            Event::ServerRestart => self.server_restart(),
            Event::ClientRestart => self.client_restart(),
            Event::Respond { answer } => self.respond(answer),
            Event::Arrange { drive, reels } => self.arrange(drive, reels),
            Event::Stranger => self.stranger(),
            Event::Says { connection, bytes } => self.says(connection, bytes),
            Event::Enter => self.enter(),
            Event::Save => self.save(),
        }
    }
}
