//! Serves the connections of a listener one after the other, as `rmtd --listen` does with a drive
//! in memory.
ghost use Rattle.rmtd_serve.specs.Accepting.{AreOver};
ghost use Rattle.rmtd_serve.specs.Serving.{ServedInTurn};

use crate::MemoryServer;
use crate::connections::Connections;
use crate::ended::Ended;
use crate::error_log::text_of;
use crate::idle_watch::IdleWatch;
use reel_files::Log;
use rmt_wire::Counted;
use sockets::Stream;
use std::cell::Cell;
use std::net::TcpStream;
use std::rt::Clock;

/// Serves connections one after the other, until all allowed connections have come or the listener
/// can never accept again. Returns the connections.
///
/// Each connection finds the reels as the one before left them. A connection that ended within a
/// request, or failed, counts too. The end of each is logged.
pub fn serve_connections<'a, C: Clock, L: Log + Drop, M: Log>(
    server: &mut MemoryServer<'_, M>,
    connections: Connections<'a, C, L>,
) -> Connections<'a, C, L>
    // No clause says which bytes pass over a connection.
    ensures turns { ServedInTurn server.old server.new }
    ensures over { AreOver result.left result.tries result.broken }
{
    let mut connections = connections;
    while connections.is_open() {
        if let Some((input, output)) = connections.accept_both() {
            serve_stream(server, input, output, connections.number, &connections.log);
        }
    }
    connections
}

/// Serves the streams of connection `number`, logs how it ended, and closes it.
fn serve_stream<L: Log, M: Log>(
    server: &mut MemoryServer<'_, M>,
    input: Stream<TcpStream>,
    output: Stream<TcpStream>,
    number: u64,
    log: &L,
)
    ensures { ServedInTurn server.old server.new }
{
    let is_idle = Cell::new(false);
    let mut input = Counted::new(IdleWatch::new(input, &is_idle));
    let mut output = Counted::new(IdleWatch::new(output, &is_idle));
    let ending = server.serve(&mut input, &mut output);
    let ended = Ended {
        number,
        ending,
        is_idle: is_idle.get(),
    };
    log.note(text_of(ended).as_str());
}
