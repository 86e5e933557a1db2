//! Runs events in a world, and prints the attempts that they make fail.
ghost use Rattle.rmt_wire.specs.Print.{IsPrinted};
ghost use Rattle.rsim_schedule.specs.Playing.{IsPlayed, failed_line, is_whole};

use crate::byte_count::ByteCount;
use crate::halt::Halt;
use crate::line::End;
use crate::printing::print_failure;
use rmt_wire::Counted;
use std::io::Write;
use tape::Trouble;
use tape_world::{Event, World, WorldFault, run};

/// Runs an event, and prints the attempt that it makes fail, if any.
pub(crate) fn make<W: Write>(
    world: &mut World,
    event: Event<'_>,
    out: &mut Counted<W>,
) -> Result<(), Halt>
    ensures { IsPlayed W.contents world.old out.old (is_whole result) world.new out.new }
{
    match run(world, &[event]) {
        Ok(()) => print_failed(world, out),
        Err(WorldFault::NotPossible(_)) => Err(Halt::NotPossible),
        Err(WorldFault::OutOfMemory(_)) => Err(Halt::OutOfMemory),
    }
}

/// Prints the attempt that the last event made fail, if any.
fn print_failed<W: Write>(world: &World, out: &mut Counted<W>) -> Result<(), Halt>
    ensures { IsPrinted W.contents (failed_line world.now.failure) out.old out.new (is_whole result) }
{
    match world.failure() {
        Some((volume, fault)) => print_failure(volume, fault, out),
        None => Ok(()),
    }
}

/// Like `make`, but returns whether the event was possible.
fn run_if_possible<W: Write>(
    world: &mut World,
    event: Event<'_>,
    out: &mut Counted<W>,
) -> Result<bool, Halt>
    ensures { IsPlayed W.contents world.old out.old (is_whole result) world.new out.new }
{
    match make(world, event, out) {
        Ok(()) => Ok(true),
        Err(Halt::NotPossible) => Ok(false),
        Err(halt) => Err(halt),
    }
}

/// Runs up to `rounds` rounds on a connection, and stops after one in which nothing was possible.
pub(crate) fn pump<W: Write>(
    world: &mut World,
    connection: usize,
    rounds: u64,
    out: &mut Counted<W>,
) -> Result<(), Halt>
    ensures { IsPlayed W.contents world.old out.old (is_whole result) world.new out.new }
{
    for _ in 0..rounds {
        if !run_round(world, connection, out)? {
            return Ok(());
        }
    }
    Ok(())
}

/// Runs one round on a connection, each step only if it is possible. Returns whether any step was.
///
/// The client sends its next request, if the connection is its own. The server receives what it has
/// room for and serves once. The other end receives all that was sent.
fn run_round<W: Write>(
    world: &mut World,
    connection: usize,
    out: &mut Counted<W>,
) -> Result<bool, Halt>
    ensures { IsPlayed W.contents world.old out.old (is_whole result) world.new out.new }
{
    let sent = send_own(world, connection, out)?;
    let arrived = arrive(world, End::Server, connection, out)?;
    let served = serve(world, connection, out)?;
    let heard = arrive(world, End::Client, connection, out)?;
    Ok(sent | arrived | served | heard)
}

/// Has the client send its next request, if the connection is its own and a send is possible.
/// Returns whether it sent.
fn send_own<W: Write>(
    world: &mut World,
    connection: usize,
    out: &mut Counted<W>,
) -> Result<bool, Halt>
    ensures { IsPlayed W.contents world.old out.old (is_whole result) world.new out.new }
{
    if world.own() != Some(connection) {
        return Ok(false);
    }
    run_if_possible(world, Event::Send { fails: false }, out)
}

/// Has the server serve once, if that is possible. Returns whether it was.
fn serve<W: Write>(world: &mut World, connection: usize, out: &mut Counted<W>) -> Result<bool, Halt>
    ensures { IsPlayed W.contents world.old out.old (is_whole result) world.new out.new }
{
    let trouble = Trouble::None;
    run_if_possible(
        world,
        Event::Serve {
            connection,
            trouble,
        },
        out,
    )
}

/// Delivers all that can reach this end now, if that is possible. Returns whether it was.
fn arrive<W: Write>(
    world: &mut World,
    end: End,
    connection: usize,
    out: &mut Counted<W>,
) -> Result<bool, Halt>
    ensures { IsPlayed W.contents world.old out.old (is_whole result) world.new out.new }
{
    let event = arrival(world, end, connection, ByteCount::All);
    run_if_possible(world, event, out)
}

/// Returns the event in which bytes on the way reach this end. `ByteCount::All` is as many as can
/// arrive now: 0 if there is no such connection.
pub(crate) fn arrival<'a>(
    world: &World,
    end: End,
    connection: usize,
    count: ByteCount,
) -> Event<'a> {
    let (to_server, to_client) = world.on_way(connection).unwrap_or((0, 0));
    match end {
        End::Server => Event::ToServer {
            connection,
            count: count.resolve(to_server),
        },
        End::Client => Event::ToClient {
            connection,
            count: count.resolve(to_client),
        },
    }
}
