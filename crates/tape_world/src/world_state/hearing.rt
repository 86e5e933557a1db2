//! The event in which bytes reach the client or a stranger.
ghost use Rattle.std.specs.Prelude.{◌≡◌, ◌≤◌, ◌++◌, ℕ, List, true, length, map, option_to_list, slice_get};
ghost use Rattle.world_model.specs.Changes.{changed, reel_opened_by};
ghost use Rattle.world_model.specs.Events.PlainEvent.{ToClient};
ghost use Rattle.world_model.specs.Kept.{IsWorldKept};
ghost use Rattle.tape_world.specs.Calling.{failure_of};
ghost use Rattle.tape_world.specs.Hearing.{HasHeard, IsAttempting, history_count, heard_on, is_over, own_after};
ghost use Rattle.tape_world.specs.Holding.{IsEvent};
ghost use Rattle.tape_world.specs.Seen.{name_at, seen_opening};
ghost use Rattle.tape_world.specs.Connections.{IsThere};

use super::WorldState;
use crate::caller::WorldClient;
use crate::connections::Connections;
use crate::history::{Count, History, Opening};
use crate::stop::EventStop;
use dump_client::{AttemptFault, Client, ListBlocks, Progress, State, VolumeCount};

/// The outcome of bytes that the client heard.
#[derive(Clone, Copy)]
struct PieceHeard {
    run: usize,
    /// The volume that was counted, if one was.
    count: Option<VolumeCount>,
    is_over: bool,
    /// The volume and the cause, if the attempt failed.
    failure: Option<(u32, AttemptFault)>,
}

fn is_over(progress: Progress) -> bool
    ensures { result ≡ is_over progress }
{
    matches!(progress, Progress::Failed(_) | Progress::Ended)
}

fn failure_of(client: &Client<ListBlocks>, progress: Progress) -> Option<(u32, AttemptFault)>
    ensures { result ≡ failure_of client.now.at progress }
{
    match progress {
        Progress::Failed(fault) => Some((client.checkpoint().0, fault)),
        _ => None,
    }
}

fn count_at(counts: &[VolumeCount], place: usize) -> Option<VolumeCount>
    ensures { result ≡ slice_get counts.now place }
{
    counts.get(place).copied()
}

/// Feeds these bytes to the client, which must be in an attempt.
fn hear(caller: &mut Option<WorldClient>, piece: &[u8]) -> PieceHeard
    requires { IsAttempting caller.old }
    ensures { HasHeard caller.old piece.now result caller.new }
{
    let Some(caller) = caller else {
        return PieceHeard {
            run: 0,
            count: None,
            is_over: false,
            failure: None,
        };
    };
    let state = caller.client.state();
    prove!(matches!(state, State::ToSend | State::Waiting));
    let before = caller.client.counted().len();
    let progress = caller.client.feed(piece);
    PieceHeard {
        run: caller.number,
        count: count_at(caller.client.counted(), before),
        is_over: is_over(progress),
        failure: failure_of(&caller.client, progress),
    }
}

/// Returns the index of the reel's name in the first opening of the connection, or `none` if there
/// is no such opening.
fn reel_in(opens: &[Opening], connection: usize, none: usize) -> usize
    ensures { (names : List (List ℕ)) → length names ≤ none → name_at names result ≡ reel_opened_by connection (map (seen_opening names) opens.now) }
{
    for opening in opens {
        if opening.connection == connection {
            return opening.reel;
        }
    }
    none
}

/// Returns the index of the name of the reel that the connection opened first, or the number of
/// names if it opened none.
fn reel_of(history: &History, connection: usize) -> usize
    ensures { name_at history.now.names result ≡ reel_opened_by connection history.now.opens }
{
    reel_in(&history.opens, connection, history.names.len())
}

impl History {
    /// Appends the volume that the client counted, if it did. `reel` is the index of its reel's
    /// name.
    fn keep(&mut self, heard: &PieceHeard, reel: usize, connection: usize)
        requires { self.old.rooms.counts ≡ true }
        ensures { self.new ≡ record self.old {
          counts = self.old.counts ++ map (history_count heard.now.run (name_at self.old.names reel) connection) (option_to_list heard.now.count);
          rooms = self.new.rooms;
        } }
    {
        if let Some(volume) = heard.count {
            self.counts.push_reserved(Count {
                run: heard.run,
                volume: volume.volume,
                first: volume.first,
                count: volume.count,
                reel,
                connection,
            });
        }
    }
}

/// Removes the `count` bytes that arrived on the client's connection. If the attempt is over, the
/// client leaves the connection.
fn deliver_or_leave(
    connections: &mut Connections,
    own: &mut Option<usize>,
    connection: usize,
    count: usize,
    is_over: bool,
)
    requires { IsThere connections.old.list connection }
    ensures connections { connections.new.list ≡ changed (heard_on is_over count) connections.old.list connection }
    ensures own { own.new ≡ own_after is_over own.old }
{
    if !is_over {
        connections.deliver_back(connection, count);
        return;
    }
    connections.end_there(connection);
    *own = None;
}

impl WorldState {
    /// Delivers the first `count` bytes in transit to the peer: the client reads them, and a
    /// stranger drops them.
    pub(crate) fn to_client(&mut self, connection: usize, count: usize) -> Result<(), EventStop>
        requires { IsWorldKept self.old }
        ensures { IsEvent self.old (ToClient connection count) result self.new }
    {
        let Some(conn) = self.connections.find(connection) else {
            return Err(EventStop::NotPossible);
        };
        let way = conn.back.bytes();
        if !conn.other || count == 0 || way.len() < count {
            return Err(EventStop::NotPossible);
        }
        if conn.dump.is_none() {
            self.connections.deliver_back(connection, count);
            self.failure = None;
            return Ok(());
        }
        self.history.reserve_count()?;
        let reel = reel_of(&self.history, connection);
        let heard = hear(&mut self.caller, &way[..count]);
        self.history.keep(&heard, reel, connection);
        deliver_or_leave(
            &mut self.connections,
            &mut self.own,
            connection,
            count,
            heard.is_over,
        );
        self.failure = heard.failure;
        Ok(())
    }
}
