//! The event in which the server carries out a request that reached it.
ghost use Rattle.std.specs.Prelude.{◌≡◌, ◌≤◌, ◌<◌, ◌++◌, Contains, List, ℕ, IfOk, OnErr, Some, length, map, option_map, vec_len, vec_capacity};
ghost use Rattle.std.specs.List.{position_or_len};
ghost use Rattle.std.specs.Option.{option_copied, option_to_list};
ghost use Rattle.std.specs.Str.{bytes_eq};
ghost use Rattle.drives.specs.ListLibrary.{rest_slot};
ghost use Rattle.world_host.specs.Servers.{side_at};
ghost use Rattle.world_model.specs.Changes.{changed, first_name, list_in, opening, writing};
ghost use Rattle.world_model.specs.Events.PlainEvent.{Serve};
ghost use Rattle.world_model.specs.Kept.{IsWorldKept};
ghost use Rattle.tape_world.specs.Connections.{IsThere};
ghost use Rattle.tape_world.specs.Holding.{IsEvent};
ghost use Rattle.tape_world.specs.Seen.{IsSameHistory, seen_caller, seen_lists, seen_openings, seen_writings};
ghost use Rattle.world_host.specs.Connection.{plain_connection};
ghost use Rattle.tape_world.specs.Serving.{HasRoom, IsNoted, IsOnlineIn, TurnServes, is_write, name_online_at, opened_in, written_in};

use super::WorldState;
use crate::caller::WorldClient;
use crate::connections::Connections;
use crate::history::{History, Opening, Writing};
use crate::stop::EventStop;
use drives::ListedReel;
use dump_client::VolumeCount;
use rmt_wire::READER_LIMIT;
use rmt_wire::errno::{EACCES, EBADF};
use std::alloc::{AllocError, Global};
use tape::Trouble;
use world_host::{Answered, Carried, Connection, Host, RequestKind, Turn};
use world_model::kept;

/// Takes one turn of the server's side of a connection, and notes it on the connection.
fn take_turn(
    host: &mut Host,
    conn: &mut Connection,
    connection: usize,
    trouble: Trouble,
) -> Result<Turn, AllocError>
    ensures taken { IfOk result (λ turn. TurnServes trouble host.old connection turn host.new
        (λ f. plain_connection conn.new ≡ f (plain_connection conn.old))) }
    ensures refused { OnErr result ((plain_connection conn.new ≡ plain_connection conn.old) × (host.new ≡ host.old)) }
{
    conn.back.reserve(READER_LIMIT)?;
    let turn = conn.back.take_reply(host, connection, trouble, conn.cut);
    conn.back.trim();
    conn.note_turn(turn);
    Ok(turn)
}

/// Like `take_turn`, for the connection with this number, which must exist.
fn take_turn_at(
    host: &mut Host,
    connections: &mut Connections,
    connection: usize,
    trouble: Trouble,
) -> Result<Turn, AllocError>
    requires { IsThere connections.old.list connection }
    ensures taken { IfOk result (λ turn. TurnServes trouble host.old connection turn host.new
        (λ f. connections.new.list ≡ changed f connections.old.list connection)) }
    ensures refused { OnErr result ((connections.new.list ≡ connections.old.list) × (host.new ≡ host.old)) }
{
    take_turn(
        host,
        &mut connections.items[connection - 1],
        connection,
        trouble,
    )
}

/// Returns the name of the first reel of a stack, or the empty name if it has none.
fn name_of_first(stack: &[ListedReel]) -> &[u8]
    ensures { result.now ≡ first_name (map rest_slot stack.now) }
{
    match stack.first() {
        Some(reel) => reel.name(),
        None => &[],
    }
}

/// Returns the name of the reel that a connection has online, if it has one.
fn name_online(host: &Host, connection: usize) -> Option<&[u8]>
    requires { IsOnlineIn host.now.server connection }
    ensures { option_copied result ≡ name_online_at host.now.server.library (side_at host.now.server.sides connection) }
{
    let session = host.session(connection)?;
    let (drive, _) = session.reel()?;
    Some(name_of_first(host.stack(drive)))
}

/// Returns the name of the reel that a turn opened for writing, if it did.
fn name_opened(host: &Host, connection: usize, turn: Turn) -> Option<&[u8]>
    requires { IsOnlineIn host.now.server connection }
    ensures { option_copied result ≡ opened_in host.now.server connection turn }
{
    let Turn::Carried(carried) = turn else {
        return None;
    };
    let RequestKind::Open { writes: true } = carried.asked else {
        return None;
    };
    name_online(host, connection)
}

/// Whether this is a write by a session that had its device open for writing. If it is open for
/// reading only, the reply is `EBADF` to a record and `EACCES` to marks.
fn is_write(carried: Carried) -> bool
    ensures { result ≡ is_write carried }
{
    match carried.asked {
        RequestKind::Write | RequestKind::WriteDropped | RequestKind::Marks => {
            !matches!(carried.answered, Answered::Error(EBADF | EACCES))
        }
        RequestKind::Open { .. } | RequestKind::Other => false,
    }
}

/// Returns the name of the reel that a turn wrote on, if it did.
fn name_written(host: &Host, connection: usize, turn: Turn) -> Option<&[u8]>
    requires { IsOnlineIn host.now.server connection }
    ensures { option_copied result ≡ written_in host.now.server connection turn }
{
    let Turn::Carried(carried) = turn else {
        return None;
    };
    if !is_write(carried) {
        return None;
    }
    name_online(host, connection)
}

/// Returns the first index of `name` among `names`, or the number of names if it is not there.
fn place_of(names: &[Vec<u8>], name: &[u8]) -> usize
    ensures { result ≡ position_or_len (λ n. bytes_eq name.now n.items) names.now }
{
    for (place, other) in names.iter().enumerate() {
        if name == other.as_slice() {
            return place;
        }
    }
    names.len()
}

/// If the turn opened a reel for writing, appends the opening to `opens`.
fn note_opening(
    opens: &mut Vec<Opening>,
    names: &[Vec<u8>],
    host: &Host,
    connection: usize,
    turn: Turn,
)
    requires room { vec_len opens.old < vec_capacity opens.old }
    requires there { IsOnlineIn host.now.server connection }
    requires known { (name : List ℕ) → opened_in host.now.server connection turn ≡ Some name
        → Contains (map (λ n. n.items) names.now) name }
    ensures { seen_openings names.now opens.new.items ≡ seen_openings names.now opens.old.items
        ++ option_to_list (option_map (opening connection) (opened_in host.now.server connection turn)) }
{
    let Some(name) = name_opened(host, connection, turn) else {
        return;
    };
    let reel = place_of(names, name);
    opens.push_reserved(Opening { connection, reel });
}

/// If the turn wrote on a reel, appends that to `writings`. `after` is how many opens for writing
/// were listed before it.
fn note_writing(
    writings: &mut Vec<Writing>,
    after: usize,
    names: &[Vec<u8>],
    host: &Host,
    connection: usize,
    turn: Turn,
)
    requires room { vec_len writings.old < vec_capacity writings.old }
    requires there { IsOnlineIn host.now.server connection }
    requires known { (name : List ℕ) → written_in host.now.server connection turn ≡ Some name
        → Contains (map (λ n. n.items) names.now) name }
    ensures { seen_writings names.now writings.new.items ≡ seen_writings names.now writings.old.items
        ++ option_to_list (option_map (writing connection after) (written_in host.now.server connection turn)) }
{
    let Some(name) = name_written(host, connection, turn) else {
        return;
    };
    let reel = place_of(names, name);
    let writing = Writing {
        connection,
        reel,
        after,
    };
    writings.push_reserved(writing);
}

/// If the turn opened a reel for writing, appends `list`, the counts that the client has then, to
/// `lists`.
fn note_list(
    lists: &mut Vec<Vec<VolumeCount>>,
    list: Vec<VolumeCount>,
    host: &Host,
    connection: usize,
    turn: Turn,
)
    requires room { vec_len lists.old < vec_capacity lists.old }
    requires there { IsOnlineIn host.now.server connection }
    ensures { seen_lists lists.new.items ≡ seen_lists lists.old.items
        ++ option_to_list (option_map (λ reel. list.items) (opened_in host.now.server connection turn)) }
{
    if name_opened(host, connection, turn).is_some() {
        lists.push_reserved(list);
    }
}

/// Copies the client's counts. The list is empty if there is no client.
fn counted_now(alloc: Global, caller: &Option<WorldClient>) -> Result<Vec<VolumeCount>, AllocError>
    ensures { IfOk result (λ list. list.items ≡ list_in (option_map seen_caller caller.now)) }
{
    match caller {
        Some(caller) => Vec::from_slice(alloc, caller.client.counted()),
        None => Ok(Vec::new(alloc)),
    }
}

impl History {
    /// Reserves room for what a turn may add.
    fn reserve_notes(&mut self) -> Result<(), AllocError>
        ensures room { IfOk result (λ done. HasRoom self.new.rooms) }
        ensures same { IsSameHistory self.old self.new }
    {
        self.opens.reserve(1)?;
        self.lists.reserve(1)?;
        self.writings.reserve(1)
    }

    /// Notes what a turn of a connection opened for writing, with the client's counts, and what it
    /// wrote on.
    fn note_turn(&mut self, list: Vec<VolumeCount>, host: &Host, connection: usize, turn: Turn)
        requires room { HasRoom self.old.rooms }
        requires there { IsOnlineIn host.now.server connection }
        requires opened { (name : List ℕ) → opened_in host.now.server connection turn ≡ Some name → Contains self.old.names name }
        requires written { (name : List ℕ) → written_in host.now.server connection turn ≡ Some name → Contains self.old.names name }
        ensures { IsNoted self.old list.items host.now.server connection turn self.new }
    {
        let after = self.opens.len();
        note_writing(
            &mut self.writings,
            after,
            &self.names,
            host,
            connection,
            turn,
        );
        note_list(&mut self.lists, list, host, connection, turn);
        note_opening(&mut self.opens, &self.names, host, connection, turn);
    }
}

impl WorldState {
    /// Carries out one request that reached the server, or ends the server's side if the bytes that
    /// arrived are not a request. `trouble` says whether and how the request's device call fails.
    pub(crate) fn serve(&mut self, connection: usize, trouble: Trouble) -> Result<(), EventStop>
        requires { IsWorldKept self.old }
        ensures { IsEvent self.old (Serve connection trouble) result self.new }
    {
        if self.connections.find(connection).is_none() {
            return Err(EventStop::NotPossible);
        }
        kept();
        let list = counted_now(self.alloc, &self.caller)?;
        self.history.reserve_notes()?;
        let turn = take_turn_at(&mut self.host, &mut self.connections, connection, trouble)?;
        if let Turn::Nothing = turn {
            return Err(EventStop::NotPossible);
        }
        self.history.note_turn(list, &self.host, connection, turn);
        self.failure = None;
        Ok(())
    }
}
