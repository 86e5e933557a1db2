//! The server's side of one connection.
ghost use Rattle.std.specs.Prelude.{◌≡◌, ◌≤◌, true, Some, None, MatchResult, length, vec_len, vec_capacity};
ghost use Rattle.std.specs.Option.{option_copied};
ghost use Rattle.drives.specs.Holding.{HoldsJust};
ghost use Rattle.world_host.specs.Servers.{side_at, with_side_at};
ghost use Rattle.world_host.specs.Hosting.{is_nothing, is_whole_side, IsIdle, IsFresh, IsMade};

use drives::{ListStacks, LocalHolds, LocalSeat};
use rmt_server::Session;
use rmt_wire::RequestReader;
use std::alloc::{AllocError, Global};

#[derive(Drop)]
pub(crate) struct ServerConnection {
    pub(crate) reader: RequestReader,
    pub(crate) session: Session<LocalHolds, ListStacks>,
}

/// The server's side of the next connection, as far as it is made.
#[derive(Drop)]
pub(crate) enum Next {
    Nothing,
    Seat(LocalSeat),
    Whole(ServerConnection),
}

impl Next {
    pub(crate) fn is_nothing(&self) -> bool
        ensures { result ≡ is_nothing self.now }
    {
        match self {
            Next::Nothing => true,
            Next::Seat(_) | Next::Whole(_) => false,
        }
    }

    /// Makes the rest of it from its seat. If that fails, it stays as it is.
    pub(crate) fn made(self, alloc: Global) -> (Next, Result<(), AllocError>)
        requires { IsIdle self }
        ensures made { IsMade self result.0 }
        ensures outcome { MatchResult result.1 (λ _. is_whole_side result.0 ≡ true) (λ _. result.0 ≡ self) }
    {
        match self {
            Next::Nothing => (Next::Nothing, Err(AllocError)),
            Next::Seat(seat) => match ServerConnection::new(alloc, seat) {
                Ok(side) => (Next::Whole(side), Ok(())),
                Err((seat, error)) => (Next::Seat(seat), Err(error)),
            },
            Next::Whole(side) => (Next::Whole(side), Ok(())),
        }
    }

    pub(crate) fn is_whole(&self) -> bool
        ensures { result ≡ is_whole_side self.now }
    {
        match self {
            Next::Nothing | Next::Seat(_) => false,
            Next::Whole(_) => true,
        }
    }
}

impl ServerConnection {
    /// Makes the server's side of a connection. Returns the seat if an allocation fails.
    pub(crate) fn new(
        alloc: Global,
        seat: LocalSeat,
    ) -> Result<ServerConnection, (LocalSeat, AllocError)>
        requires { HoldsJust seat None }
        ensures { MatchResult result (λ s. IsFresh seat s) (λ refused. refused.0 ≡ seat) }
    {
        let reader = match RequestReader::new(alloc) {
            Ok(reader) => reader,
            Err(error) => return Err((seat, error)),
        };
        match Session::new(alloc, seat) {
            Ok(session) => Ok(ServerConnection { reader, session }),
            Err(refused) => Err(refused),
        }
    }
}

pub(crate) fn find_side(
    sides: &[Option<ServerConnection>],
    connection: usize,
) -> Option<&ServerConnection>
    ensures { option_copied result ≡ side_at sides.now connection }
{
    let place = connection.checked_sub(1)?;
    let side = sides.get(place)?;
    side.as_ref()
}

pub(crate) fn take_side(
    sides: &mut Vec<Option<ServerConnection>>,
    connection: usize,
) -> Option<ServerConnection>
    ensures taken { result ≡ side_at sides.old.items connection }
    ensures left { sides.new.items ≡ with_side_at sides.old.items connection None }
    ensures len { vec_len sides.new ≡ vec_len sides.old }
    ensures room { vec_capacity sides.new ≡ vec_capacity sides.old }
{
    if connection == 0 || sides.len() < connection {
        return None;
    }
    let side = &mut sides[connection - 1];
    side.take()
}

pub(crate) fn put_side(
    sides: &mut Vec<Option<ServerConnection>>,
    connection: usize,
    side: ServerConnection,
)
    requires first { 1 ≤ connection }
    requires last { connection ≤ length sides.old.items }
    ensures put { sides.new.items ≡ with_side_at sides.old.items connection (Some side) }
    ensures len { vec_len sides.new ≡ vec_len sides.old }
    ensures room { vec_capacity sides.new ≡ vec_capacity sides.old }
{
    let place = &mut sides[connection - 1];
    *place = Some(side);
}
