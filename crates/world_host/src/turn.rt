//! The outcome of one turn of a connection.
ghost use Rattle.std.specs.Prelude.{◌≡◌};
ghost use Rattle.rmt_wire.specs.Lent.{plain_request, plain_reply};
ghost use Rattle.rmt_server.specs.Access.{access_of};
ghost use Rattle.world_host.specs.Turns.{writes_for, asked_of, answered_of, carried_of};

use rmt_wire::fcntl::{ACCESS_MODES, O_RDWR, O_WRONLY};
use rmt_wire::mtio::MTWEOF;
use rmt_wire::{Reply, Request, WireFault};

/// The kind of a request that was carried out.
#[derive(Clone, Copy, Debug, PartialEq, Eq)]
pub enum RequestKind {
    /// An open of a device. `writes` says whether it is for writing: the mode modulo `ACCESS_MODES`
    /// is `O_WRONLY`, or `O_RDWR` for both.
    Open { writes: bool },
    /// A write of a record.
    Write,
    /// A write of more bytes than a record can have, which were dropped.
    WriteDropped,
    /// A write of marks (`MTWEOF`).
    Marks,
    Other,
}

/// The reply to a request.
#[derive(Clone, Copy, Debug, PartialEq, Eq)]
pub enum Answered {
    /// The request was done. The reply has this number.
    Number(u32),
    /// The reply has the bytes that a read returned.
    Data,
    /// The request failed with the error of this number.
    Error(u32),
}

/// A request that was carried out.
#[derive(Clone, Copy, Debug, PartialEq, Eq)]
pub struct Carried {
    pub asked: RequestKind,
    pub answered: Answered,
}

/// The outcome of one turn of a connection.
#[derive(Clone, Copy, Debug, PartialEq, Eq)]
pub enum Turn {
    /// Nothing was done: the server's side is not live, or no whole request was pushed.
    Nothing,
    Carried(Carried),
    /// The bytes are no request, and the server's side has ended.
    Broken(WireFault),
}

fn opens_to_write(mode: u32) -> bool
    ensures { result ≡ writes_for (access_of mode) }
{
    matches!(mode % ACCESS_MODES, O_WRONLY | O_RDWR)
}

impl RequestKind {
    fn of(request: &Request<'_>) -> RequestKind
        ensures { result ≡ asked_of (plain_request request.now) }
    {
        match *request {
            Request::Open { mode, .. } => RequestKind::Open {
                writes: opens_to_write(mode),
            },
            Request::Write { .. } => RequestKind::Write,
            Request::WriteDropped { .. } => RequestKind::WriteDropped,
            Request::Op { op, .. } if op == MTWEOF => RequestKind::Marks,
            Request::Op { .. } | Request::Close | Request::Read { .. } => RequestKind::Other,
        }
    }
}

impl Answered {
    fn of(reply: &Reply<'_>) -> Answered
        ensures { result ≡ answered_of (plain_reply reply.now) }
    {
        match *reply {
            Reply::Done { number } => Answered::Number(number),
            Reply::Data { .. } => Answered::Data,
            Reply::Error { number, .. } => Answered::Error(number),
        }
    }
}

impl Carried {
    pub(crate) fn new(request: &Request<'_>, reply: &Reply<'_>) -> Carried
        ensures { result ≡ carried_of (plain_request request.now) (plain_reply reply.now) }
    {
        Carried {
            asked: RequestKind::of(request),
            answered: Answered::of(reply),
        }
    }
}
