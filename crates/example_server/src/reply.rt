//! The replies of a tape that keeps nothing.
ghost use Rattle.std.specs.Prelude.{◌≡◌, List, ℕ};
ghost use Rattle.rmt_wire.specs.Lent.{plain_request, plain_reply};
ghost use Rattle.rmt_wire.specs.Request.{SpellsRequest};
ghost use Rattle.rmt_wire.specs.Reply.{ReplyHasSpelling};
ghost use Rattle.example_server.specs.Serving.{answer_to};

use rmt_wire::errno::EINVAL;
use rmt_wire::{Reply, Request};

/// Returns the tape's reply to a request. A write takes all its bytes, a read finds none, and an
/// operation returns its count. A write whose bytes were dropped gets `EINVAL`.
pub fn answer(request: &Request<'_>) -> Reply<'static>
    requires { (text : List ℕ) × SpellsRequest text (plain_request request.now) }
    ensures value { plain_reply result ≡ answer_to (plain_request request.now) }
    ensures spelling { ReplyHasSpelling (plain_reply result) }
{
    match *request {
        Request::Open { .. } | Request::Close => Reply::Done { number: 0 },
        Request::Op { count, .. } => Reply::Done { number: count },
        Request::Write { bytes } => Reply::Done {
            number: bytes.len() as u32,
        },
        Request::WriteDropped { .. } => Reply::Error {
            number: EINVAL,
            text: b"Invalid argument",
        },
        Request::Read { .. } => Reply::Data { bytes: b"" },
    }
}
