//! A reply that a tape keeps.
ghost use Rattle.std.specs.Prelude.{◌≡◌, IfOk};
ghost use Rattle.rmt_wire.specs.Lent.{plain_reply};
ghost use Rattle.remote_tape.specs.Call.{Answers, plain_number};
ghost use Rattle.remote_tape.specs.Calls.{is_done};

use rmt_wire::Reply;
use std::alloc::{AllocError, Global};

/// A reply to a request, without the data of a read.
#[derive(Drop)]
pub enum TapeReply {
    /// The number is at most `NUMBER_LIMIT`. After a read it is how many bytes came.
    Done { number: u64 },
    /// At most `LINE_LIMIT` bytes of the text are kept.
    Error { number: u32, text: Vec<u8> },
}

impl TapeReply {
    /// Returns whether the request was done.
    pub fn is_done(&self) -> bool
        ensures { result ≡ is_done (plain_number self.now) }
    {
        matches!(self, TapeReply::Done { .. })
    }
}

/// Fails only if an allocation fails.
pub(crate) fn keep(alloc: Global, reply: Reply<'_>) -> Result<TapeReply, AllocError>
    ensures { IfOk result (λ a. Answers a (plain_reply reply.entry)) }
{
    match reply {
        Reply::Done { number } => Ok(TapeReply::Done {
            number: u64::from(number),
        }),
        Reply::Data { bytes } => Ok(TapeReply::Done {
            number: bytes.len() as u64,
        }),
        Reply::Error { number, text } => {
            let text = Vec::from_slice(alloc, text)?;
            Ok(TapeReply::Error { number, text })
        }
    }
}
