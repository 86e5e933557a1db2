//! Serves one stream of requests.
ghost use Rattle.std.specs.Prelude.{[]};
ghost use Rattle.rmt_wire.specs.RequestReader.{Unread};
ghost use Rattle.example_server.specs.Serving.{IsServed, Fails};

use crate::reply::answer;
use rmt_wire::{Counted, OutputFault, RequestReader, StreamFault, write_reply};
use std::io::{Read, Write};

/// Why a server stopped.
#[derive(Clone, Copy, Debug, PartialEq, Eq)]
pub enum Stop {
    /// The stream of requests ended inside one, contains bytes that are not a request, or failed.
    Requests(StreamFault),
    /// The stream of replies failed.
    Replies(OutputFault),
}

impl From<StreamFault> for Stop {
    ghost use Rattle.std.specs.Prelude.{◌≡◌};
    ghost use Rattle.example_server.specs.declared.stream.Stop.TheVariants.{Requests};

    ghost from_gives = { λ fault e. e ≡ Requests fault };

    fn from(fault: StreamFault) -> Self {
        Stop::Requests(fault)
    }
}

impl From<OutputFault> for Stop {
    ghost use Rattle.std.specs.Prelude.{◌≡◌};
    ghost use Rattle.example_server.specs.declared.stream.Stop.TheVariants.{Replies};

    ghost from_gives = { λ fault e. e ≡ Replies fault };

    fn from(fault: OutputFault) -> Self {
        Stop::Replies(fault)
    }
}

/// Replies to each request until the stream ends, or stops as `Stop` says. The reader must have
/// given all bytes that were pushed to it. Allocates nothing.
#[tactic(auto, using(std::proofs::lemmas::Result::err_from_is_err_and))]
pub fn serve<R: Read, W: Write>(
    requests: &mut RequestReader,
    input: &mut Counted<R>,
    output: &mut Counted<W>,
) -> Result<(), Stop>
    requires { Unread requests.old [] }
    ensures served { IsServed result (R.remaining input.old.inner) (R.remaining input.new.inner) requests.new
        (W.contents output.old.inner) (W.contents output.new.inner) }
    ensures failures { Fails result input.old.failures input.new.failures output.old.failures output.new.failures }
{
    while let Some(request) = requests.read_next(input)? {
        write_reply(output, &answer(&request))?;
    }
    Ok(())
}
