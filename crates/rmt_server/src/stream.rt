//! Serves one stream of requests.
ghost use Rattle.std.specs.Prelude.{◌≡◌, ◌<◌, ◌≤◌, ℕ, List, [], Option, None, Ok, Err, OnOk};
ghost use Rattle.rmt_wire.specs.RequestReader.{Unread};
ghost use Rattle.drives.specs.Opening.{kinds};
ghost use Rattle.rmt_server.specs.State.{state, IsAt};
ghost use Rattle.rmt_server.specs.Stream.{serving, streams, AnswersUnread, ConversesAs, ServesAs, NoneFailed};

use crate::session::Session;
use drives::{DriveTable, Holds, Stacks};
use rmt_wire::{Counted, OutputFault, RequestReader, WireFault, write_reply};
use std::io::{Read, Write};
use thiserror::Error;

/// How the stream of a session ended.
#[derive(Clone, Copy, Debug, PartialEq, Eq)]
pub enum Served {
    /// The stream ended between two requests.
    End,
    /// The stream ended inside a request, which was not carried out.
    Truncated,
    /// The stream has bytes that are no request.
    Broken(WireFault),
}

/// Which stream of a session failed.
#[derive(Clone, Copy, Debug, PartialEq, Eq, Error)]
pub enum ServeFault {
    /// A read failed.
    #[error("Input")]
    Input,
    /// A write failed, or accepted none of some bytes.
    #[error("Output")]
    Output,
}

impl From<OutputFault> for ServeFault {
    ghost use Rattle.std.specs.Prelude.{◌≡◌};
    ghost use Rattle.rmt_server.specs.declared.stream.ServeFault.TheVariants.{Output};

    ghost from_gives = { λ _ e. e ≡ Output };

    fn from(_: OutputFault) -> Self {
        ServeFault::Output
    }
}

/// Carries out each whole request that the reader has and writes its reply. Returns the fault if
/// its bytes are no request, or `None` if the rest may still become one. Fails if a reply could not
/// be written.
fn answer_all<W: Write, H: Holds, S: Stacks>(
    output: &mut Counted<W>,
    wire: &mut RequestReader,
    session: &mut Session<H, S>,
    drives: &mut DriveTable<H, S>,
) -> Result<Option<WireFault>, OutputFault>
    requires at { IsAt (kinds H.Holds S.Stacks S.Reel.Reel) (state drives.old session.old) }
    requires held { (bytes : List ℕ) × Unread wire.old bytes }
    ensures at { IsAt (kinds H.Holds S.Stacks S.Reel.Reel) (state drives.new session.new) }
    ensures answers { AnswersUnread (kinds H.Holds S.Stacks S.Reel.Reel) W.Write result
        (serving wire.old output.old drives.old session.old) (serving wire.new output.new drives.new session.new) }
    ensures counted { output.old.failures ≤ output.new.failures }
    ensures steady { OnOk result (output.new.failures ≡ output.old.failures) }
{
    loop {
        match wire.next() {
            Err(fault) => return Ok(Some(fault)),
            Ok(None) => return Ok(None),
            Ok(Some(request)) => {
                let reply = session.carry_out(drives, request);
                write_reply(output, &reply)?;
            }
        }
    }
}

/// Serves requests until the stream ends, its bytes are no request, or a read or write fails.
fn converse<R: Read, W: Write, H: Holds, S: Stacks>(
    input: &mut Counted<R>,
    output: &mut Counted<W>,
    wire: &mut RequestReader,
    session: &mut Session<H, S>,
    drives: &mut DriveTable<H, S>,
) -> Result<Served, ServeFault>
    requires at { IsAt (kinds H.Holds S.Stacks S.Reel.Reel) (state drives.old session.old) }
    requires empty { Unread wire.old [] }
    ensures at { IsAt (kinds H.Holds S.Stacks S.Reel.Reel) (state drives.new session.new) }
    ensures converses { ConversesAs (kinds H.Holds S.Stacks S.Reel.Reel) R.Read W.Write result
        (serving input.old output.old drives.old session.old) (serving input.new output.new drives.new session.new) }
    ensures steady { OnOk result (NoneFailed (streams input.old output.old) (streams input.new output.new)) }
{
    loop {
        match wire.fill(input) {
            Err(_) => return Err(ServeFault::Input),
            Ok(0) if wire.is_empty() => return Ok(Served::End),
            Ok(0) => return Ok(Served::Truncated),
            Ok(_) => {
                if let Some(fault) = answer_all(output, wire, session, drives)? {
                    return Ok(Served::Broken(fault));
                }
            }
        }
    }
}

/// Serves one stream of requests: carries out the requests in order, writes the replies, then ends
/// the session. `drives` must match the session, and `wire` must hold no unread bytes.
///
/// Returns how the stream ended, or fails with the stream that failed. In every case what was open
/// is closed. It allocates nothing itself, and reads directly into the reader's buffer.
pub fn serve<R: Read, W: Write, H: Holds, S: Stacks>(
    input: &mut Counted<R>,
    output: &mut Counted<W>,
    wire: &mut RequestReader,
    session: &mut Session<H, S>,
    drives: &mut DriveTable<H, S>,
) -> Result<Served, ServeFault>
    requires at { IsAt (kinds H.Holds S.Stacks S.Reel.Reel) (state drives.old session.old) }
    requires empty { Unread wire.old [] }
    ensures served { ServesAs (kinds H.Holds S.Stacks S.Reel.Reel) R.Read W.Write result
        (serving input.old output.old drives.old session.old) (serving input.new output.new drives.new session.new) }
    ensures steady { OnOk result (NoneFailed (streams input.old output.old) (streams input.new output.new)) }
    ensures nothing { session.new.opened ≡ None }
{
    let ending = converse(input, output, wire, session, drives);
    session.end(drives);
    ending
}
