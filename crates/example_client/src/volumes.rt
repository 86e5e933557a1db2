//! The loop around a client.
ghost use Rattle.std.specs.Prelude.{OnOk};
ghost use Rattle.example_client.specs.Whole.{IsWhole};

use crate::server::Server;
use dump_client::{AttemptFault, Blocks, Client, Progress, StartFault, State};
use std::alloc::{AllocError, Global};

/// Why a dump stopped. Counted volumes stay counted.
#[derive(Clone, Copy, Debug, PartialEq, Eq)]
pub enum Stopped {
    /// An attempt failed with this error.
    Failed(AttemptFault),
    /// The client asks whether to retry an attempt, or the run was abandoned.
    NotUnderWay,
    /// An allocation failed.
    OutOfMemory,
}

impl From<AllocError> for Stopped {
    ghost use Rattle.std.specs.Prelude.{◌≡◌};
    ghost use Rattle.example_client.specs.declared.volumes.Stopped.TheVariants.{OutOfMemory};

    ghost from_gives = { λ _ e. e ≡ OutOfMemory };

    fn from(_: AllocError) -> Self {
        Stopped::OutOfMemory
    }
}

impl From<StartFault> for Stopped {
    ghost use Rattle.std.specs.Prelude.{◌≡◌};
    ghost use Rattle.example_client.specs.Whole.{stopped_by};

    ghost from_gives = { λ fault stopped. stopped ≡ stopped_by fault };

    fn from(fault: StartFault) -> Self {
        match fault {
            StartFault::OutOfMemory => Stopped::OutOfMemory,
            StartFault::WrongState => Stopped::NotUnderWay,
        }
    }
}

fn exchange<B: Blocks + Drop, S: Server>(
    client: &mut Client<B>,
    server: &mut S,
    request: &mut Vec<u8>,
    reply: &mut Vec<u8>,
) -> Result<(), Stopped> {
    request.clear();
    reply.clear();
    match client.next_request(request) {
        Ok(_) => server.answer(request.as_slice(), reply)?,
        Err(fault) => return Err(Stopped::Failed(fault)),
    }
    match client.feed(reply.as_slice()) {
        Progress::Failed(fault) => Err(Stopped::Failed(fault)),
        Progress::Waiting => end(client),
        _ => Ok(()),
    }
}

fn end<B: Blocks + Drop>(client: &mut Client<B>) -> Result<(), Stopped> {
    match client.ended() {
        Progress::Failed(fault) => Err(Stopped::Failed(fault)),
        _ => Ok(()),
    }
}

/// Makes a client write all volumes of its run that are not counted, each in one attempt. Stops at
/// the first attempt that fails. `Ok` means that the run is finished.
pub fn dump<B: Blocks + Drop, S: Server>(
    alloc: Global,
    client: &mut Client<B>,
    server: &mut S,
) -> Result<(), Stopped>
    // No clause says what the server kept, or when a dump stops.
    ensures { OnOk result (IsWhole client.new.at) }
{
    let mut request = Vec::new(alloc);
    let mut reply = Vec::new(alloc);
    for _ in 0..u64::MAX {
        match client.state() {
            State::Finished => return Ok(()),
            State::Ready => client.start()?,
            State::ToSend => exchange(client, server, &mut request, &mut reply)?,
            State::Waiting => end(client)?,
            State::Asking | State::Abandoned => return Err(Stopped::NotUnderWay),
        }
    }
    Err(Stopped::NotUnderWay)
}
