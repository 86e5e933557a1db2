//! The stages and states of a client.
ghost use Rattle.std.specs.Prelude.{◌≡◌};
ghost use Rattle.dump_client.specs.Standing.{state_of};

use crate::AttemptFault;
use crate::step::Step;

#[derive(Clone, Copy)]
pub(crate) enum Stage {
    Ready,
    ToSend(Step),
    Waiting(Step),
    Asking,
    Finished,
    Abandoned,
}

/// The state of a client: what it waits for.
#[derive(Clone, Copy, Debug, PartialEq, Eq)]
pub enum State {
    /// An attempt can start.
    Ready,
    /// The next request can be sent.
    ToSend,
    /// The client waits for a reply.
    Waiting,
    /// An attempt failed. The operator decides whether it is tried again.
    Asking,
    /// All blocks are counted.
    Finished,
    /// The operator gave up the run.
    Abandoned,
}

/// The operator's answer after an attempt failed.
#[derive(Clone, Copy, Debug, PartialEq, Eq)]
pub enum Answer {
    /// The volume is tried again.
    Retry,
    /// The run is given up.
    Abandon,
}

/// The result of bytes, or of the end of a connection.
#[derive(Clone, Copy, Debug, PartialEq, Eq)]
pub enum Progress {
    /// The reply is not complete.
    Waiting,
    /// The next request can be sent.
    Send,
    /// The attempt is over, and its volume is counted.
    Ended,
    /// The attempt failed.
    Failed(AttemptFault),
    /// No attempt is under way. Nothing changed.
    Idle,
}

impl Stage {
    pub(crate) fn state(self) -> State
        ensures { result ≡ state_of self }
    {
        match self {
            Stage::Ready => State::Ready,
            Stage::ToSend(_) => State::ToSend,
            Stage::Waiting(_) => State::Waiting,
            Stage::Asking => State::Asking,
            Stage::Finished => State::Finished,
            Stage::Abandoned => State::Abandoned,
        }
    }
}
