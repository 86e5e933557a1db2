//! Why requests to a tape fail.
ghost use Rattle.std.specs.Prelude.{◌≡◌};
ghost use Rattle.refusals.specs.declared.request.TapeRequest.TheVariants as named;
ghost use Rattle.remote_tape.specs.Tape.{is_refused_with};
ghost use Rattle.remote_tape.specs.declared.fault.TapeCause.TheVariants as causes;

use refusals::{Refusal, TapeRequest};
use std::fmt::{self, Display, Formatter, Write};
use std::io;
use thiserror::Error;

/// Why a request got no reply.
#[derive(Clone, Copy, Debug, PartialEq, Eq, Error)]
pub enum CallFault {
    /// The connection ended before the whole reply came.
    #[error("the connection ended")]
    ConnectionEnded,
    /// The bytes that came are no reply to the request, or more than one.
    #[error("no reply by the protocol")]
    Botched,
    /// An allocation for the request or its reply failed.
    #[error("out of memory")]
    OutOfMemory,
}

/// Why a request failed.
#[derive(Clone, Copy, Debug, PartialEq, Eq)]
pub enum TapeCause {
    /// The server refused it with the error of this number.
    Refused(u32),
    /// It got no reply.
    NoReply(CallFault),
}

impl TapeCause {
    /// Returns whether the server refused the request with this error.
    pub fn is_refused_with(self, errno: u32) -> bool
        ensures { result ≡ is_refused_with errno self }
    {
        match self {
            TapeCause::Refused(number) => number == errno,
            TapeCause::NoReply(_) => false,
        }
    }
}

/// A request to a tape that failed.
#[derive(Clone, Copy, Debug, PartialEq, Eq)]
pub struct TapeFault {
    pub request: TapeRequest,
    pub cause: TapeCause,
}

impl TapeFault {
    /// Returns the fault of an open that was not sent.
    pub fn unopened(why: CallFault) -> TapeFault
        ensures request { result.request ≡ named.Open }
        ensures cause { result.cause ≡ causes.NoReply why }
    {
        TapeFault {
            request: TapeRequest::Open,
            cause: TapeCause::NoReply(why),
        }
    }
}

impl Display for TapeFault {
    fn fmt<W: Write>(&self, f: &mut Formatter<W>) -> fmt::Result {
        match self.cause {
            TapeCause::Refused(number) => write!(f, "{} refused with E{number}", self.request),
            TapeCause::NoReply(fault) => write!(f, "{fault}"),
        }
    }
}

/// Prints why a request failed, and what to do after a refusal.
#[derive(Clone, Copy)]
pub struct FaultReport<'a> {
    pub fault: TapeFault,
    pub device: &'a str,
    /// The system's error, if there is one. It is printed in place of `ConnectionEnded`.
    pub failure: Option<&'a io::Error>,
}

impl Display for FaultReport<'_> {
    fn fmt<W: Write>(&self, f: &mut Formatter<W>) -> fmt::Result {
        let TapeFault { request, cause } = self.fault;
        match (cause, self.failure) {
            (TapeCause::Refused(number), _) => {
                let refusal = Refusal::new(request, number, self.device);
                write!(f, "{}: {refusal}", self.fault)
            }
            (TapeCause::NoReply(CallFault::ConnectionEnded), Some(error)) => write!(f, "{error}"),
            (TapeCause::NoReply(fault), _) => write!(f, "{fault}"),
        }
    }
}
