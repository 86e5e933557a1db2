//! Accepts the connections of a listener, as pairs of streams.
ghost use Rattle.std.specs.Prelude.{◌≡◌, ◌+◌, ◌<◌, false, true, IfSome, None, if◌then◌else◌, ◌==◌};
ghost use Rattle.std.specs.IoError.{raw_os_error};
ghost use Rattle.std.proofs.Props.{props};
ghost use Rattle.rmtd_serve.specs.Accepting.{AreOver, IsLasting, lasting_of};
ghost use Rattle.rmtd_serve.specs.declared.status.ExitStatus.TheVariants.{Ended, Failed};

use crate::error_log::text_of;
use crate::incoming::{DropReason, Incoming};
use crate::status::ExitStatus;
use reel_files::Log;
use rmt_wire::errno::{EBADF, EINVAL};
use sockets::{Caller, Listener, Stream};
use std::fmt::Display;
use std::net::TcpStream;
use std::rt::Clock;
use std::time::Duration;
use std::{io, thread};

/// accept(2): the address is not in memory that can be written.
pub const EFAULT: u32 = 14;

/// accept(2): the listener is not a socket.
pub const ENOTSOCK: u32 = 88;

/// accept(2): the listener is a socket of a kind that has no connections.
pub const EOPNOTSUPP: u32 = 95;

/// The pause after a failed accept, in milliseconds. It prevents a busy loop if the table of open
/// files is full.
const PAUSE: u64 = 100;

/// The connections of a listener, up to a limit.
///
/// If an accept fails, which does not count as a connection, it pauses and accepts again, unless
/// the error says that the listener can never accept again. The log has a line for each connection
/// that came, and for each that is not served. Only the first of several consecutive accept
/// failures is logged, and one after which no more connections come.
#[derive(Drop)]
pub struct Connections<'a, C: Clock, L: Log + Drop> {
    clock: &'a C,
    listener: &'a Listener,
    /// How long one read or one write of a connection may make no progress before it fails, if
    /// there is a limit.
    pub idle: Option<Duration>,
    /// How many more connections come, at most.
    pub left: u64,
    /// How many more accepts may fail. At one each 100 milliseconds it does not reach 0 in the life
    /// of a machine.
    pub tries: u64,
    /// The error number after which the listener can never accept again, if there was one.
    pub broken: Option<u32>,
    /// How many connections were accepted.
    pub(crate) number: u64,
    has_failed: bool,
    pub(crate) log: L,
    ghost lasting: { IfSome broken IsLasting } by { Prim.hlevel props },
}

/// Returns the error number, if the listener can never accept again.
fn lasting(why: &io::Error) -> Option<u32>
    ensures { result ≡ lasting_of (raw_os_error why.now) }
{
    let code = why.raw_os_error()?.unsigned_abs();
    if code == EBADF || code == EFAULT || code == EINVAL || code == ENOTSOCK || code == EOPNOTSUPP {
        Some(code)
    } else {
        None
    }
}

impl<'a, C: Clock, L: Log + Drop> Connections<'a, C, L> {
    /// Makes the connections of this listener. The fields say what `left` and `idle` limit. `clock`
    /// measures the pause after a failed accept.
    pub fn new(
        clock: &'a C,
        listener: &'a Listener,
        left: u64,
        idle: Option<Duration>,
        log: L,
    ) -> Self
        ensures left { result.left ≡ left }
        // No clause says that this limit is set on a connection.
        ensures idle { result.idle ≡ idle }
        ensures tries { result.tries ≡ 18446744073709551615 }
        ensures whole { result.broken ≡ None }
    {
        Connections {
            clock,
            listener,
            idle,
            left,
            tries: u64::MAX,
            broken: None,
            number: 0,
            has_failed: false,
            log,
        }
    }

    /// Returns `Ended` if all allowed connections have come, and otherwise `Failed`.
    pub fn status(&self) -> ExitStatus
        ensures { result ≡ if self.now.left == 0 then Ended else Failed }
    {
        if self.left == 0 {
            ExitStatus::Ended
        } else {
            ExitStatus::Failed
        }
    }

    pub(crate) fn is_open(&self) -> bool
        ensures closed { result ≡ false → AreOver self.now.left self.now.tries self.now.broken }
        ensures left { result ≡ true → 0 < self.now.left }
        ensures tries { result ≡ true → 0 < self.now.tries }
    {
        self.left > 0 && self.tries > 0 && self.broken.is_none()
    }

    fn accept(&mut self) -> Option<Stream<TcpStream>>
        requires left { 0 < self.old.left }
        requires tries { 0 < self.old.tries }
        ensures { self.new.left + self.new.tries < self.old.left + self.old.tries }
    {
        match self.listener.accept() {
            Ok((stream, caller)) => self.take(stream, caller),
            Err(why) => {
                self.miss(why);
                None
            }
        }
    }

    fn miss(&mut self, why: io::Error)
        requires { 0 < self.old.tries }
        ensures left { self.new.left ≡ self.old.left }
        ensures tries { self.new.tries + 1 ≡ self.old.tries }
        ensures broken { self.new.broken ≡ lasting_of (raw_os_error why) }
    {
        self.tries -= 1;
        self.broken = lasting(&why);
        if !self.has_failed || self.broken.is_some() {
            self.log
                .note(text_of(format_args!("accept failed: {why}")).as_str());
        }
        self.has_failed = true;
        if self.broken.is_none() {
            thread::sleep(self.clock, Duration::from_millis(PAUSE));
        }
    }

    /// Counts and logs a connection, and sets TCP_NODELAY and the limit `idle`.
    fn take(&mut self, stream: Stream<TcpStream>, caller: Caller) -> Option<Stream<TcpStream>>
        requires { 0 < self.old.left }
        ensures left { self.new.left + 1 ≡ self.old.left }
        ensures tries { self.new.tries ≡ self.old.tries }
    {
        self.left -= 1;
        self.has_failed = false;
        self.number = self.number.saturating_add(1);
        self.note_last(format_args!("accepted {caller}"));
        match stream.make_ready(self.idle) {
            Ok(()) => Some(stream),
            Err(why) => {
                self.note_closed(why);
                None
            }
        }
    }

    /// Accepts the next connection, as a stream to read from and one to write to. Returns None if
    /// none was accepted or could be prepared.
    pub(crate) fn accept_both(&mut self) -> Option<(Stream<TcpStream>, Stream<TcpStream>)>
        requires left { 0 < self.old.left }
        requires tries { 0 < self.old.tries }
        ensures { self.new.left + self.new.tries < self.old.left + self.old.tries }
    {
        let stream = self.accept()?;
        match stream.try_clone() {
            Ok(other) => Some((stream, other)),
            Err(why) => {
                self.note_closed(why);
                None
            }
        }
    }

    fn note_closed<D: Display + Drop>(&self, why: D) {
        self.note_last(format_args!("closed: {why}"));
    }

    fn note_last<D: Display + Drop>(&self, what: D) {
        let number = self.number;
        self.log.note(text_of(format_args!("connection {number}: {what}")).as_str());
    }
}

impl<C: Clock, L: Log + Drop> Incoming for Connections<'_, C, L> {
    type In = Stream<TcpStream>;

    type Out = Stream<TcpStream>;

    ghost is_over = { λ connections. AreOver connections.left connections.tries connections.broken };

    fn next(&mut self) -> Option<(Stream<TcpStream>, Stream<TcpStream>)> {
        while self.is_open() {
            if let Some(pair) = self.accept_both() {
                return Some(pair);
            }
        }
        None
    }

    fn number(&self) -> u64 {
        self.number
    }

    fn dropped(&self, why: DropReason) {
        self.note_closed(why);
    }
}
