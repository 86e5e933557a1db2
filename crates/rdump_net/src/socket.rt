//! A peer over TCP or a Unix socket.

use crate::Peer;
use sockets::{Stream, connect};
use std::io::{self, Read, Write};
use std::net::Net;
use std::rt::Clock;
use std::thread;
use std::time::Duration;

const PAUSE_SECONDS: u64 = 1;

/// A peer at an address `HOST:PORT`, which it reaches over TCP, without delay (TCP_NODELAY), or
/// `unix:PATH`, the path of a Unix socket.
///
/// A timeout limits each wait for bytes of the far end, and each wait until it takes bytes. It also
/// limits how long each address of a host may take to answer. If a wait takes longer, the
/// connection has failed, and `failure` is the error `TimedOut`. Without a timeout only the system
/// may give a connection up. The search for the addresses of a host never has a timeout, nor has
/// the connection to a Unix socket.
///
/// A connection that failed, or that the far end ended, is closed.
///
/// A new connection first waits one second if the latest one could not be made or received no byte,
/// to spare the server.
#[derive(Drop)]
pub struct SocketPeer<'a, R: Net + Clock> {
    runtime: &'a R,
    address: &'a str,
    timeout: Option<Duration>,
    stream: Option<Stream<R::Stream>>,
    failure: Option<io::Error>,
    /// Whether the latest connection could not be made, or has received no byte so far.
    was_silent: bool,
}

impl<'a, R: Net + Clock> SocketPeer<'a, R> {
    /// Returns a peer without a connection. A `timeout` of None is no limit. If it is zero, each
    /// connection fails.
    pub fn new(runtime: &'a R, address: &'a str, timeout: Option<Duration>) -> Self {
        SocketPeer {
            runtime,
            address,
            timeout,
            stream: None,
            failure: None,
            was_silent: false,
        }
    }

    /// Returns the system's error if the latest connection failed or could not be made. None if it
    /// did not fail, or if the far end closed it.
    pub fn failure(&self) -> Option<&io::Error> {
        self.failure.as_ref()
    }

    fn pause(&self) {
        if self.was_silent {
            thread::sleep(self.runtime, Duration::from_secs(PAUSE_SECONDS));
        }
    }

    fn fail(&mut self, error: io::Error) {
        self.stream = None;
        self.failure = Some(error);
    }
}

impl<'a, R: Net + Clock> Peer for SocketPeer<'a, R> {
    ghost tells = { λ _ _. ⊥ };

    fn connect(&mut self) -> bool {
        self.stream = None;
        self.pause();
        self.was_silent = true;
        match connect(self.runtime, self.address, self.timeout) {
            Ok(stream) => {
                self.stream = Some(stream);
                self.failure = None;
                true
            }
            Err(error) => {
                self.fail(error);
                false
            }
        }
    }

    fn send(&mut self, bytes: &[u8]) -> bool {
        let Some(stream) = &mut self.stream else {
            return false;
        };
        match stream.write_all(bytes) {
            Ok(()) => {
                self.failure = None;
                true
            }
            Err(error) => {
                self.fail(error);
                false
            }
        }
    }

    fn receive(&mut self, into: &mut [u8]) -> usize {
        let Some(stream) = &mut self.stream else {
            return 0;
        };
        match stream.read(into) {
            Ok(count) => {
                self.was_silent = self.was_silent && count == 0;
                if count == 0 && !into.is_empty() {
                    self.stream = None;
                }
                count
            }
            Err(error) => {
                self.fail(error);
                0
            }
        }
    }

    fn hang_up(&mut self) {
        self.stream = None;
    }
}
