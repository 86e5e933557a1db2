//! The client of a dump, over a tape in memory.

use dump_client::{AttemptFault, Client, ListBlocks, Run, State};
use example_client::{Server, Stopped, dump};
use std::alloc::{AllocError, Global};

/// The last requests of a volume: both blocks, the mark, the unload and the close.
const LAST: &[u8] = b"W4\nabcdW4\nefghI0\n1\nI6\n1\nC\n";

/// Returns the reply to a request, which it recognizes by its length. A label's write has 1,030
/// bytes, a block's 7, and the look 6. The look is replied to with no data, and all other requests
/// with 1.
fn reply_to(request: &[u8]) -> &'static [u8] {
    match request.len() {
        1030 => b"A1024\n",
        7 => b"A4\n",
        6 => b"A0\n",
        _ => b"A1\n",
    }
}

/// A tape that keeps all requests and replies that each was carried out.
#[derive(Drop)]
struct Tape {
    heard: Vec<u8>,
}

impl Server for Tape {
    fn answer(&mut self, request: &[u8], reply: &mut Vec<u8>) -> Result<(), AllocError> {
        self.heard.extend_from_slice(request)?;
        reply.extend_from_slice(reply_to(request))
    }
}

/// A server that refuses each request.
#[derive(Drop)]
struct Refusing;

impl Server for Refusing {
    fn answer(&mut self, _: &[u8], reply: &mut Vec<u8>) -> Result<(), AllocError> {
        reply.extend_from_slice(b"E5\nInput/output error\n")
    }
}

/// A client of two blocks of four bytes.
fn client_of(alloc: Global) -> Option<Client<ListBlocks>> {
    let Ok(run) = Run::new(b"/dev/st0", "/usr", 0, 951782400, 0, 4, 2) else {
        return None;
    };
    let Ok(payload) = Vec::from_slice(alloc, b"abcdefgh") else {
        return None;
    };
    Client::new(alloc, run, ListBlocks::new(payload, 4, 2)).ok()
}

/// Whether the client dumps both blocks, and the tape receives all requests.
fn dump_is_met(alloc: Global, client: &mut Client<ListBlocks>) -> bool {
    let mut tape = Tape {
        heard: Vec::new(alloc),
    };
    dump(alloc, client, &mut tape) == Ok(())
        && client.state() == State::Finished
        && client.checkpoint() == (2, 2)
        && tape.heard.len() == 1084
        && tape.heard.as_slice().ends_with(LAST)
}

#[test]
fn a_dump_is_written_and_counted(rt: HostRuntime) {
    let mut client = client_of(rt.alloc()).expect(&rt, "a client");
    assert!(rt; dump_is_met(rt.alloc(), &mut client));
}

/// Whether a refused dump stops with the cause, and leaves the decision to the operator. Another
/// call fails with `NotUnderWay`, and changes nothing.
fn refusal_is_met(alloc: Global, client: &mut Client<ListBlocks>) -> bool {
    dump(alloc, client, &mut Refusing) == Err(Stopped::Failed(AttemptFault::Refused(5)))
        && client.state() == State::Asking
        && dump(alloc, client, &mut Refusing) == Err(Stopped::NotUnderWay)
        && client.state() == State::Asking
}

#[test]
fn a_dump_that_is_refused_stops(rt: HostRuntime) {
    let mut client = client_of(rt.alloc()).expect(&rt, "a client");
    assert!(rt; refusal_is_met(rt.alloc(), &mut client));
}
