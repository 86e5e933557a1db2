//! The server of a tape that keeps nothing.
ghost use Rattle.std.specs.Prelude.{[]};
ghost use Rattle.rmt_wire.specs.RequestReader.{Unread};

use example_server::{Stop, serve};
use rmt_wire::{Counted, OutputFault, RequestReader, StreamFault, WireFault};
use std::alloc::Global;
use std::io::{self, ErrorKind, Read, Write};

/// The bytes of a stream, the server's result, and what it writes.
type Row = (&'static [u8], Result<(), Stop>, &'static [u8]);

/// One request of each kind, operations with other counts, a stream that ends inside a request, and
/// one with bytes that are not a request.
static ROWS: [Row; 4] = [
    (
        b"O/dev/st0\n2\nW5\nhelloR5\nI5\n1\nC\n",
        Ok(()),
        b"A0\nA5\nA0\nA1\nA0\n",
    ),
    (
        b"I0\n0\nI6\n7\nI1\n2147483647\n",
        Ok(()),
        b"A0\nA7\nA2147483647\n",
    ),
    (
        b"C\nW5\nhel",
        Err(Stop::Requests(StreamFault::Truncated)),
        b"A0\n",
    ),
    (
        b"C\nX",
        Err(Stop::Requests(StreamFault::Broken(WireFault::UnknownCommand))),
        b"A0\n",
    ),
];

/// Whether the server ends and replies as the row says.
fn row_is_met(alloc: Global, row: &Row) -> bool {
    let (bytes, wanted, replies) = *row;
    let Ok(mut requests) = RequestReader::new(alloc) else {
        return false;
    };
    let mut input = Counted::new(bytes);
    let mut output = Counted::new(Vec::new(alloc));
    let ended = serve(&mut requests, &mut input, &mut output);
    ended == wanted && output.into_inner().as_slice() == replies
}

#[test]
fn each_request_has_one_reply(rt: HostRuntime) {
    for row in &ROWS {
        assert!(rt; row_is_met(rt.alloc(), row));
    }
}

/// A stream that gives a request, its end, and requests again.
#[derive(Drop)]
struct Resumed {
    reads: u8,
}

impl Read for Resumed {
    fn read(&mut self, buf: &mut [u8]) -> io::Result<usize> {
        self.reads = self.reads.saturating_add(1);
        if self.reads == 2 || buf.len() < 2 {
            return Ok(0);
        }
        buf[..2].copy_from_slice(b"C\n");
        Ok(2)
    }
}

/// A stream whose first write fails, and whose later writes succeed.
#[derive(Drop)]
struct Recovered {
    writes: u8,
}

impl Write for Recovered {
    fn write(&mut self, buf: &[u8]) -> io::Result<usize> {
        self.writes = self.writes.saturating_add(1);
        if self.writes == 1 {
            return Err(ErrorKind::BrokenPipe.into());
        }
        Ok(buf.len())
    }

    fn flush(&mut self) -> io::Result<()> {
        Ok(())
    }
}

/// Whether the server stops at the end of its stream, and reads no more.
fn end_is_met(alloc: Global, requests: &mut RequestReader) -> bool
    requires { Unread requests.old [] }
{
    let mut input = Counted::new(Resumed { reads: 0 });
    let mut output = Counted::new(Vec::new(alloc));
    let ended = serve(requests, &mut input, &mut output);
    ended == Ok(())
        && input.into_inner().reads == 2
        && output.into_inner().as_slice() == b"A0\n".as_slice()
}

/// Whether the server stops at a failed write, and writes no more.
fn failure_is_met(requests: &mut RequestReader) -> bool
    requires { Unread requests.old [] }
{
    let bytes: &[u8] = b"C\nC\n";
    let mut input = Counted::new(bytes);
    let mut output = Counted::new(Recovered { writes: 0 });
    let ended = serve(requests, &mut input, &mut output);
    ended == Err(Stop::Replies(OutputFault)) && output.into_inner().writes == 1
}

#[test]
fn reads_no_more_after_the_end(rt: HostRuntime) {
    let mut requests = RequestReader::new(rt.alloc()).expect(&rt, "a reader");
    assert!(rt; end_is_met(rt.alloc(), &mut requests));
}

#[test]
fn writes_no_more_after_a_failed_write(rt: HostRuntime) {
    let mut requests = RequestReader::new(rt.alloc()).expect(&rt, "a reader");
    assert!(rt; failure_is_met(&mut requests));
}
