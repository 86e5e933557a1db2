//! Tests of the count of failed reads, call by call.

use super::fake::Fake;
use rmt_wire::Counted;
use std::io::{ErrorKind, Read};

/// The result of a read, and how many failures are counted after it.
type Answer = (Result<usize, ErrorKind>, u64);

/// Reads into a buffer of `room` bytes, at most 3.
fn read(input: &mut Counted<Fake>, room: usize) -> Answer {
    let mut piece = [0; 3];
    let given = match input.read(&mut piece[..room.min(3)]) {
        Ok(count) => Ok(count),
        Err(error) => Err(error.kind()),
    };
    (given, input.failures())
}

const KIND: ErrorKind = ErrorKind::Interrupted;

/// The size of the buffer, and the expected result.
static READS: [(usize, Answer); 5] = [
    (3, (Ok(2), 0)),
    (0, (Ok(0), 0)),
    (3, (Err(KIND), 1)),
    (3, (Err(KIND), 2)),
    (3, (Ok(2), 2)),
];

/// A failed read is returned and not retried. A read into an empty buffer is not a failure.
#[test]
fn failed_reads_are_counted(rt: HostRuntime) {
    let mut input = Counted::new(Fake::new(rt.alloc(), 2, 2, 2, Some(KIND)));
    for (room, answer) in &READS {
        assert!(rt; read(&mut input, *room) == *answer);
    }
    assert!(rt; input.into_inner().calls == 5);
}
