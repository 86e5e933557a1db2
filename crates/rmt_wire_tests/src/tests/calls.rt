//! The calls that the writer of a reply makes to its stream, and what was written if one of them
//! fails.

ghost use Rattle.rmt_wire.specs.Lent.{plain_reply};
ghost use Rattle.rmt_wire.specs.Reply.{ReplyHasSpelling};

use super::fake::Fake;
use rmt_wire::{Counted, Reply, write_reply};
use std::alloc::Global;
use std::io::{ErrorKind, Write};

/// Whether the stream took these bytes in this many calls.
fn has_taken(fake: &Fake, want: &[u8], calls: usize) -> bool {
    *fake.taken == *want && fake.calls == calls
}

/// Whether the whole text is written in this many calls to a stream that takes at most `piece`
/// bytes a call.
fn is_written_by(alloc: Global, piece: usize, reply: &Reply<'_>, want: &[u8], calls: usize) -> bool
    requires { ReplyHasSpelling (plain_reply reply.now) }
{
    let mut out = Counted::new(Fake::new(alloc, piece, 0, 0, None));
    let is_done = write_reply(&mut out, reply).is_ok() && out.failures() == 0;
    let fake = out.into_inner();
    is_done && has_taken(&fake, want, calls)
}

/// Whether the whole text is written in this many calls to a stream that takes all bytes, and also
/// byte by byte.
pub(super) fn is_written(alloc: Global, reply: &Reply<'_>, want: &[u8], calls: usize) -> bool
    requires { ReplyHasSpelling (plain_reply reply.now) }
{
    is_written_by(alloc, 1000, reply, want, calls)
        && is_written_by(alloc, 1, reply, want, want.len())
}

/// How many bytes a stream takes a call, and how many calls come before the one that fails. Then
/// how that one fails, or None if it takes no byte, and what was taken before it.
type Failure = (usize, usize, Option<ErrorKind>, &'static [u8]);

static FAILURES: [Failure; 10] = [
    (1, 0, None, b""),
    (1, 1, Some(ErrorKind::BrokenPipe), b"A"),
    (1, 2, Some(ErrorKind::Interrupted), b"A3"),
    (1, 3, None, b"A3\n"),
    (1, 4, Some(ErrorKind::BrokenPipe), b"A3\na"),
    (1, 5, Some(ErrorKind::Interrupted), b"A3\nab"),
    (1000, 0, Some(ErrorKind::Interrupted), b""),
    (1000, 0, None, b""),
    (1000, 1, Some(ErrorKind::BrokenPipe), b"A3\n"),
    (1000, 1, None, b"A3\n"),
];

/// Whether the call that fails is the last one, and its failure is the only one counted. A flush is
/// passed on.
fn fails(alloc: Global, failure: &Failure) -> bool {
    let (piece, before, trouble, taken) = *failure;
    let mut out = Counted::new(Fake::new(alloc, piece, before, 1, trouble));
    let is_failed = write_reply(&mut out, &Reply::Data { bytes: b"abc" }).is_err();
    let is_counted = out.flush().is_err() && out.failures() == 1;
    let fake = out.into_inner();
    is_failed && is_counted && has_taken(&fake, taken, before.saturating_add(1))
}

#[test]
fn nothing_is_written_after_a_failed_write(rt: HostRuntime) {
    for failure in &FAILURES {
        assert!(rt; fails(rt.alloc(), failure));
    }
}
