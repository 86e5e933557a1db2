//! A client that sends its next request only after it received the reply to the one before.

ghost use Rattle.std.specs.Prelude.{◌≤◌, length};

use super::CAPACITY;
use super::fixture::{Drives, END, serve_once, two_drives};
use std::alloc::Global;
use std::cell::Cell;
use std::io::{self, ErrorKind, Read, Write};

/// A record is written and read back: each request, and the number of reply bytes up to it.
static READ_BACK: [(&[u8], usize); 7] = [
    (b"O/dev/st0\n2\n", 3),
    (b"W5\nhello", 6),
    (b"I0\n1\n", 9),
    (b"I5\n1\n", 12),
    (b"R10\n", 20),
    (b"R10\n", 23),
    (b"C\n", 26),
];

/// A reader that gives one request of `READ_BACK` per call. It fails unless exactly the requests
/// given so far have their replies.
#[derive(Drop)]
struct Asking<'a> {
    answered: &'a Cell<usize>,
    wanted: usize,
    next: usize,
}

impl Read for Asking<'_> {
    fn read(&mut self, buf: &mut [u8]) -> io::Result<usize> {
        if self.answered.get() != self.wanted {
            return Err(ErrorKind::Other.into());
        }
        let Some((request, wanted)) = READ_BACK.get(self.next) else {
            return Ok(0);
        };
        self.wanted = *wanted;
        self.next = self.next.saturating_add(1);
        let mut request = *request;
        request.read(buf)
    }
}

/// A writer that counts the bytes that were written.
#[derive(Drop)]
struct Answers<'a> {
    answered: &'a Cell<usize>,
}

impl Write for Answers<'_> {
    fn write(&mut self, buf: &[u8]) -> io::Result<usize> {
        let before = self.answered.get();
        self.answered.set(before.saturating_add(buf.len()));
        Ok(buf.len())
    }

    fn flush(&mut self) -> io::Result<()> {
        Ok(())
    }
}

/// Whether all requests get their replies.
fn takes_turns(alloc: Global, drives: &mut Drives) -> bool
    requires { length drives.old.stacks.library.drives ≤ length drives.old.holds.numbers }
{
    let answered = Cell::new(0usize);
    let input = Asking {
        answered: &answered,
        wanted: 0,
        next: 0,
    };
    let output = Answers {
        answered: &answered,
    };
    serve_once(alloc, drives, input, output) == END && answered.get() == 26
}

/// Runs `takes_turns` with new drives.
fn takes_turns_anew(alloc: Global) -> bool {
    match two_drives(alloc, CAPACITY) {
        Some(mut drives) => takes_turns(alloc, &mut drives),
        None => false,
    }
}

#[test]
fn each_request_is_answered_before_the_next_is_read(rt: HostRuntime) {
    assert!(rt; takes_turns_anew(rt.alloc()));
}
