//! The operator's answers.
ghost use Rattle.std.specs.Prelude.{◌≢◌};
ghost use Rattle.rdump_net.specs.declared.observer.Reply.TheVariants as replies;

use crate::Reply;
use std::io::{ErrorKind, Read};

const YES: &[u8] = b"yes";

/// Reads the answers to `retry?` from a stream, one line each.
#[derive(Drop)]
pub struct Answers<R> {
    operator: R,
}

impl<R: Read> Answers<R> {
    /// Reads the answers from this stream.
    pub fn new(operator: R) -> Self {
        Answers { operator }
    }

    /// Reads one line. Returns `Retry` if the line is exactly `yes`, else `Abandon`.
    ///
    /// The end of the input ends its last line, and so does a read that fails.
    pub fn answer(&mut self) -> Reply
        ensures { result ≢ replies.Leave }
    {
        answer(&mut self.operator)
    }
}

pub(crate) fn answer<R: Read>(operator: &mut R) -> Reply
    ensures { result ≢ replies.Leave }
{
    if says_yes(operator) {
        Reply::Retry
    } else {
        Reply::Abandon
    }
}

fn says_yes<R: Read>(operator: &mut R) -> bool {
    let mut wanted = YES;
    let mut agrees = true;
    for _ in 0..u64::MAX {
        match next_byte(operator) {
            None | Some(b'\n') => return agrees && wanted.is_empty(),
            Some(byte) => match wanted.split_first() {
                Some((first, rest)) if *first == byte => wanted = rest,
                _ => agrees = false,
            },
        }
    }
    false
}

fn next_byte<R: Read>(operator: &mut R) -> Option<u8> {
    let mut byte = [0];
    for _ in 0..u64::MAX {
        match operator.read(&mut byte) {
            Ok(0) => return None,
            Ok(_) => return Some(byte[0]),
            Err(error) if error.kind() == ErrorKind::Interrupted => {}
            Err(_) => return None,
        }
    }
    None
}
