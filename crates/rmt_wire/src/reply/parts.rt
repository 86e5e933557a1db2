//! Splits a reply into head and data.

ghost use Rattle.std.specs.Prelude.{◌≡◌, ◌+◌, ◌≤◌, ◌++◌, length};
ghost use Rattle.rmt_wire.specs.Lent.{plain_reply};
ghost use Rattle.rmt_wire.specs.Reply.{PlainReply, ReplyHasSpelling, reply_text};

use crate::limits::{LINE_LIMIT, NUMBER_LIMIT};
use crate::reply::Reply;
use crate::short_text::{ShortText, numbered};

/// An error is all head.
pub fn parts<'a>(reply: &Reply<'a>) -> (ShortText, &'a [u8])
    requires { ReplyHasSpelling (plain_reply reply.now) }
    ensures text { result.0 ++ result.1.now ≡ reply_text (plain_reply reply.now) }
    ensures short { length result.0 + length result.1.now ≤ 2147483659 }
{
    match *reply {
        Reply::Done { number } => (numbered(b'A', number as usize), b""),
        Reply::Data { bytes } => (numbered(b'A', bytes.len()), bytes),
        Reply::Error { number, text } => (error_lines(number, text), b""),
    }
}

fn error_lines(number: u32, text: &[u8]) -> ShortText
    requires number { number ≤ NUMBER_LIMIT }
    requires line { length text.now ≤ LINE_LIMIT }
    ensures text { result ≡ reply_text (PlainReply.Error number text.now) }
    ensures short { length result ≤ LINE_LIMIT + 13 }
{
    let mut lines = numbered(b'E', number as usize);
    lines.push_slice(text);
    lines.push_byte(b'\n');
    lines
}
