//! Feeding a reader, and checking that it returns all of it.

ghost use Rattle.std.specs.Prelude.{◌<◌};

use rmt_wire::{RECORD_LIMIT, ReplyReader, RequestReader, Wanted};
use std::alloc::{AllocError, Global};

/// What a reader is fed.
#[derive(Clone, Copy, PartialEq, Eq)]
pub enum Kind {
    /// Writes of the largest record.
    Requests,
    /// Replies with the largest record as data.
    Replies,
    /// Errors whose text is as long as the largest record.
    Errors,
}

impl Kind {
    pub fn named(name: &str) -> Option<Kind> {
        match name {
            "requests" => Some(Kind::Requests),
            "replies" => Some(Kind::Replies),
            "errors" => Some(Kind::Errors),
            _ => None,
        }
    }
}

/// Returns one request or reply of this kind, as it is sent. Fails if an allocation fails.
fn text(alloc: Global, kind: Kind) -> Result<Vec<u8>, AllocError> {
    let (line, end): (&[u8], &[u8]) = match kind {
        Kind::Requests => (b"W262144\n", b""),
        Kind::Replies => (b"A262144\n", b""),
        Kind::Errors => (b"E5\n", b"\n"),
    };
    let mut text = Vec::from_slice(alloc, line)?;
    text.resize(line.len() + RECORD_LIMIT, b'x')?;
    text.extend_from_slice(end)?;
    Ok(text)
}

/// Whether the reader returns the one request of this text, and only after its last piece. `piece`
/// is in bytes.
fn gives_request(reader: &mut RequestReader, text: &[u8], piece: usize) -> bool
    requires { 0 < piece }
{
    let mut is_given = false;
    for part in text.chunks(piece) {
        if is_given || reader.push(part) != part.len() {
            return false;
        }
        is_given = matches!(reader.next(), Ok(Some(_)));
    }
    is_given
}

/// Like `gives_request`, for a reply.
fn gives_reply(reader: &mut ReplyReader, text: &[u8], piece: usize) -> bool
    requires { 0 < piece }
{
    reader.clear();
    reader.expect(Wanted::Data(RECORD_LIMIT as u32));
    let mut is_given = false;
    for part in text.chunks(piece) {
        if is_given || reader.push(part) != part.len() {
            return false;
        }
        is_given = matches!(reader.next(), Ok(Some(_)));
    }
    is_given
}

/// Feeds a reader with `count` of this kind, in pieces of `piece` bytes. Returns whether it
/// returned each of them.
///
/// Fails if an allocation fails.
pub fn feed(alloc: Global, kind: Kind, count: u32, piece: usize) -> Result<bool, AllocError>
    requires { 0 < piece }
{
    let text = text(alloc, kind)?;
    let mut requests = RequestReader::new(alloc)?;
    let mut replies = ReplyReader::new(alloc)?;
    for _ in 0..count {
        let is_given = match kind {
            Kind::Requests => gives_request(&mut requests, &text, piece),
            Kind::Replies | Kind::Errors => gives_reply(&mut replies, &text, piece),
        };
        if !is_given {
            return Ok(false);
        }
    }
    Ok(true)
}
