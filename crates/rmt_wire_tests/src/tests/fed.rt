//! A reader of requests to which a stream is pushed in two pieces.

use super::listener::Next;
use rmt_wire::{Request, RequestReader, WireFault};
use std::alloc::{AllocError, Global};

/// A stream, its requests, the rest after them, and the fault of the rest with how many bytes of
/// the stream show it.
pub(super) type Row<'a> = (
    &'a [u8],
    &'a [Request<'a>],
    &'a [u8],
    Option<(WireFault, usize)>,
);

/// Returns a request as its letter (lower case if its data were dropped), its numbers and its
/// bytes.
fn parts<'a>(request: &Request<'a>) -> (u8, u32, u32, &'a [u8]) {
    match *request {
        Request::Open { device, mode } => (b'O', mode, 0, device),
        Request::Close => (b'C', 0, 0, b""),
        Request::Write { bytes } => (b'W', 0, 0, bytes),
        Request::WriteDropped { count } => (b'w', count, 0, b""),
        Request::Read { count } => (b'R', count, 0, b""),
        Request::Op { op, count } => (b'I', op, count, b""),
    }
}

/// Returns `Wanted` if the request is the wanted one, else `Other`.
fn compared(wanted: Option<&Request<'_>>, request: &Request<'_>) -> Next {
    match wanted {
        Some(wanted) if parts(wanted) == parts(request) => Next::Wanted,
        _ => Next::Other,
    }
}

/// Returns what a reader returns next, compared with the wanted request.
fn next_of(reader: &mut RequestReader, wanted: Option<&Request<'_>>) -> Next {
    match reader.next() {
        Ok(Some(request)) => compared(wanted, &request),
        Ok(None) => Next::None(None),
        Err(fault) => Next::None(Some(fault)),
    }
}

/// Whether a reader has `count` bytes unread.
fn holds(reader: &RequestReader, count: usize) -> bool {
    reader.room().saturating_add(count) == 262156 && reader.is_empty() == (count == 0)
}

/// A reader, how many bytes were pushed to it, and how many requests it returned.
#[derive(Drop)]
struct Fed {
    reader: RequestReader,
    /// How many bytes were pushed.
    pushed: usize,
    /// How many requests were returned.
    given: usize,
}

impl Fed {
    fn new(alloc: Global) -> Result<Fed, AllocError> {
        Ok(Fed {
            reader: RequestReader::new(alloc)?,
            pushed: 0,
            given: 0,
        })
    }

    /// Takes requests from the reader as long as they are the wanted ones. Returns the first result
    /// that is not.
    fn next(&mut self, requests: &[Request<'_>]) -> Next {
        for _ in 0..=requests.len() {
            match next_of(&mut self.reader, requests.get(self.given)) {
                Next::Wanted => self.given = self.given.saturating_add(1),
                other => return other,
            }
        }
        Next::Other
    }

    /// Whether the reader takes this whole piece, then returns requests of the stream, and then the
    /// fault, if the bytes pushed so far show it.
    fn takes(&mut self, piece: &[u8], row: &Row<'_>) -> bool {
        let (_, requests, _, fault) = *row;
        let count = self.reader.push(piece);
        self.pushed = self.pushed.saturating_add(count);
        count == piece.len() && self.next(requests) == Next::None(shown(fault, self.pushed))
    }

    /// Whether all requests were returned, the rest is unread, and a fault stays, whatever is
    /// pushed.
    fn ends(&mut self, row: &Row<'_>) -> bool {
        let (_, requests, rest, fault) = *row;
        self.given == requests.len()
            && holds(&self.reader, rest.len())
            && (fault.is_none() || self.takes(b"", row) && self.takes(b"C\n", row))
    }
}

/// Returns the fault, if `len` bytes show it.
fn shown(fault: Option<(WireFault, usize)>, len: usize) -> Option<WireFault> {
    match fault {
        Some((fault, end)) if end <= len => Some(fault),
        _ => None,
    }
}

/// Whether a reader returns what is in the row if the stream comes in two pieces.
pub(super) fn is_split(alloc: Global, row: &Row<'_>) -> Result<bool, AllocError> {
    let mut fed = Fed::new(alloc)?;
    let (first, second) = row.0.split_at(row.0.len() / 2);
    Ok(fed.takes(first, row) && fed.takes(second, row) && fed.ends(row))
}
