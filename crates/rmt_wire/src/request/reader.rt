//! A reader of requests.

ghost use Rattle.std.specs.Prelude.{◌≡◌, ℕ, ◌+◌, ◌-◌, ◌≤◌, ◌<◌, ◌↔◌, List, [], ◌++◌, length, take, drop, min, IfOk, IfSome, IsTrue};
ghost use Rattle.rmt_wire.specs.RequestReader as spec;
ghost use Rattle.rmt_wire.specs.Request.{PlainRequest};
ghost use Rattle.rmt_wire.specs.RequestReader.{Unread, IsDropped, IsGiven, taken_of, plain_next_result, IsNext, StaysFaulty};
ghost use Rattle.rmt_wire.specs.RequestKept.{write_line, if_dropped, IsKnown, HasDiscarded};

use crate::fault::WireFault;
use crate::kept::{append, remove};
use crate::limits::{READER_LIMIT, RECORD_LIMIT};
use crate::request::Request;
use crate::request::front::{request_front, write_at};
use bytes::BytesMut;
use line::{dropped_line, line_of};
use std::alloc::{AllocError, Global};
use std::marker::Model;

mod fill;
mod line;
mod stream;

pub use stream::StreamFault;

fn discardable(line: Option<(usize, u32)>, len: usize, dropped: u32) -> usize
    requires within { IfSome line (λ line. line.0 ≤ len) }
    requires dropped { IsDropped (if_dropped line) dropped }
    ensures value { result ≡ spec.discardable_at (if_dropped line) len dropped }
    ensures within { result ≤ len }
{
    match dropped_line(line) {
        None => 0,
        Some((head, count)) => (len - head).min((count - dropped) as usize),
    }
}

/// Discards the data of a dropped write that is the first unread request.
#[tactic(auto, using(std::proofs::lemmas::List::take_rest, crate::proofs::WriteLines::dropped_is, crate::proofs::Nexts::none_let_go, crate::proofs::Dropped::within_some))]
fn discard_data(
    buffer: &mut BytesMut,
    start: usize,
    line: &mut Option<(usize, u32)>,
    dropped: &mut u32,
)
    requires start { start ≤ length buffer.old.items }
    requires line { IsKnown line.old (drop start buffer.old.items) }
    requires dropped { IsDropped (spec.dropped_line (drop start buffer.old.items)) dropped.old }
    ensures discardable { HasDiscarded (spec.held (drop start buffer.old.items) dropped.old) (spec.held (drop start buffer.new.items) dropped.new) }
    ensures line { IsKnown line.new (drop start buffer.new.items) }
    ensures start { start ≤ length buffer.new.items }
    ensures fewer { length buffer.new.items ≤ length buffer.old.items }
    ensures room { length buffer.new.items + buffer.new.spare ≡ length buffer.old.items + buffer.old.spare }
{
    let unread = &buffer.as_slice()[start..];
    *line = line_of(*line, unread);
    let Some((len, count)) = dropped_line(*line) else {
        return;
    };
    let discardable = (unread.len() - len).min((count - *dropped) as usize);
    remove(buffer, start + len, discardable);
    *dropped += discardable as u32;
}

fn first_request(
    unread: &[u8],
    line: Option<(usize, u32)>,
    dropped: u32,
) -> Result<Option<(Request<'_>, usize)>, WireFault>
    requires line { line ≡ write_line unread.now }
    requires within { IfSome line (λ line. line.0 ≤ length unread.now) }
    requires dropped { IsDropped (spec.dropped_line unread.now) dropped }
    ensures next { IsNext (spec.held unread.now dropped) (spec.plain_front_result result) (spec.held_after result (spec.held unread.now dropped)) }
    ensures for_good { StaysFaulty (spec.held unread.now dropped) (spec.plain_front_result result) }
    ensures within { IfOk result (λ o. IfSome o (λ r. r.1 ≤ length unread.now)) }
{
    let Some((len, count)) = line else {
        return request_front(unread);
    };
    if count as usize <= RECORD_LIMIT {
        return Ok(write_at(unread, count, len));
    }
    let left = (count - dropped) as usize;
    if unread.len() - len < left {
        return Ok(None);
    }
    Ok(Some((Request::WriteDropped { count }, len + left)))
}

/// Splits a stream of bytes into requests, and lends their data from its buffer of `READER_LIMIT`
/// bytes.
#[derive(Drop)]
pub struct RequestReader {
    buffer: BytesMut,
    start: usize,
    // The length of the line and the count of a write that is unread first, once its line was read.
    line: Option<(usize, u32)>,
    // How many bytes of its data were discarded, if it is a dropped write.
    dropped: u32,
}

impl Model for RequestReader {
    ghost use Rattle.std.specs.Prelude.{◌≤◌, ◌+◌, ℕ, List, length, drop};
    ghost use Rattle.rmt_wire.specs.RequestReader.{RequestHeld, held, dropped_line, IsDropped};
    ghost use Rattle.rmt_wire.specs.RequestKept.{HasRoom, IsKnown};
    ghost use Rattle.rmt_wire.specs.declared.limits.TheConstants.{READER_LIMIT};

    ghost Value = { RequestHeld };

    ghost view = { λ r. held (drop r.start r.buffer.items) r.dropped };

    ghost invariant = { λ r. (r.start ≤ length r.buffer.items) × (length r.buffer.items ≤ READER_LIMIT)
        × (READER_LIMIT ≤ length r.buffer.items + r.buffer.spare)
        × IsDropped (dropped_line (drop r.start r.buffer.items)) r.dropped
        × HasRoom (held (drop r.start r.buffer.items) r.dropped) × IsKnown r.line (drop r.start r.buffer.items) };
}

impl RequestReader {
    ghost use Rattle.std.specs.Borrow.{sem};
    ghost use Rattle.std.specs.Io.BufRead.{Rests};
    ghost use Rattle.rmt_wire.specs.contracts.request.reader.RequestReader.{the_row};

    /// Returns an empty reader. Fails only if the allocation of `READER_LIMIT` bytes fails.
    pub fn new(alloc: Global) -> Result<RequestReader, AllocError>
        ensures { IfOk result (λ r. Unread r []) }
    {
        Ok(RequestReader {
            buffer: BytesMut::with_capacity(alloc, READER_LIMIT)?,
            start: 0,
            line: None,
            dropped: 0,
        })
    }

    /// Returns whether the reader has no unread bytes. Then it is as a new one.
    #[tactic(auto, using(crate::proofs::Nexts::empty_at))]
    pub fn is_empty(&self) -> bool
        ensures value { (bytes : List ℕ) → Unread self.now bytes → (IsTrue result ↔ (bytes ≡ [])) }
        ensures seen { IsTrue result → Unread self.now [] }
    {
        self.buffer.len() == self.start
    }

    /// Returns how many bytes `push` can take now. Data of a dropped write take no room once every
    /// request before it was returned.
    #[tactic(auto, using(std::proofs::lemmas::List::take_rest, crate::proofs::WriteLines::dropped_is, crate::proofs::Nexts::room_at))]
    pub fn room(&self) -> usize
        ensures { (bytes : List ℕ) → Unread self.now bytes → result + taken_of bytes ≡ READER_LIMIT }
    {
        let unread = &self.buffer.as_slice()[self.start..];
        let line = line_of(self.line, unread);
        READER_LIMIT - (unread.len() - discardable(line, unread.len(), self.dropped))
    }

    /// Takes as many bytes of `piece` as fit, and returns how many.
    #[tactic(auto, using(crate::proofs::Dropped::push_dropped, crate::proofs::WriteLines::known_pushed, crate::proofs::Dropped::push_unread))]
    pub fn push(&mut self, piece: &[u8]) -> usize
        ensures count { (bytes : List ℕ) → Unread self.old bytes → result ≡ min (length piece.now) (READER_LIMIT - taken_of bytes) }
        ensures unread { (bytes : List ℕ) → Unread self.old bytes → Unread self.new (bytes ++ take result piece.now) }
        ensures given { (pushed : List ℕ) (requests : List PlainRequest) →
            IsGiven self.old pushed requests → IsGiven self.new (pushed ++ take result piece.now) requests }
        ensures limit { length self.new.kept ≤ READER_LIMIT }
    {
        discard_data(
            &mut self.buffer,
            self.start,
            &mut self.line,
            &mut self.dropped,
        );
        let start = self.start;
        let room = READER_LIMIT - (self.buffer.len() - start);
        let count = piece.len().min(room);
        self.start = append(&mut self.buffer, start, &piece[..count]);
        discard_data(
            &mut self.buffer,
            self.start,
            &mut self.line,
            &mut self.dropped,
        );
        count
    }

    /// Returns the next request, and lends its data. Returns None if the unread bytes are only a
    /// beginning of one; then there is room for more.
    ///
    /// Fails at the first byte that rules out every request, and with the same fault at each later
    /// call. If no request is returned, the reader is unchanged.
    pub fn next(&mut self) -> Result<Option<Request<'_>>, WireFault>
        ensures* rests { sem 𝓛 (Rests the_row self.entry (λ new. IsNext self.old (plain_next_result result) new)) }
        ensures for_good { StaysFaulty self.old (plain_next_result result) }
    {
        let start = self.start;
        let unread = &self.buffer.as_slice()[start..];
        self.line = line_of(self.line, unread);
        match first_request(unread, self.line, self.dropped)? {
            None => Ok(None),
            Some((request, len)) => {
                self.start = start + len;
                self.line = None;
                self.dropped = 0;
                Ok(Some(request))
            }
        }
    }
}
