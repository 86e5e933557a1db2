//! A reader of replies.

ghost use Rattle.std.specs.Prelude.{◌≡◌, ℕ, ◌+◌, ◌-◌, ◌≤◌, ◌≢◌, ◌↔◌, Option, Some, None, List, [], ◌++◌, length, take, drop, min, IfOk, IfSome, IsTrue};
ghost use Rattle.rmt_wire.specs.Reply as kinds;
ghost use Rattle.rmt_wire.specs.Lent.{plain_wanted, plain_wanted_if_some};
ghost use Rattle.rmt_wire.specs.ReplyReader as spec;
ghost use Rattle.rmt_wire.specs.ReplyReader.{ReplyUnread, IsPeeked, IsWithin, IsWithinIfSome, kept_while, reply_taken_of, plain_reply_front_result, plain_reply_result, ReplyIsNext, ReplyStaysFaulty};
ghost use Rattle.rmt_wire.specs.ReplyFill.{IsReplyFilled};

use crate::fault::WireFault;
use crate::kept::{append, append_received, remove};
use crate::limits::READER_LIMIT;
use crate::reply::Reply;
use crate::reply::front::{reply_front, surplus};
use crate::reply::wanted::Wanted;
use bytes::BytesMut;
use std::alloc::{AllocError, Global};
use std::marker::Model;

#[tactic(auto, using(crate::proofs::ReplyNexts::some_faulty, crate::proofs::ReplyNexts::none_faulty, crate::proofs::ReplyNexts::some_kept))]
fn first_reply(
    unread: &[u8],
    wanted: Option<Wanted>,
) -> Result<Option<(Reply<'_>, usize)>, WireFault>
    requires { IsWithinIfSome (plain_wanted_if_some wanted) }
    ensures next { let held = spec.reply_held (plain_wanted_if_some wanted) unread.now in
        ReplyIsNext held (spec.plain_reply_front_result result) (spec.reply_held_after result held) }
    ensures for_good { ReplyStaysFaulty (spec.reply_held (plain_wanted_if_some wanted) unread.now) (spec.plain_reply_front_result result) }
    ensures within { IfOk result (λ o. IfSome o (λ r. r.1 ≤ length unread.now)) }
{
    match wanted {
        Some(wanted) => reply_front(unread, wanted),
        None if unread.is_empty() => Ok(None),
        None => Err(WireFault::TooMuchData),
    }
}

/// Removes the end of an error's text that is too long.
fn cut(buffer: &mut BytesMut, start: usize, wanted: Option<Wanted>)
    requires { start ≤ length buffer.old.items }
    ensures kept { drop start buffer.new.items ≡ kept_while (plain_wanted_if_some wanted) (drop start buffer.old.items) }
    ensures start { start ≤ length buffer.new.items }
    ensures fewer { length buffer.new.items ≤ length buffer.old.items }
    ensures room { length buffer.new.items + buffer.new.spare ≡ length buffer.old.items + buffer.old.spare }
{
    if wanted.is_some() {
        let (at, discardable) = surplus(&buffer.as_slice()[start..]);
        remove(buffer, start + at, discardable);
    }
}

/// Splits a stream of bytes into replies (rmt(8)), each of the kind that is waited for. Lends their
/// data or text from its buffer of `READER_LIMIT` bytes.
///
/// A client calls `expect`, sends its request, pushes or fills in the bytes that come, and calls
/// `next` until that returns the reply.
#[derive(Drop)]
pub struct ReplyReader {
    buffer: BytesMut,
    start: usize,
    wanted: Option<Wanted>,
}

impl Model for ReplyReader {
    ghost use Rattle.std.specs.Prelude.{◌≤◌, ◌+◌, length, drop};
    ghost use Rattle.rmt_wire.specs.Lent.{plain_wanted_if_some};
    ghost use Rattle.rmt_wire.specs.declared.limits.TheConstants.{READER_LIMIT};
    ghost use Rattle.rmt_wire.specs.ReplyReader.{ReplyHeld, reply_held, IsWithinIfSome};

    ghost Value = { ReplyHeld };

    ghost view = { λ r. reply_held (plain_wanted_if_some r.wanted) (drop r.start r.buffer.items) };

    ghost invariant = { λ r. (r.start ≤ length r.buffer.items) × (length r.buffer.items ≤ READER_LIMIT)
        × (READER_LIMIT ≤ length r.buffer.items + r.buffer.spare)
        × IsWithinIfSome (plain_wanted_if_some r.wanted) };
}

impl ReplyReader {
    ghost use Rattle.std.specs.Borrow.{sem};
    ghost use Rattle.std.specs.Io.BufRead.{Rests};
    ghost use Rattle.rmt_wire.specs.contracts.reply.reader.ReplyReader.{the_row};

    /// Returns an empty reader that waits for no reply. Fails only if the allocation of
    /// `READER_LIMIT` bytes fails.
    pub fn new(alloc: Global) -> Result<ReplyReader, AllocError>
        ensures { IfOk result (λ r. ReplyUnread r None []) }
    {
        Ok(ReplyReader {
            buffer: BytesMut::with_capacity(alloc, READER_LIMIT)?,
            start: 0,
            wanted: None,
        })
    }

    /// Returns whether the reader has no unread bytes.
    #[tactic(auto, using(crate::proofs::ReplyNexts::empty_at))]
    pub fn is_empty(&self) -> bool
        ensures value { (wanted : Option kinds.Wanted) (bytes : List ℕ) →
            ReplyUnread self.now wanted bytes → (IsTrue result ↔ (bytes ≡ [])) }
        ensures seen { IsTrue result → ReplyUnread self.now self.now.wanted [] }
    {
        self.buffer.len() == self.start
    }

    /// Returns how many bytes `push` can take now. The text of an error takes no room after its
    /// first 255 bytes.
    pub fn room(&self) -> usize
        ensures { (wanted : Option kinds.Wanted) (bytes : List ℕ) →
            ReplyUnread self.now wanted bytes → result + reply_taken_of wanted bytes ≡ READER_LIMIT }
    {
        READER_LIMIT - (self.buffer.len() - self.start)
    }

    /// Sets which kind of reply the reader waits for, from the next byte on. Nothing may be waited
    /// for yet: `next` has returned the last reply, if any. At most `RECORD_LIMIT` bytes of data
    /// may be waited for.
    ///
    /// This clears no fault. If bytes were pushed while nothing was waited for, `next` returns
    /// `TooMuchData` until `clear`.
    pub fn expect(&mut self, wanted: Wanted)
        requires given { self.old.wanted ≡ None }
        requires within { IsWithin (plain_wanted wanted) }
        ensures waits { ReplyUnread self.old None [] → ReplyUnread self.new (Some (plain_wanted wanted)) [] }
        ensures for_good { (bytes : List ℕ) → bytes ≢ [] → ReplyUnread self.old None bytes → ReplyUnread self.new None bytes }
    {
        if self.is_empty() {
            self.wanted = Some(wanted);
        }
    }

    /// Discards all unread bytes and ends the wait for a reply, for a new connection. Allocates
    /// nothing.
    pub fn clear(&mut self)
        ensures { ReplyUnread self.new None [] }
    {
        self.buffer.clear();
        self.start = 0;
        self.wanted = None;
    }

    /// Takes as many bytes of `piece` as fit, and returns how many.
    pub fn push(&mut self, piece: &[u8]) -> usize
        ensures count { (wanted : Option kinds.Wanted) (bytes : List ℕ) →
            ReplyUnread self.old wanted bytes → result ≡ min (length piece.now) (READER_LIMIT - reply_taken_of wanted bytes) }
        ensures unread { (wanted : Option kinds.Wanted) (bytes : List ℕ) →
            ReplyUnread self.old wanted bytes → ReplyUnread self.new wanted (bytes ++ take result piece.now) }
        ensures limit { length self.new.kept ≤ READER_LIMIT }
    {
        let start = self.start;
        let room = READER_LIMIT - (self.buffer.len() - start);
        let count = piece.len().min(room);
        let start = append(&mut self.buffer, start, &piece[..count]);
        self.start = start;
        cut(&mut self.buffer, start, self.wanted);
        count
    }

    /// Calls `receive` once, with a buffer: all the room of the reader. `receive` puts bytes at its
    /// front and returns how many. Returns how many came, at most the room. They are unread then,
    /// as if pushed, and are not copied.
    pub fn fill<F: FnMut(&mut [u8]) -> usize>(&mut self, receive: &mut F) -> usize
        requires { F.IsAlwaysCallable receive.old }
        ensures came { IsReplyFilled (F.step receive.old) receive.new self.old self.new result }
        ensures limit { length self.new.kept ≤ READER_LIMIT }
    {
        remove(&mut self.buffer, 0, self.start);
        self.start = 0;
        let most = READER_LIMIT - self.buffer.len();
        let count = append_received(&mut self.buffer, most, receive);
        cut(&mut self.buffer, 0, self.wanted);
        count
    }

    /// Returns the reply that `next` would return, and how many unread bytes follow it. Returns
    /// None or fails if `next` would. The reply stays in the reader.
    pub fn peek(&self) -> Result<Option<(Reply<'_>, usize)>, WireFault>
        ensures next { IsPeeked self.now result }
        ensures for_good { ReplyStaysFaulty self.now (plain_reply_front_result result) }
    {
        let unread = &self.buffer.as_slice()[self.start..];
        match first_reply(unread, self.wanted)? {
            None => Ok(None),
            Some((reply, len)) => Ok(Some((reply, unread.len() - len))),
        }
    }

    /// Returns the reply that is waited for, and lends its data or the first 255 bytes of an
    /// error's text. Then nothing is waited for. Returns None if the unread bytes are only a
    /// beginning of the reply; then there is room for more. Also returns None if nothing is waited
    /// for and no byte came.
    ///
    /// Fails at the first byte that rules out every reply, and with the same fault until `clear`.
    /// If no reply is returned, the reader is unchanged.
    pub fn next(&mut self) -> Result<Option<Reply<'_>>, WireFault>
        ensures* rests { sem 𝓛 (Rests the_row self.entry (λ new. ReplyIsNext self.old (plain_reply_result result) new)) }
        ensures for_good { ReplyStaysFaulty self.old (plain_reply_result result) }
    {
        let start = self.start;
        match first_reply(&self.buffer.as_slice()[start..], self.wanted)? {
            None => Ok(None),
            Some((reply, len)) => {
                self.start = start + len;
                self.wanted = None;
                Ok(Some(reply))
            }
        }
    }
}
