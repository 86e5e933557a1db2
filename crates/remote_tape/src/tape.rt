//! A tape drive behind a connection.
ghost use Rattle.std.specs.Prelude.{◌≡◌, ◌≤◌, ℕ, List, Some, IsTrue, IsFalse, map};
ghost use Rattle.rmt_wire.specs.Lent.{plain_request, plain_wanted};
ghost use Rattle.rmt_wire.specs.Number.{IsLine};
ghost use Rattle.rmt_wire.specs.Reply as kinds;
ghost use Rattle.rmt_wire.specs.Reply.Wanted.{Number};
ghost use Rattle.rmt_wire.specs.Request as requests;
ghost use Rattle.rmt_wire.specs.declared.limits.TheConstants.{NUMBER_LIMIT, RECORD_LIMIT};
ghost use Rattle.rmt_wire.specs.declared.mtio.TheConstants.{MTREW, MTOFFL};
ghost use Rattle.rmt_wire.specs.ReplyReader.{IsWithin, ReplyUnread};
ghost use Rattle.refusals.specs.declared.request.TapeRequest.TheVariants as named;
ghost use Rattle.remote_tape.specs.Call.{lent_result, plain_result, wanted_by, Brings, IsReplyAwaited, IsEnough, IsReceivedFrom, IsHeard, IsCalled};
ghost use Rattle.remote_tape.specs.declared.peer.Passed.TheVariants.{Given};
ghost use Rattle.remote_tape.specs.Tape.{IsAsked, IsRecordRead, IsSpace};

use crate::Peer;
use crate::fault::{CallFault, TapeCause, TapeFault};
use crate::reply::{TapeReply, keep};
use refusals::TapeRequest;
use rmt_wire::mtio::{MTOFFL, MTREW};
use rmt_wire::{Reply, ReplyReader, Request, Wanted, push_request};
use std::alloc::{AllocError, Global};

/// Sends requests to a tape drive over a peer, each once. Promises hold after any earlier request,
/// even a failed one. After a request that got no reply, send nothing more over that connection.
#[derive(Drop)]
pub struct RemoteTape {
    alloc: Global,
    reader: ReplyReader,
    text: Vec<u8>,
}

impl RemoteTape {
    /// Fails only if the allocation of `rmt_wire::READER_LIMIT` bytes fails.
    pub fn new(alloc: Global) -> Result<RemoteTape, AllocError> {
        Ok(RemoteTape {
            alloc,
            reader: ReplyReader::new(alloc)?,
            text: Vec::new(alloc),
        })
    }

    /// Opens a device, which is one line of at most `LINE_LIMIT` bytes. The mode is at most
    /// `NUMBER_LIMIT`.
    pub fn open<P: Peer>(&mut self, peer: &mut P, device: &[u8], mode: u32) -> Result<(), TapeFault>
        requires device { IsLine device.now }
        requires mode { mode ≤ NUMBER_LIMIT }
        ensures { IsAsked P.tells named.Open (requests.PlainRequest.Open device.now mode) peer.old peer.new result }
    {
        self.ask(peer, TapeRequest::Open, &Request::Open { device, mode })
    }

    /// Rewinds the reel.
    pub fn rewind<P: Peer>(&mut self, peer: &mut P) -> Result<(), TapeFault>
        ensures { IsAsked P.tells named.Rewind (requests.PlainRequest.Op MTREW 1) peer.old peer.new result }
    {
        let rewind = Request::Op {
            op: MTREW,
            count: 1,
        };
        self.ask(peer, TapeRequest::Rewind, &rewind)
    }

    /// Spaces over `count` marks or records, at most `NUMBER_LIMIT`. `op` is `MTFSF`, `MTBSF`,
    /// `MTFSR` or `MTBSR`.
    pub fn space<P: Peer>(&mut self, peer: &mut P, op: u32, count: u32) -> Result<(), TapeFault>
        requires op { IsSpace op }
        requires count { count ≤ NUMBER_LIMIT }
        ensures { IsAsked P.tells named.Space (requests.PlainRequest.Op op count) peer.old peer.new result }
    {
        self.ask(peer, TapeRequest::Space, &Request::Op { op, count })
    }

    /// Moves the reel to the bin (`MTOFFL`).
    pub fn offline<P: Peer>(&mut self, peer: &mut P) -> Result<(), TapeFault>
        ensures { IsAsked P.tells named.Offline (requests.PlainRequest.Op MTOFFL 1) peer.old peer.new result }
    {
        let offline = Request::Op {
            op: MTOFFL,
            count: 1,
        };
        self.ask(peer, TapeRequest::Offline, &offline)
    }

    /// Closes the device.
    pub fn close<P: Peer>(&mut self, peer: &mut P) -> Result<(), TapeFault>
        ensures { IsAsked P.tells named.Close requests.PlainRequest.Close peer.old peer.new result }
    {
        self.ask(peer, TapeRequest::Close, &Request::Close)
    }

    /// Reads the next record, and lends at most `most` bytes of it, up to `RECORD_LIMIT`. There are
    /// none at a mark or at the end of the reel.
    pub fn read<P: Peer>(&mut self, peer: &mut P, most: u32) -> Result<&[u8], TapeFault>
        requires { most ≤ RECORD_LIMIT }
        ensures { IsRecordRead P.tells most peer.old peer.new result }
    {
        match self.exchange(peer, &Request::Read { count: most }) {
            Ok(Reply::Data { bytes }) => Ok(bytes),
            Ok(Reply::Error { number, .. }) => Err(TapeFault {
                request: TapeRequest::Read,
                cause: TapeCause::Refused(number),
            }),
            // No reply to a read is a number.
            Ok(Reply::Done { .. }) => unreachable!(),
            Err(fault) => Err(TapeFault {
                request: TapeRequest::Read,
                cause: TapeCause::NoReply(fault),
            }),
        }
    }

    /// Sends a request other than a read once, and waits for the whole reply, a number or an error.
    ///
    /// A device is one line of at most `LINE_LIMIT` bytes. A write has at most `RECORD_LIMIT`
    /// bytes. Other numbers are at most `NUMBER_LIMIT`.
    pub fn call<P: Peer>(
        &mut self,
        peer: &mut P,
        request: &Request<'_>,
    ) -> Result<TapeReply, CallFault>
        requires spelling { requests.HasSpelling (plain_request request.now) }
        requires number { wanted_by (plain_request request.now) ≡ Number }
        ensures { IsCalled P.tells (plain_request request.now) (plain_result result) peer.old peer.new }
    {
        let alloc = self.alloc;
        match self.exchange(peer, request) {
            Ok(reply) => match keep(alloc, reply) {
                Ok(answer) => Ok(answer),
                Err(_) => Err(CallFault::OutOfMemory),
            },
            Err(fault) => Err(fault),
        }
    }

    fn ask<P: Peer>(
        &mut self,
        peer: &mut P,
        name: TapeRequest,
        request: &Request<'_>,
    ) -> Result<(), TapeFault>
        requires spelling { requests.HasSpelling (plain_request request.now) }
        requires number { wanted_by (plain_request request.now) ≡ Number }
        ensures { IsAsked P.tells name (plain_request request.now) peer.old peer.new result }
    {
        let cause = match self.call(peer, request) {
            Ok(TapeReply::Done { .. }) => return Ok(()),
            Ok(TapeReply::Error { number, .. }) => TapeCause::Refused(number),
            Err(fault) => TapeCause::NoReply(fault),
        };
        Err(TapeFault {
            request: name,
            cause,
        })
    }

    fn exchange<P: Peer>(
        &mut self,
        peer: &mut P,
        request: &Request<'_>,
    ) -> Result<Reply<'_>, CallFault>
        requires spelling { requests.HasSpelling (plain_request request.now) }
        requires within { IsWithin (wanted_by (plain_request request.now)) }
        ensures { IsCalled P.tells (plain_request request.now) (lent_result result) peer.old peer.new }
    {
        self.text.clear();
        let Ok(()) = push_request(&mut self.text, request) else {
            return Err(CallFault::OutOfMemory);
        };
        if !peer.send(self.text.as_slice()) {
            return Err(CallFault::ConnectionEnded);
        }
        match hear(peer, &mut self.reader, wanted_of(request)) {
            Ok(()) => whole_reply(&self.reader),
            Err(fault) => Err(fault),
        }
    }
}

fn wanted_of(request: &Request<'_>) -> Wanted
    ensures { plain_wanted result ≡ wanted_by (plain_request request.now) }
{
    match *request {
        Request::Read { count } => Wanted::Data(count),
        _ => Wanted::Number,
    }
}

fn receive<P: Peer>(peer: &mut P, reader: &mut ReplyReader) -> usize
    ensures { IsReceivedFrom P.tells peer.old peer.new reader.old reader.new result }
{
    reader.fill(&mut |into: &mut [u8]| peer.receive(into))
}

/// Receives bytes until they are a whole reply, or cannot become one.
fn hear<P: Peer>(peer: &mut P, reader: &mut ReplyReader, wanted: Wanted) -> Result<(), CallFault>
    requires { IsWithin (plain_wanted wanted) }
    ensures { IsHeard P.tells (plain_wanted wanted) reader.new peer.old peer.new result }
{
    reader.clear();
    reader.expect(wanted);
    for turn in 0..u64::MAX {
        if receive(peer, reader) == 0 {
            return Err(CallFault::ConnectionEnded);
        }
        if !is_waiting(reader) {
            return Ok(());
        }
    }
    Err(CallFault::Botched)
}

fn is_waiting(reader: &ReplyReader) -> bool
    ensures more { IsTrue result → (wanted : kinds.Wanted) (bytes : List ℕ) → ReplyUnread reader.now (Some wanted) bytes →
        IsReplyAwaited wanted reader.now bytes }
    ensures enough { IsFalse result → (wanted : kinds.Wanted) (bytes : List ℕ) → ReplyUnread reader.now (Some wanted) bytes → IsEnough wanted bytes }
{
    match reader.peek() {
        Ok(None) => true,
        Ok(Some(_)) => false,
        Err(_) => false,
    }
}

fn whole_reply(reader: &ReplyReader) -> Result<Reply<'_>, CallFault>
    ensures { (wanted : kinds.Wanted) (bytes : List ℕ) → ReplyUnread reader.now (Some wanted) bytes → IsEnough wanted bytes →
        Brings wanted (lent_result result) (map Given bytes) }
{
    match reader.peek() {
        Ok(Some((reply, 0))) => Ok(reply),
        Ok(Some((_, _))) => Err(CallFault::Botched),
        // No reader that no longer waits returns this.
        Ok(None) => Err(CallFault::Botched),
        Err(_) => Err(CallFault::Botched),
    }
}
