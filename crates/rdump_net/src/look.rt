//! A look at the beginning of a drive's first reel, which writes nothing.
ghost use Rattle.std.specs.Prelude.{◌≡◌, ℕ, List, Ok, Err, if◌then◌else◌};
ghost use Rattle.rmt_wire.specs.Number.{IsLine};
ghost use Rattle.rmt_wire.specs.declared.errno.TheConstants.{EIO};
ghost use Rattle.remote_tape.specs.Tape.{is_refused_with};
ghost use Rattle.rdump_net.specs.Look.{IsLook, IsLookPart, IsRecordKept, plain_front};
ghost use Rattle.rdump_net.specs.Look.Finding.{Front, Refusal};
ghost use Rattle.rdump_net.specs.Look.LookStage.{Opening, Rewinding, RewindingAgain, Closing, Closed};
ghost use Rattle.rdump_net.specs.declared.look.ReelFront.TheVariants as fronts;

use crate::Peer;
use dump_run::LABEL_BYTES;
use remote_tape::{CallFault, RemoteTape, TapeCause, TapeFault, TapeRequest};
use rmt_wire::errno::EIO;
use rmt_wire::fcntl::O_RDONLY;
use rmt_wire::mtio::MTFSF;
use std::alloc::Global;

/// The beginning of a reel.
#[derive(Drop)]
pub enum ReelFront {
    /// A record: its first 1,024 bytes, or the whole of a shorter one. There is at least one byte.
    Record(Vec<u8>),
    /// A mark.
    Mark,
    /// Nothing: the reel is empty.
    Empty,
}

/// Finds out what the first reel of a drive begins with, over a new connection.
///
/// It opens the device for reading, rewinds, and reads 1,024 bytes. If that returns no bytes, it
/// rewinds and spaces over one mark. If this is refused with `EIO`, the reel is empty.
///
/// Then it closes the device and waits for the reply, so that the drive is free. It closes the
/// device after a refusal too, unless the open was refused. After a request that gets no reply it
/// sends nothing more.
///
/// The device is one line of at most `LINE_LIMIT` bytes.
///
/// Fails with the first request that was refused, which may be the close. The space that shows that
/// the reel is empty does not count. Fails with `NoReply` if no connection could be made, an
/// allocation failed, no reply came, or the bytes that came are no reply. If the close after a
/// refusal gets no reply, it fails with that.
pub fn look_at_reel<P: Peer>(
    alloc: Global,
    peer: &mut P,
    device: &[u8],
) -> Result<ReelFront, TapeFault>
    requires { IsLine device.now }
    ensures { IsLook P.tells device.now peer.old peer.new result }
{
    let Ok(mut tape) = RemoteTape::new(alloc) else {
        return Err(TapeFault::unopened(CallFault::OutOfMemory));
    };
    if !peer.connect() {
        return Err(TapeFault::unopened(CallFault::ConnectionEnded));
    }
    let found = look_over(alloc, &mut tape, peer, device);
    peer.hang_up();
    found
}

fn look_over<P: Peer>(
    alloc: Global,
    tape: &mut RemoteTape,
    peer: &mut P,
    device: &[u8],
) -> Result<ReelFront, TapeFault>
    requires { IsLine device.now }
    ensures { IsLookPart P.tells device.now Opening Closed peer.old peer.new result }
{
    tape.open(peer, device, O_RDONLY)?;
    match find_front(alloc, tape, peer) {
        Ok(front) => close_found(tape, peer, front),
        Err(fault) => match fault.cause {
            TapeCause::Refused(number) => Err(close_refused(tape, peer, fault.request, number)),
            TapeCause::NoReply(_) => Err(fault),
        },
    }
}

fn find_front<P: Peer>(
    alloc: Global,
    tape: &mut RemoteTape,
    peer: &mut P,
) -> Result<ReelFront, TapeFault>
    ensures { (device : List ℕ) → IsLookPart P.tells device Rewinding Closing peer.old peer.new result }
{
    tape.rewind(peer)?;
    let first = tape.read(peer, LABEL_BYTES as u32)?;
    if first.is_empty() {
        return find_mark(tape, peer);
    }
    keep_record(alloc, first)
}

/// Copies the bytes that the tape lends. A failed allocation is a read without a reply.
fn keep_record(alloc: Global, first: &[u8]) -> Result<ReelFront, TapeFault>
    ensures { IsRecordKept first.now result }
{
    match Vec::from_slice(alloc, first) {
        Ok(bytes) => Ok(ReelFront::Record(bytes)),
        Err(_) => Err(TapeFault {
            request: TapeRequest::Read,
            cause: TapeCause::NoReply(CallFault::OutOfMemory),
        }),
    }
}

fn find_mark<P: Peer>(tape: &mut RemoteTape, peer: &mut P) -> Result<ReelFront, TapeFault>
    ensures { (device : List ℕ) → IsLookPart P.tells device RewindingAgain Closing peer.old peer.new result }
{
    tape.rewind(peer)?;
    match tape.space(peer, MTFSF, 1) {
        Ok(()) => Ok(ReelFront::Mark),
        Err(fault) => no_mark(fault),
    }
}

fn no_mark(fault: TapeFault) -> Result<ReelFront, TapeFault>
    ensures { result ≡ (if is_refused_with EIO fault.cause then Ok fronts.Empty else Err fault) }
{
    if fault.cause.is_refused_with(EIO) {
        return Ok(ReelFront::Empty);
    }
    Err(fault)
}

fn close_found<P: Peer>(
    tape: &mut RemoteTape,
    peer: &mut P,
    front: ReelFront,
) -> Result<ReelFront, TapeFault>
    ensures { (device : List ℕ) → IsLookPart P.tells device (Closing (Front (plain_front front))) Closed
        peer.old peer.new result }
{
    tape.close(peer)?;
    Ok(front)
}

/// Returns the refusal of `refused`, unless the close gets no reply.
fn close_refused<P: Peer>(
    tape: &mut RemoteTape,
    peer: &mut P,
    refused: TapeRequest,
    number: u32,
) -> TapeFault
    ensures { (device : List ℕ) → IsLookPart P.tells device (Closing (Refusal refused number)) Closed
        peer.old peer.new (Err result) }
{
    let fault = TapeFault {
        request: refused,
        cause: TapeCause::Refused(number),
    };
    match tape.close(peer) {
        Ok(()) => fault,
        Err(closing) => match closing.cause {
            TapeCause::Refused(_) => fault,
            TapeCause::NoReply(_) => closing,
        },
    }
}
