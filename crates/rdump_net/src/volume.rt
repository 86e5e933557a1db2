//! Reading a volume back over a peer.
ghost use Rattle.std.specs.Prelude.{◌≡◌, Bool};
ghost use Rattle.rmt_wire.specs.Number.{IsLine};
ghost use Rattle.rmt_wire.specs.Request as requests;
ghost use Rattle.rdump_net.specs.Ends.{copy_ends, copy_kind, sink_ends, sink_kind};
ghost use Rattle.rdump_net.specs.Reading as spec;
ghost use Rattle.rdump_net.specs.Reading.{AreFurtherRecordsGiven, IsBegun, IsClosedUnmarked, IsConcludedAtEnd, IsConcludedAtMark, IsConcludedBySearch, IsDoneNext, IsGivenAtLabel, IsRead, IsReadStatus, IsTakenAwayAtMark, IsTakenAwayOnlyIfKept, IsVolumeCopied, HasReadVolume};
ghost use Rattle.rdump_net.specs.declared.volume.AfterVolume.{AfterVolume};

use crate::Peer;
use crate::fault::ReadFault;
use crate::printing_sink::Outputs;
use crate::sink::{Verdict, VolumeSink};
use console::ExitStatus;
use remote_tape::{
    CallFault, MarkSearch, RemoteTape, TapeCause, TapeFault, TapeRequest, find_mark,
};
use rmt_wire::fcntl::O_RDONLY;
use rmt_wire::{Counted, RECORD_LIMIT};
use std::alloc::Global;
use std::io::Write;

/// What to do with a reel once its volume was read whole.
#[derive(Clone, Copy, Debug, PartialEq, Eq)]
pub enum AfterVolume {
    /// Leave the reel on its stack, and check nothing.
    Stay,
    /// Leave the reel on its stack. If a label was read, check whether a mark ends the volume.
    Check,
    /// Check, and if a mark ends the volume and the sink completes, move the reel to the bin
    /// (`MTOFFL`).
    Offline,
}

/// Reads the first volume of a reel, which stays on its stack (`AfterVolume::Stay`). It prints the
/// label to `out`, up to its first zero byte, and writes the records after it to `file`.
///
/// Returns `Success` if the volume was read whole, else `Abnormal`. The device is one line of at
/// most `LINE_LIMIT` bytes. After a write that failed nothing more is sent. If the reel begins with
/// a mark, or is empty, nothing is printed or written.
pub fn read_volume<P: Peer, F: Write, W: Write>(
    alloc: Global,
    peer: &mut P,
    device: &[u8],
    file: &mut Counted<F>,
    out: &mut Counted<W>,
) -> ExitStatus
    requires { IsLine device.now }
    ensures { IsReadStatus (copy_kind P.tells F.contents W.contents) device.now
        (copy_ends peer.old file.old out.old) (copy_ends peer.new file.new out.new) result }
{
    let mut outputs = Outputs { file, out };
    match copy_out(alloc, peer, device, &mut outputs) {
        Ok(()) => ExitStatus::Success,
        Err(_) => ExitStatus::Abnormal,
    }
}

fn copy_out<P: Peer, F: Write, W: Write>(
    alloc: Global,
    peer: &mut P,
    device: &[u8],
    outputs: &mut Outputs<'_, F, W>,
) -> Result<(), ReadFault>
    requires { IsLine device.now }
    ensures same_file { outputs.new.file.ghost_name ≡ outputs.old.file.ghost_name }
    ensures same_out { outputs.new.out.ghost_name ≡ outputs.old.out.ghost_name }
    ensures copied { IsVolumeCopied (copy_kind P.tells F.contents W.contents) device.now
        (copy_ends peer.old outputs.old.file.now outputs.old.out.now)
        (copy_ends peer.new outputs.new.file.now outputs.new.out.now) result }
{
    copy_volume(alloc, peer, device, AfterVolume::Stay, outputs)
}

/// Reads the first volume of a reel over a new connection, and passes it to `sink`. The sink gets
/// the first record whole, as the label. It gets each later record as a block, numbered from 0, up
/// to the first mark or the end of the reel.
///
/// It opens the device for reading, rewinds, reads record after record, and closes the device.
/// After an error reply to one of these or to MTOFFL, or bytes that are no reply, it sends nothing
/// more. The same holds once the sink stops the read.
///
/// A read returns nothing at a mark, and also at the end of a reel. With `AfterVolume::Check` and
/// `Offline` the function finds out which it was:
///
/// - It spaces back over one record (MTBSR). If that is done, there is no mark: `NoMark`.
/// - If that is refused with EIO, it rewinds, spaces forward over as many records as were read
///   (MTFSR), and over a mark (MTFSF).
/// - Any other refusal, or more than `NUMBER_LIMIT` records, gives `Undetermined`.
///
/// After `NoMark` or `Undetermined` it closes the device, whatever the reply, and the reel stays.
///
/// If there is a mark, the sink is given it and asked to complete. Once it has, `Offline` takes the
/// reel offline, and the close follows. If the connection ends before the reply to MTOFFL comes,
/// the reel may be in the bin.
///
/// If the reel begins with a mark, or is empty, the sink is given nothing, and the reel stays.
///
/// The device is one line of at most `LINE_LIMIT` bytes. The function allocates for one record at a
/// time.
pub fn copy_volume<P: Peer, S: VolumeSink>(
    alloc: Global,
    peer: &mut P,
    device: &[u8],
    after: AfterVolume,
    sink: &mut S,
) -> Result<(), ReadFault>
    requires { IsLine device.now }
    ensures read { IsRead (sink_kind P.tells S.takes) device.now after
        (sink_ends peer.old sink.old) (sink_ends peer.new sink.new) result }
    // The clause `read` implies this.
    ensures kept { IsTakenAwayOnlyIfKept (sink_kind P.tells S.takes) device.now after
        (sink_ends peer.old sink.old) (sink_ends peer.new sink.new) result }
{
    let Ok(mut tape) = RemoteTape::new(alloc) else {
        return Err(ReadFault::Tape(TapeFault::unopened(CallFault::OutOfMemory)));
    };
    if !peer.connect() {
        return Err(ReadFault::Tape(TapeFault::unopened(CallFault::ConnectionEnded)));
    }
    let result = go_through(&mut tape, peer, device, after, sink);
    peer.hang_up();
    result
}

fn go_through<P: Peer, S: VolumeSink>(
    tape: &mut RemoteTape,
    peer: &mut P,
    device: &[u8],
    after: AfterVolume,
    sink: &mut S,
) -> Result<(), ReadFault>
    requires { IsLine device.now }
    ensures { HasReadVolume (sink_kind P.tells S.takes) device.now after
        (sink_ends peer.old sink.old) (sink_ends peer.new sink.new) result }
{
    begin(tape, peer, device)?;
    let records = give_volume(tape, peer, sink)?;
    conclude(tape, peer, after_for_count(after, records), records, sink)
}

fn begin<P: Peer>(tape: &mut RemoteTape, peer: &mut P, device: &[u8]) -> Result<(), ReadFault>
    requires { IsLine device.now }
    ensures { (after : AfterVolume) (completed : Bool) → IsBegun P.tells device.now after completed peer.old peer.new result }
{
    tape.open(peer, device, O_RDONLY)?;
    tape.rewind(peer)?;
    Ok(())
}

fn after_for_count(after: AfterVolume, records: u64) -> AfterVolume
    ensures { result ≡ spec.after_for_count after records }
{
    if records == 0 {
        AfterVolume::Stay
    } else {
        after
    }
}

fn conclude<P: Peer, S: VolumeSink>(
    tape: &mut RemoteTape,
    peer: &mut P,
    goes: AfterVolume,
    records: u64,
    sink: &mut S,
) -> Result<(), ReadFault>
    ensures { IsConcludedAtEnd (sink_kind P.tells S.takes) goes records
        (sink_ends peer.old sink.old) (sink_ends peer.new sink.new) result }
{
    match goes {
        AfterVolume::Stay => close(tape, peer),
        AfterVolume::Check | AfterVolume::Offline => search(tape, peer, goes, records, sink),
    }
}

fn close<P: Peer>(tape: &mut RemoteTape, peer: &mut P) -> Result<(), ReadFault>
    ensures { IsDoneNext P.tells requests.PlainRequest.Close peer.old peer.new result }
{
    match tape.close(peer) {
        Ok(()) => Ok(()),
        Err(fault) => Err(ReadFault::Tape(fault)),
    }
}

fn search<P: Peer, S: VolumeSink>(
    tape: &mut RemoteTape,
    peer: &mut P,
    goes: AfterVolume,
    records: u64,
    sink: &mut S,
) -> Result<(), ReadFault>
    ensures { IsConcludedBySearch (sink_kind P.tells S.takes) goes records
        (sink_ends peer.old sink.old) (sink_ends peer.new sink.new) result }
{
    match find_mark(tape, peer, records) {
        Ok(MarkSearch::Found) => conclude_at_mark(tape, peer, goes, sink),
        Ok(MarkSearch::Missing) => close_unmarked(tape, peer, ReadFault::NoMark),
        Ok(MarkSearch::Refused { .. }) => close_unmarked(tape, peer, ReadFault::Undetermined),
        Ok(MarkSearch::TooManyRecords) => close_unmarked(tape, peer, ReadFault::Undetermined),
        Err(fault) => Err(ReadFault::Tape(fault)),
    }
}

fn conclude_at_mark<P: Peer, S: VolumeSink>(
    tape: &mut RemoteTape,
    peer: &mut P,
    goes: AfterVolume,
    sink: &mut S,
) -> Result<(), ReadFault>
    ensures { IsConcludedAtMark (sink_kind P.tells S.takes) goes
        (sink_ends peer.old sink.old) (sink_ends peer.new sink.new) result }
{
    sink.mark();
    sink.complete()?;
    take_away(tape, peer, goes)?;
    close(tape, peer)
}

fn close_unmarked<P: Peer>(
    tape: &mut RemoteTape,
    peer: &mut P,
    fault: ReadFault,
) -> Result<(), ReadFault>
    ensures { IsClosedUnmarked P.tells fault peer.old peer.new result }
{
    let _ = tape.close(peer);
    Err(fault)
}

fn take_away<P: Peer>(
    tape: &mut RemoteTape,
    peer: &mut P,
    goes: AfterVolume,
) -> Result<(), ReadFault>
    ensures { IsTakenAwayAtMark P.tells goes peer.old peer.new result }
{
    match goes {
        AfterVolume::Stay | AfterVolume::Check => Ok(()),
        AfterVolume::Offline => match tape.offline(peer) {
            Ok(()) => Ok(()),
            Err(fault) => Err(ReadFault::Tape(fault)),
        },
    }
}

/// Gives the sink the label and the blocks. Returns the number of records, the label included.
fn give_volume<P: Peer, S: VolumeSink>(
    tape: &mut RemoteTape,
    peer: &mut P,
    sink: &mut S,
) -> Result<u64, ReadFault>
    ensures { IsGivenAtLabel (sink_kind P.tells S.takes)
        (sink_ends peer.old sink.old) (sink_ends peer.new sink.new) result }
{
    let label = tape.read(peer, RECORD_LIMIT as u32)?;
    if label.is_empty() {
        return Ok(0);
    }
    match sink.label(label) {
        Verdict::GoOn => give_records(tape, peer, sink),
        Verdict::Stop => Err(ReadFault::Stopped),
    }
}

fn give_records<P: Peer, S: VolumeSink>(
    tape: &mut RemoteTape,
    peer: &mut P,
    sink: &mut S,
) -> Result<u64, ReadFault>
    ensures { AreFurtherRecordsGiven (sink_kind P.tells S.takes)
        (sink_ends peer.old sink.old) (sink_ends peer.new sink.new) result }
{
    for records in 1..u64::MAX {
        let bytes = tape.read(peer, RECORD_LIMIT as u32)?;
        if bytes.is_empty() {
            return Ok(records);
        }
        sink.block(records - 1, bytes)?;
    }
    Err(ReadFault::Tape(TapeFault {
        request: TapeRequest::Read,
        cause: TapeCause::NoReply(CallFault::Botched),
    }))
}
