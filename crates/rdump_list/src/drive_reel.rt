//! Reads the first reel of a drive's stack over a connection. Only operations that were done
//! decide: a refusal may be a fault of the device, and a read that returns nothing met a mark or
//! the end.
ghost use Rattle.rmt_wire.specs.Number.{IsLine};

use crate::ListSystem;
use crate::progress::ListProgress;
use crate::undetermined::Undetermined;
use remote_tape::{CallFault, MarkSearch, Peer, RemoteTape, TapeCause, TapeFault, find_mark};
use rmt_wire::RECORD_LIMIT;
use rmt_wire::errno::EIO;
use rmt_wire::fcntl::O_RDONLY;
use rmt_wire::mtio::{MTBSF, MTBSR, MTFSF};
use std::alloc::Global;
use std::io::Write;
use tape::is_record;
use volume_check::{EntryHasher, Holding, ReelContents, ReelTally};

const LONGEST: u32 = RECORD_LIMIT as u32;

/// A drive's reel, as far as it was read.
#[derive(Drop)]
pub(crate) struct DriveReel<'a, R: ListSystem, T: Write + Drop> {
    tally: ReelTally,
    /// The sum of their record file, if that is compared.
    hasher: Option<EntryHasher>,
    progress: Option<ListProgress<'a, R, T>>,
}

impl<'a, R: ListSystem, T: Write + Drop> DriveReel<'a, R, T> {
    /// The sum is computed if `is_summed`.
    pub(crate) fn new(is_summed: bool, mut progress: Option<ListProgress<'a, R, T>>) -> Self {
        if let Some(progress) = &mut progress {
            progress.begin_reel();
        }
        DriveReel {
            tally: ReelTally::new(),
            hasher: is_summed.then(EntryHasher::new),
            progress,
        }
    }

    /// Returns the contents that were read, with 0 for `bytes` and `tail`, which are not known, and
    /// their sum. Clears the line of progress.
    pub(crate) fn into_contents(mut self) -> (ReelContents, Option<EntryHasher>) {
        if let Some(progress) = &mut self.progress {
            progress.clear();
        }
        let (records, marks) = (self.tally.records(), self.tally.marks());
        let contents = ReelContents {
            holding: self.tally.into_holding(),
            records,
            marks,
            bytes: 0,
            tail: 0,
        };
        (contents, self.hasher)
    }

    fn mark(&mut self) {
        self.tally.mark();
        if let Some(hasher) = &mut self.hasher {
            hasher.mark();
        }
    }

    fn record(&mut self, record: &[u8]) {
        self.tally.record(record);
        if let Some(hasher) = &mut self.hasher {
            if is_record(record) {
                hasher.record(record);
            }
        }
        if let Some(progress) = &mut self.progress {
            progress.add(record.len());
        }
    }
}

/// Why a reel was not read to its end.
enum Stopped {
    Undetermined(Undetermined),
    NoReply(TapeFault),
}

impl From<TapeFault> for Stopped {
    fn from(fault: TapeFault) -> Self {
        let request = fault.request;
        match fault.cause {
            TapeCause::Refused(number) => {
                Stopped::Undetermined(Undetermined::Refused { request, number })
            }
            TapeCause::NoReply(_) => Stopped::NoReply(fault),
        }
    }
}

/// Reads the first reel on the stack of this drive, over a connection of its own, and adds its
/// entries to `reel`.
///
/// Returns why the reel's contents could not be determined, if so. Fails if an allocation fails,
/// the connection cannot be made, the open is refused, or a request gets no reply. Then nothing
/// more is sent.
pub(crate) fn read_drive<P: Peer, R: ListSystem, T: Write + Drop>(
    alloc: Global,
    peer: &mut P,
    device: &[u8],
    reel: &mut DriveReel<'_, R, T>,
) -> Result<Option<Undetermined>, TapeFault>
    requires { IsLine device.now }
{
    let Ok(mut tape) = RemoteTape::new(alloc) else {
        return Err(TapeFault::unopened(CallFault::OutOfMemory));
    };
    if !peer.connect() {
        return Err(TapeFault::unopened(CallFault::ConnectionEnded));
    }
    let told = read_open(&mut tape, peer, device, reel);
    peer.hang_up();
    told
}

/// A refusal after the open means that the reel's contents cannot be determined. The reply to the
/// close is ignored.
fn read_open<P: Peer, R: ListSystem, T: Write + Drop>(
    tape: &mut RemoteTape,
    peer: &mut P,
    device: &[u8],
    reel: &mut DriveReel<'_, R, T>,
) -> Result<Option<Undetermined>, TapeFault>
    requires { IsLine device.now }
{
    tape.open(peer, device, O_RDONLY)?;
    let told = match read_reel(tape, peer, reel) {
        Ok(()) => None,
        Err(Stopped::Undetermined(why)) => Some(why),
        Err(Stopped::NoReply(fault)) => return Err(fault),
    };
    let _ = tape.close(peer);
    Ok(told)
}

fn read_reel<P: Peer, R: ListSystem, T: Write + Drop>(
    tape: &mut RemoteTape,
    peer: &mut P,
    reel: &mut DriveReel<'_, R, T>,
) -> Result<(), Stopped> {
    tape.rewind(peer)?;
    read_records(tape, peer, reel)?;
    match reel.tally.holding() {
        Holding::Foreign => Ok(()),
        Holding::Empty => look_for_mark(tape, peer, reel),
        Holding::Volume(_) => look_after(tape, peer, reel),
    }
}

/// Reads until a read returns nothing, or until the records are no volume.
fn read_records<P: Peer, R: ListSystem, T: Write + Drop>(
    tape: &mut RemoteTape,
    peer: &mut P,
    reel: &mut DriveReel<'_, R, T>,
) -> Result<(), Stopped> {
    for _ in 0..u64::MAX {
        let record = tape.read(peer, LONGEST)?;
        if record.is_empty() {
            return Ok(());
        }
        reel.record(record);
        if matches!(reel.tally.holding(), Holding::Foreign) {
            return Ok(());
        }
    }
    Err(Stopped::Undetermined(Undetermined::TooManyRecords))
}

/// Looks for a mark, after the first read returned nothing. If spacing over one is refused, the
/// reel may be empty.
fn look_for_mark<P: Peer, R: ListSystem, T: Write + Drop>(
    tape: &mut RemoteTape,
    peer: &mut P,
    reel: &mut DriveReel<'_, R, T>,
) -> Result<(), Stopped> {
    tape.rewind(peer)?;
    match tape.space(peer, MTFSF, 1).map_err(Stopped::from) {
        Ok(()) => {
            reel.mark();
            Ok(())
        }
        Err(Stopped::Undetermined(_)) => Err(Stopped::Undetermined(Undetermined::NoRecord)),
        Err(stopped) => Err(stopped),
    }
}

/// Looks for what follows the last record, after a read returned nothing.
fn look_after<P: Peer, R: ListSystem, T: Write + Drop>(
    tape: &mut RemoteTape,
    peer: &mut P,
    reel: &mut DriveReel<'_, R, T>,
) -> Result<(), Stopped> {
    let why = match find_mark(tape, peer, reel.tally.records())? {
        MarkSearch::Found => {
            reel.mark();
            let record = tape.read(peer, LONGEST)?;
            if !record.is_empty() {
                reel.record(record);
            } else if has_second_mark(tape, peer)? {
                reel.mark();
            }
            return Ok(());
        }
        MarkSearch::Missing => return Ok(()),
        MarkSearch::Refused { request, number } => Undetermined::Refused { request, number },
        MarkSearch::TooManyRecords => Undetermined::TooManyRecords,
    };
    Err(Stopped::Undetermined(why))
}

/// Whether the read right after the first mark, which returned nothing, passed a second one. If a
/// record is right before the place that spacing back over one mark leads to, there is no second
/// mark.
fn has_second_mark<P: Peer>(tape: &mut RemoteTape, peer: &mut P) -> Result<bool, TapeFault> {
    tape.space(peer, MTBSF, 1)?;
    match tape.space(peer, MTBSR, 1) {
        Ok(()) => Ok(false),
        Err(fault) if fault.cause.is_refused_with(EIO) => {
            tape.rewind(peer)?;
            tape.space(peer, MTFSF, 2)?;
            Ok(true)
        }
        Err(fault) => Err(fault),
    }
}
