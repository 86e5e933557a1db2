//! A search for a mark.
ghost use Rattle.std.specs.Prelude.{◌≡◌, ◌≤◌};
ghost use Rattle.rmt_wire.specs.declared.limits.TheConstants.{NUMBER_LIMIT};
ghost use Rattle.remote_tape.specs.Search as spec;
ghost use Rattle.remote_tape.specs.Search.{IsSought, given_up};

use crate::Peer;
use crate::fault::{TapeCause, TapeFault};
use crate::tape::RemoteTape;
use refusals::TapeRequest;
use rmt_wire::NUMBER_LIMIT;
use rmt_wire::errno::EIO;
use rmt_wire::mtio::{MTBSR, MTFSF, MTFSR};

/// What a search for a mark found.
#[derive(Clone, Copy, Debug, PartialEq, Eq)]
pub enum MarkSearch {
    /// A mark follows. The drive is right behind it.
    Found,
    /// The records reach to the end of the reel.
    Missing,
    /// It cannot be told: this request was refused with this error.
    Refused { request: TapeRequest, number: u32 },
    /// It cannot be told: one request cannot space over so many records.
    TooManyRecords,
}

/// Finds out whether a mark follows the first `records` records of a reel, behind which a read
/// returned nothing.
///
/// It spaces back over one record (MTBSR). If that is done, there is no mark. If that is refused
/// with EIO, it rewinds, and spaces forward over the records (MTFSR) and a mark (MTFSF). If these
/// are done, there is a mark. Any other refusal says nothing of the reel, nor do more than
/// `NUMBER_LIMIT` records.
///
/// Fails if a request gets no reply. Then nothing more is sent.
pub fn find_mark<P: Peer>(
    tape: &mut RemoteTape,
    peer: &mut P,
    records: u64,
) -> Result<MarkSearch, TapeFault>
    ensures { IsSought (λ at_mark. spec.next_back at_mark records) P.tells peer.old peer.new result }
{
    match tape.space(peer, MTBSR, 1) {
        Ok(()) => Ok(MarkSearch::Missing),
        Err(fault) => {
            if fault.cause.is_refused_with(EIO) {
                find_from_start(tape, peer, records)
            } else {
                give_up(fault)
            }
        }
    }
}

fn find_from_start<P: Peer>(
    tape: &mut RemoteTape,
    peer: &mut P,
    records: u64,
) -> Result<MarkSearch, TapeFault>
    ensures { IsSought (λ at_mark. spec.next_again at_mark records) P.tells peer.old peer.new result }
{
    match tape.rewind(peer) {
        Ok(()) => {
            if u64::from(NUMBER_LIMIT) < records {
                Ok(MarkSearch::TooManyRecords)
            } else {
                find_behind(tape, peer, records as u32)
            }
        }
        Err(fault) => give_up(fault),
    }
}

fn find_behind<P: Peer>(
    tape: &mut RemoteTape,
    peer: &mut P,
    records: u32,
) -> Result<MarkSearch, TapeFault>
    requires { records ≤ NUMBER_LIMIT }
    ensures { IsSought (λ at_mark. spec.next_forward at_mark records) P.tells peer.old peer.new result }
{
    match tape.space(peer, MTFSR, records) {
        Ok(()) => find_here(tape, peer),
        Err(fault) => give_up(fault),
    }
}

fn find_here<P: Peer>(tape: &mut RemoteTape, peer: &mut P) -> Result<MarkSearch, TapeFault>
    ensures { IsSought spec.next_over P.tells peer.old peer.new result }
{
    match tape.space(peer, MTFSF, 1) {
        Ok(()) => Ok(MarkSearch::Found),
        Err(fault) => give_up(fault),
    }
}

fn give_up(fault: TapeFault) -> Result<MarkSearch, TapeFault>
    ensures { result ≡ given_up fault }
{
    match fault.cause {
        TapeCause::Refused(number) => Ok(MarkSearch::Refused {
            request: fault.request,
            number,
        }),
        TapeCause::NoReply(_) => Err(fault),
    }
}
