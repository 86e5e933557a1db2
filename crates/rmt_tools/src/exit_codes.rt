//! The calls that end a command, with the number of their exit status.
ghost use Rattle.dump_files.specs.Dates.{IsDates, plain_asked};
ghost use Rattle.rdump_net.specs.Ends.{copy_ends, copy_kind, stream_ends, stream_kind};
ghost use Rattle.rdump_net.specs.Lines.{IsDumped};
ghost use Rattle.rdump_net.specs.Operation.{IsMt};
ghost use Rattle.rdump_net.specs.Reading.{IsReadStatus};
ghost use Rattle.rdump_net.specs.Talk.{FromAny, TalksOver};
ghost use Rattle.rmt_tools.specs.Codes.{HasCode};
ghost use Rattle.rmt_wire.specs.Number.{IsLine};
ghost use Rattle.rmt_wire.specs.declared.limits.TheConstants.{NUMBER_LIMIT};
ghost use Rattle.rsim_schedule.specs.Ending.{IsScheduled};
ghost use Rattle.std.specs.Prelude.{◌≤◌};

use dump_client::{Blocks, Client};
use rdump_net::Peer;
use rmt_wire::Counted;
use std::alloc::Global;
use std::io::{Read, Write};

/// Makes a client write the volumes of its run to a tape server, as `rdump_net::dump` does. Returns
/// the exit status of `rdump dump`: 0 if the run is finished and every line was printed, else 3.
pub fn dump<B: Blocks, P: Peer, R: Read, W: Write>(
    alloc: Global,
    client: &mut Client<B>,
    peer: &mut P,
    operator: &mut R,
    out: &mut Counted<W>,
) -> u8
    ensures talks { TalksOver B.holds FromAny P.tells client.old client.new peer.old peer.new }
    ensures printed { HasCode (IsDumped W.contents client.old.at.counts client.new.at out.old out.new) result }
{
    rdump_net::dump(alloc, client, peer, operator, out).code()
}

/// Reads the first volume of a reel, as `rdump_net::read_volume` does. Returns the exit status: 0
/// if the volume was read whole, else 3. The device is one line of at most `LINE_LIMIT` bytes.
pub fn read_volume<P: Peer, F: Write, W: Write>(
    alloc: Global,
    peer: &mut P,
    device: &[u8],
    file: &mut Counted<F>,
    out: &mut Counted<W>,
) -> u8
    requires { IsLine device.now }
    ensures { HasCode (IsReadStatus (copy_kind P.tells F.contents W.contents) device.now
        (copy_ends peer.old file.old out.old) (copy_ends peer.new file.new out.new)) result }
{
    rdump_net::read_volume(alloc, peer, device, file, out).code()
}

/// Does one mtio operation, as `rdump_net::mt` does. Returns the exit status of `rdump mt`: 0 if
/// the operation was done and its reply was printed, else 3. The device is one line of at most
/// `LINE_LIMIT` bytes, and both numbers are at most `NUMBER_LIMIT`.
pub fn mt<P: Peer, W: Write>(
    alloc: Global,
    peer: &mut P,
    device: &[u8],
    op: u32,
    count: u32,
    out: &mut Counted<W>,
) -> u8
    requires device { IsLine device.now }
    requires op { op ≤ NUMBER_LIMIT }
    requires count { count ≤ NUMBER_LIMIT }
    ensures { HasCode (IsMt (stream_kind P.tells W.contents) device.now op count
        (stream_ends peer.old out.old) (stream_ends peer.new out.new)) result }
{
    rdump_net::mt(alloc, peer, device, op, count, out).code()
}

/// Prints on `out` what `rdump dates` prints for a dumpdates file, as `dump_files::dates` does.
/// Returns the exit status of `rdump dates`: 0 if the answer was printed, else 1.
pub fn dates<W: Write>(
    alloc: Global,
    file: &[u8],
    asked: Option<(&str, u8)>,
    out: &mut Counted<W>,
) -> u8
    ensures { HasCode (IsDates W.contents file.now (plain_asked asked.entry) out.old out.new) result }
{
    dump_files::dates(alloc, file, asked, out).code()
}

/// Runs a schedule, as `rsim_schedule::schedule` does. Returns the exit status of `rsim`: 0 if all
/// lines were run, 1 if a line is faulty, and 3 if an allocation or a write failed.
pub fn schedule<W: Write>(alloc: Global, text: &[u8], out: &mut Counted<W>) -> u8
    ensures { HasCode (λ status. IsScheduled W.contents out.old status out.new) result }
{
    rsim_schedule::schedule(alloc, text, out).code()
}
