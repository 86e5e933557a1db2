//! The copy of one reel.
ghost use Rattle.rmt_wire.specs.Number.{IsLine};
ghost use Rattle.rdump_net.specs.Ends.{sink_ends, sink_kind};
ghost use Rattle.rdump_net.specs.Reading.{IsRead};
ghost use Rattle.rdump_net.specs.declared.volume.AfterVolume.TheVariants.{Offline};
ghost use Rattle.rdump_fetch.specs.Comparing.{ComparedStep};
ghost use Rattle.rdump_fetch.specs.Copy.{copy_kind};
ghost use Rattle.rdump_fetch.specs.Sink.{CopyStep};
ghost use Rattle.rdump_fetch.specs.Fetch.{IsTakenAwayOnlyIfCopied};

use crate::{ComparedSink, CopyFile, FetchSink, compared_volume};
use rdump_net::{AfterVolume, Peer, ReadFault, copy_volume};
use std::alloc::Global;

/// Copies the first reel of a drive over a new connection, and then moves it to the bin.
///
/// It makes the requests of `rdump_net::copy_volume` with `AfterVolume::Offline`. The reel moves
/// only if a mark was found after its records, the verdict of the sink's catalog, if it has one, is
/// `Equal` or `Unknown`, and the copy is kept. What follows the mark is not read.
///
/// The device is one line of at most `LINE_LIMIT` bytes. With `Stopped` the sink keeps why.
pub fn fetch_reel<P: Peer, F: CopyFile>(
    alloc: Global,
    peer: &mut P,
    device: &[u8],
    sink: &mut ComparedSink<FetchSink<F>>,
) -> Result<(), ReadFault>
    requires { IsLine device.now }
    ensures read { IsRead (sink_kind P.tells (ComparedStep (CopyStep (copy_kind F.holds F.synced F.placed F.kept)))) device.now Offline
        (sink_ends peer.old sink.old) (sink_ends peer.new sink.new) result }
    ensures kept { IsTakenAwayOnlyIfCopied (sink_kind P.tells (ComparedStep (CopyStep (copy_kind F.holds F.synced F.placed F.kept))))
        (copy_kind F.holds F.synced F.placed F.kept) device.now (sink_ends peer.old sink.old) (sink_ends peer.new sink.new) result }
{
    compared_volume::<FetchSink<F>>();
    copy_volume(alloc, peer, device, AfterVolume::Offline, sink)
}
