//! A dump whose reels are read back, and fetched, from a stack in memory.
ghost use Rattle.std.specs.Prelude.{◌≡◌, ◌≤◌, IfSome, length};

use super::fixture::{DEVICE, client};
use drives::{DriveTable, ListStacks, LocalHolds, Stacks};
use rdump_fetch::{ComparedSink, FetchSink, MemoryCopy, fetch_reel};
use rdump_net::ReadFault;
use remote_tape::{TapeCause, TapeFault, TapeRequest};
use rmt_tools::{MemoryPeer, dump, read_volume};
use rmt_wire::Counted;
use rmt_wire::errno::ENXIO;
use std::alloc::Global;
use std::test::Fail;

/// The capacity in bytes of a reel that a label, two blocks of two bytes and the mark fill.
const TWO_BLOCKS: u64 = 1056;

/// A volume: its blocks, and what its record file has after the label.
type Volume = (&'static [u8], &'static [u8]);

const FIRST: Volume = (
    b"abcd",
    b"\x02\0\0\0ab\x02\0\0\0\x02\0\0\0cd\x02\0\0\0\0\0\0\0",
);

const SECOND: Volume = (b"ef", b"\x02\0\0\0ef\x02\0\0\0\0\0\0\0");

/// The reels, in an order in which they lie on the stack, and their volumes.
type Row = (&'static [&'static [u8]], &'static [Volume]);

/// Both orders.
static ROWS: [Row; 2] = [
    (&[b"r1", b"r2"], &[FIRST, SECOND]),
    (&[b"r2", b"r1"], &[SECOND, FIRST]),
];

/// Dumps `abcdef` in blocks of two bytes, as two volumes. Returns the drives, whose reels are then
/// in the bin.
fn dumped(alloc: Global, mut peer: MemoryPeer) -> Option<DriveTable<LocalHolds, ListStacks>>
    ensures { IfSome result (λ d. length d.stacks.library.drives ≤ length d.holds.numbers) }
{
    let mut operator: &[u8] = b"";
    let mut room = [0; 128];
    let mut out = Counted::new(room.as_mut_slice());
    let status = match client(alloc) {
        Some(mut client) => dump(alloc, &mut client, &mut peer, &mut operator, &mut out),
        None => 3,
    };
    let drives = peer.into_drives();
    if status == 0 && drives.stacks.bin().len() == 2 {
        Some(drives)
    } else {
        None
    }
}

/// Whether the volume of the first reel is read, with its label, and the reel stays on the stack.
fn is_first_read(alloc: Global, peer: &mut MemoryPeer, blocks: &[u8]) -> bool {
    let mut file = Vec::new(alloc);
    let mut label = Vec::new(alloc);
    let mut out = Counted::new(&mut file);
    let mut printed = Counted::new(&mut label);
    let status = read_volume(alloc, peer, DEVICE, &mut out, &mut printed);
    let is_read = file.as_slice() == blocks && label.starts_with(b"name /usr\nlevel 1\n");
    status == 0 && is_read && peer.stacks().bin().is_empty()
}

/// Whether the first reel is fetched: its copy is kept and ends with these bytes.
fn is_fetched(
    alloc: Global,
    peer: &mut MemoryPeer,
    sink: &mut ComparedSink<FetchSink<MemoryCopy>>,
    image: &[u8],
) -> bool {
    let fetched = fetch_reel(alloc, peer, DEVICE, sink);
    let copy = sink.sink().file();
    let is_same = match copy.bytes() {
        Some(bytes) => bytes.len() == 1032 + image.len() && bytes.ends_with(image),
        None => false,
    };
    fetched == Ok(()) && copy.is_kept() && is_same
}

/// Whether the reels of these volumes are fetched one after the other, and go to the bin. Then the
/// stack has no more reels.
fn are_fetched(alloc: Global, mut peer: MemoryPeer, volumes: &[Volume]) -> bool {
    let mut sink = ComparedSink::new(FetchSink::new(MemoryCopy::new(alloc)), None);
    for (_, image) in volumes {
        if !is_fetched(alloc, &mut peer, &mut sink, image) {
            return false;
        }
    }
    let ended = ReadFault::Tape(TapeFault {
        request: TapeRequest::Open,
        cause: TapeCause::Refused(ENXIO),
    });
    let more = fetch_reel(alloc, &mut peer, DEVICE, &mut sink);
    more == Err(ended) && peer.stacks().bin().len() == volumes.len()
}

/// Lays these reels on the stack. Reads the first one, and then fetches all of them.
fn is_read_back(
    alloc: Global,
    mut drives: DriveTable<LocalHolds, ListStacks>,
    row: &Row,
) -> Option<bool>
    requires { length drives.stacks.library.drives ≤ length drives.holds.numbers }
{
    let (names, volumes) = *row;
    let (blocks, _) = *volumes.first()?;
    let drive = drives.stacks.drive(DEVICE)?;
    if !drives.stacks.can_arrange(drive, names) {
        return None;
    }
    drives.stacks.arrange(drive, names).ok()?;
    let mut peer = MemoryPeer::new(alloc, drives)?;
    let is_read = is_first_read(alloc, &mut peer, blocks);
    Some(are_fetched(alloc, peer, volumes) && is_read)
}

/// Adds the drive `/dev/st0` with two reels.
fn add_drive(stacks: &mut ListStacks) -> bool
    requires { length stacks.old.library.drives ≡ 0 }
    ensures { length stacks.new.library.drives ≤ 1 }
{
    stacks.add_drive(DEVICE).is_ok()
        && stacks.add_reel(0, b"r1", TWO_BLOCKS).is_ok()
        && stacks.add_reel(0, b"r2", TWO_BLOCKS).is_ok()
}

/// Dumps, lays the reels on the stack in this order, and reads and fetches them.
fn goes(alloc: Global, holds: LocalHolds, row: &Row) -> Option<bool>
    requires { length holds.numbers ≡ 1 }
{
    let mut stacks = ListStacks::new(alloc);
    if !add_drive(&mut stacks) {
        return None;
    }
    let peer = MemoryPeer::new(alloc, DriveTable { holds, stacks })?;
    is_read_back(alloc, dumped(alloc, peer)?, row)
}

#[test]
fn a_stack_is_fetched(rt: HostRuntime) -> Result<(), Fail> {
    for row in &ROWS {
        let holds = LocalHolds::new(rt.alloc(), 1)?;
        assert!(rt; goes(rt.alloc(), holds, row) == Some(true));
    }
    Ok(())
}
