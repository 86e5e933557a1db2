//! A peer in memory: a request that arrives in pieces, sessions that end, an operation, and a volume
//! that is written.

ghost use Rattle.std.specs.Prelude.{◌≡◌, ◌≤◌, length};

use super::fixture::{DEVICE, Dumper, client};
use drives::{DriveTable, ListStacks, LocalHolds, Stacks};
use rdump_net::Peer;
use rmt_tools::{MemoryPeer, dump, mt};
use rmt_wire::Counted;
use rmt_wire::mtio::MTREW;
use std::alloc::Global;
use std::test::Fail;

/// The capacity in bytes of a reel that a label, three blocks of two bytes and the mark fill
/// exactly.
const THREE_BLOCKS: u64 = 1066;

/// What a dump to that reel prints.
const DUMPED: &[u8] = b"volume 1: 3 blocks from 0\ndump complete: 1 volumes, 3 blocks\n";

/// Whether a request that arrives in pieces gets its reply.
fn takes_pieces(peer: &mut MemoryPeer) -> bool {
    let mut room = [0; 3];
    let sent = peer.connect() && peer.send(b"O/dev") && peer.send(b"/st0\n2\n");
    let answered = sent && peer.receive(&mut room) == 3 && room == *b"A0\n";
    peer.hang_up();
    answered
}

/// Whether the reel is on the drive's stack, and no session has it open.
fn lies(peer: &MemoryPeer) -> bool {
    peer.stacks().reel(b"r1").is_some()
}

/// Whether a new connection opens the drive. The reply is not read yet.
fn opens(peer: &mut MemoryPeer) -> bool {
    peer.connect() && peer.send(b"O/dev/st0\n2\n") && !lies(peer)
}

/// Whether a hang-up closes the drive, and the unread reply is lost.
fn closes(peer: &mut MemoryPeer) -> bool {
    let opened = opens(peer);
    peer.hang_up();
    opened && lies(peer) && peer.receive(&mut [0; 3]) == 0
}

/// Whether a new connection replaces another, and its session has nothing open. After a hang-up
/// nothing can be sent.
fn begins_anew(peer: &mut MemoryPeer) -> bool {
    let mut room = [0; 24];
    let anew = opens(peer) && peer.connect() && lies(peer);
    let count = if anew && peer.send(b"R4\n") {
        peer.receive(&mut room)
    } else {
        0
    };
    peer.hang_up();
    count == 23 && room == *b"E9\nBad file descriptor\n\0" && !peer.send(b"C\n")
}

/// Whether an operation rewinds the reel, and its reply is printed.
fn is_rewound(alloc: Global, peer: &mut MemoryPeer) -> bool {
    let mut room = [0; 3];
    let mut out = Counted::new(room.as_mut_slice());
    mt(alloc, peer, DEVICE, MTREW, 1, &mut out) == 0 && room == *b"A1\n"
}

/// Whether an operation on a drive that does not exist prints the refusal, and has status 3.
fn is_refused(alloc: Global, peer: &mut MemoryPeer) -> bool {
    let mut room = [0; 29];
    let mut out = Counted::new(room.as_mut_slice());
    let status = mt(alloc, peer, b"/dev/st1", MTREW, 1, &mut out);
    status == 3 && room == *b"E2 No such file or directory\n"
}

/// Whether this client writes its one volume.
fn is_dumped(alloc: Global, client: &mut Dumper, peer: &mut MemoryPeer) -> bool {
    let mut operator: &[u8] = b"";
    let mut room = [0; 61];
    let mut out = Counted::new(room.as_mut_slice());
    dump(alloc, client, peer, &mut operator, &mut out) == 0 && room.as_slice() == DUMPED
}

/// Whether a client of three blocks writes its one volume.
fn takes_a_dump(alloc: Global, peer: &mut MemoryPeer) -> bool {
    match client(alloc) {
        Some(mut client) => is_dumped(alloc, &mut client, peer),
        None => false,
    }
}

/// Runs all these checks with a peer whose reel is empty. At the end the reel must be in the bin of
/// its drives.
fn goes_on(alloc: Global, mut peer: MemoryPeer) -> bool {
    let ended = takes_pieces(&mut peer) && closes(&mut peer) && begins_anew(&mut peer);
    let asked = is_rewound(alloc, &mut peer) && is_refused(alloc, &mut peer);
    let dumped = ended && asked && takes_a_dump(alloc, &mut peer);
    let good = dumped && peer.stacks().bin().len() == 1;
    peer.into_drives().stacks.bin().len() == 1 && good
}

/// Adds the drive `/dev/st0` with one reel.
fn add_drive(stacks: &mut ListStacks) -> bool
    requires { length stacks.old.library.drives ≡ 0 }
    ensures { length stacks.new.library.drives ≤ 1 }
{
    stacks.add_drive(DEVICE).is_ok() && stacks.add_reel(0, b"r1", THREE_BLOCKS).is_ok()
}

/// Runs `goes_on` with a peer of that drive.
fn goes(alloc: Global, holds: LocalHolds) -> bool
    requires { length holds.numbers ≡ 1 }
{
    let mut stacks = ListStacks::new(alloc);
    let added = add_drive(&mut stacks);
    match MemoryPeer::new(alloc, DriveTable { holds, stacks }) {
        Some(peer) => goes_on(alloc, peer) && added,
        None => false,
    }
}

#[test]
fn a_peer_and_its_drives(rt: HostRuntime) -> Result<(), Fail> {
    let holds = LocalHolds::new(rt.alloc(), 1)?;
    assert!(rt; goes(rt.alloc(), holds));
    Ok(())
}
