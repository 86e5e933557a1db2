//! Dumps whose checkpoint is kept: the texts that are kept, what is printed, and the dumps that are
//! resumed from them.

use super::check_row;
use super::fake::{FakePeer, Replies};
use super::fixture::{PayloadDumper, TWO_BYTES, client, line, payload};
use super::lines::{EMPTY, FULL, LAST};
use super::store::Kept;
use console::ExitStatus;
use dump_client::{Blocks, Client};
use dump_files::{KeepFault, ResumedDumpFault, keep_checkpoint, resume_dump, run_of};
use dump_run::{Checkpoint, VolumeCount, push_checkpoint};
use rdump_net::{Conclusion, DumpObserver, Peer, Reply, dump_to_end};
use rmt_wire::Counted;
use std::alloc::Global;
use std::fs;
use std::test::Fail;
use whole_files::{ReplacedFile, WholeFile};

/// An observer in memory. It keeps `most` checkpoints: it has the text of the last, and their
/// number. It has the volumes that it was told of, and a letter for each call after the dump: `c` for
/// `complete`, `e` for `enter`, `f` for `forget`.
#[derive(Drop)]
struct Watch {
    most: usize,
    reply: Reply,
    enters: bool,
    last: Vec<u8>,
    count: usize,
    told: Vec<VolumeCount>,
    settled: Vec<u8>,
}

impl Watch {
    /// Makes an observer that was told of nothing, and keeps this many checkpoints. It gives this
    /// answer to each question, and enters a dump in dumpdates if `enters` is true.
    fn new(alloc: Global, most: usize, reply: Reply, enters: bool) -> Self {
        Watch {
            most,
            reply,
            enters,
            last: Vec::new(alloc),
            count: 0,
            told: Vec::new(alloc),
            settled: Vec::new(alloc),
        }
    }
}

impl<B: Blocks, P: Peer> DumpObserver<B, P> for Watch {
    ghost logs = { λ _ _ _. ⊥ };

    ghost can_stop = { λ _. Unit {0} };

    fn counted(&mut self, _client: &Client<B>, count: VolumeCount) {
        let _ = self.told.push(count);
    }

    fn keep(&mut self, client: &Client<B>) -> bool {
        if self.count >= self.most {
            return false;
        }
        self.count = self.count.saturating_add(1);
        self.last.clear();
        push_checkpoint(client.run(), client.counted(), &mut self.last).is_ok()
    }

    fn answer(&mut self) -> Reply {
        self.reply
    }

    fn complete(&mut self, _client: &Client<B>) -> bool {
        self.settled.push(b'c').is_ok()
    }

    fn enter(&mut self, _client: &Client<B>) -> bool {
        self.settled.push(b'e').is_ok() && self.enters
    }

    fn forget(&mut self) -> bool {
        self.settled.push(b'f').is_ok()
    }
}

/// The checkpoint of three blocks before the first attempt, after one volume, and after both.
const NONE: &[u8] =
    b"rdump 1\ndevice /dev/st0\nfs /usr\nlevel 1\ndate 951868800\nsince 951782400\nblock 2\nblocks 3\n";

const ONE: &[u8] =
    b"rdump 1\ndevice /dev/st0\nfs /usr\nlevel 1\ndate 951868800\nsince 951782400\nblock 2\nblocks 3\ncounted 1 0 2\n";

const BOTH: &[u8] =
    b"rdump 1\ndevice /dev/st0\nfs /usr\nlevel 1\ndate 951868800\nsince 951782400\nblock 2\nblocks 3\ncounted 1 0 2\ncounted 2 2 1\n";

/// A complete dump of two volumes.
const COMPLETE: &[u8] =
    b"volume 1: 2 blocks from 0\nvolume 2: 1 blocks from 2\ndump complete: 2 volumes, 3 blocks\n";

/// The replies of each connection, the number of checkpoints that can be kept, the answer to
/// questions, and whether the dump is entered. What is printed, and how the dump ends. Then the
/// number of kept checkpoints, the text of the last, and the calls after the dump.
struct Row {
    connections: &'static [Replies],
    most: usize,
    reply: Reply,
    enters: bool,
    printed: &'static [u8],
    conclusion: Conclusion,
    status: ExitStatus,
    count: usize,
    last: &'static [u8],
    settled: &'static [u8],
}

/// In order:
/// - two volumes; also if the dump cannot be entered.
/// - a dump that is abandoned, and one that is left.
/// - observers that keep nothing, only the first checkpoint, and all but the last.
static ROWS: [Row; 7] = [
    Row {
        connections: &[FULL, LAST],
        most: 3,
        reply: Reply::Abandon,
        enters: true,
        printed: COMPLETE,
        conclusion: Conclusion::Complete,
        status: ExitStatus::Success,
        count: 3,
        last: BOTH,
        settled: b"cef",
    },
    Row {
        connections: &[FULL, LAST],
        most: 3,
        reply: Reply::Abandon,
        enters: false,
        printed: b"volume 1: 2 blocks from 0\nvolume 2: 1 blocks from 2\ndump complete: 2 volumes, 3 blocks\ndumpdates not updated\n",
        conclusion: Conclusion::Complete,
        status: ExitStatus::Abnormal,
        count: 3,
        last: BOTH,
        settled: b"ce",
    },
    Row {
        connections: &[FULL, EMPTY],
        most: 3,
        reply: Reply::Abandon,
        enters: true,
        printed: b"volume 1: 2 blocks from 0\nvolume 2 failed: Refused 6\nretry?\ndump abandoned\n",
        conclusion: Conclusion::Abandoned,
        status: ExitStatus::Abnormal,
        count: 2,
        last: ONE,
        settled: b"f",
    },
    Row {
        connections: &[FULL, EMPTY],
        most: 3,
        reply: Reply::Leave,
        enters: true,
        printed: b"volume 1: 2 blocks from 0\nvolume 2 failed: Refused 6\nretry?\n",
        conclusion: Conclusion::Left,
        status: ExitStatus::Abnormal,
        count: 2,
        last: ONE,
        settled: b"",
    },
    Row {
        connections: &[FULL, LAST],
        most: 0,
        reply: Reply::Abandon,
        enters: true,
        printed: b"checkpoint not written\n",
        conclusion: Conclusion::Unkept,
        status: ExitStatus::Abnormal,
        count: 0,
        last: b"",
        settled: b"",
    },
    Row {
        connections: &[FULL, LAST],
        most: 1,
        reply: Reply::Abandon,
        enters: true,
        printed: b"volume 1: 2 blocks from 0\ncheckpoint not written\n",
        conclusion: Conclusion::Unkept,
        status: ExitStatus::Abnormal,
        count: 1,
        last: NONE,
        settled: b"",
    },
    Row {
        connections: &[FULL, LAST],
        most: 2,
        reply: Reply::Abandon,
        enters: true,
        printed: b"volume 1: 2 blocks from 0\nvolume 2: 1 blocks from 2\ncheckpoint not written\n",
        conclusion: Conclusion::Unkept,
        status: ExitStatus::Abnormal,
        count: 2,
        last: ONE,
        settled: b"",
    },
];

/// Whether the observer kept the checkpoints of the row, and had the calls of the row.
fn has_watched(watch: &Watch, row: &Row) -> bool {
    watch.count == row.count
        && watch.last.as_slice() == row.last
        && watch.settled.as_slice() == row.settled
}

/// Whether a dump by this client goes as the row says.
fn goes(alloc: Global, client: &mut PayloadDumper, row: &Row) -> bool {
    let mut peer = FakePeer::new(alloc, row.connections);
    let mut watch = Watch::new(alloc, row.most, row.reply, row.enters);
    let mut printed = Vec::new(alloc);
    let mut out = Counted::new(&mut printed);
    let end = dump_to_end(alloc, client, &mut peer, &mut watch, &mut out);
    end.conclusion == row.conclusion
        && end.status == row.status
        && has_watched(&watch, row)
        && printed.as_slice() == row.printed
        && peer.sent.is_empty() == (row.most == 0)
}

/// Runs `goes` with a new client.
fn is_kept(alloc: Global, row: &Row) -> bool {
    match client(alloc, TWO_BYTES) {
        Some(mut client) => goes(alloc, &mut client, row),
        None => false,
    }
}

#[test]
fn checkpoints_that_are_kept(rt: HostRuntime) {
    for (at, row) in ROWS.iter().enumerate() {
        check_row(&rt, at, is_kept(rt.alloc(), row));
    }
}

/// The volumes of a dump of three blocks, two of which fit on the first reel.
const VOLUMES: [VolumeCount; 2] = [
    VolumeCount {
        volume: 1,
        first: 0,
        count: 2,
    },
    VolumeCount {
        volume: 2,
        first: 2,
        count: 1,
    },
];

/// Whether the observer of a complete dump by this client is told of both volumes.
fn tells_both(alloc: Global, client: &mut PayloadDumper) -> bool {
    let mut peer = FakePeer::new(alloc, &[FULL, LAST]);
    let mut watch = Watch::new(alloc, 3, Reply::Abandon, true);
    let mut printed = Vec::new(alloc);
    let mut out = Counted::new(&mut printed);
    let end = dump_to_end(alloc, client, &mut peer, &mut watch, &mut out);
    end.conclusion == Conclusion::Complete && watch.told.as_slice() == VOLUMES.as_slice()
}

#[test]
fn volumes_that_are_told(rt: HostRuntime) {
    let told = match client(rt.alloc(), TWO_BYTES) {
        Some(mut client) => tells_both(rt.alloc(), &mut client),
        None => false,
    };
    assert!(rt; told);
}

/// Whether the checkpoint of a new client is put into a file, and a file that cannot be replaced is
/// told of.
fn puts(alloc: Global, client: &PayloadDumper) -> bool {
    let (mut file, mut full) = (
        Kept::new(alloc, Ok(None), true),
        Kept::new(alloc, Ok(None), false),
    );
    let kept = keep_checkpoint(alloc, &mut file, client.run(), client.counted());
    let unkept = keep_checkpoint(alloc, &mut full, client.run(), client.counted());
    kept == Ok(()) && file.put.as_slice() == NONE && unkept == Err(KeepFault::Unwritten)
}

#[test]
fn a_checkpoint_in_a_file(rt: HostRuntime) {
    let is_put = match client(rt.alloc(), TWO_BYTES) {
        Some(client) => puts(rt.alloc(), &client),
        None => false,
    };
    assert!(rt; is_put);
}

/// Resumes a dump from the checkpoint with this text. Returns the number of counted volumes and of
/// counted blocks.
fn comes_back(alloc: Global, text: &[u8]) -> Option<Result<(usize, u32), ResumedDumpFault>> {
    let payload = payload(alloc, TWO_BYTES)?;
    let run = run_of(&line(TWO_BYTES), 0, 0, &payload).ok()?;
    let checkpoint = Checkpoint::read(alloc, text).ok()?;
    Some(match resume_dump(alloc, &run, checkpoint, payload, true) {
        Ok(client) => Ok((client.counted().len(), client.checkpoint().1)),
        Err(fault) => Err(fault),
    })
}

/// The checkpoint of a dump at another level.
const ANOTHER: &[u8] =
    b"rdump 1\ndevice /dev/st0\nfs /usr\nlevel 2\ndate 951868800\nsince 951782400\nblock 2\nblocks 3\n";

/// The texts of checkpoints, and the result of resuming a dump from them.
static TEXTS: [(&[u8], Result<(usize, u32), ResumedDumpFault>); 4] = [
    (NONE, Ok((0, 0))),
    (ONE, Ok((1, 2))),
    (BOTH, Ok((2, 3))),
    (ANOTHER, Err(ResumedDumpFault::OfAnother)),
];

#[test]
fn clients_that_come_back(rt: HostRuntime) {
    for (at, (text, wanted)) in TEXTS.iter().enumerate() {
        check_row(&rt, at, comes_back(rt.alloc(), text) == Some(*wanted));
    }
}

/// Whether a file that `one` holds is not read or replaced by `other`.
fn is_held_by(alloc: Global, one: &mut impl WholeFile, other: &mut impl WholeFile) -> bool {
    let is_locked = one.read(alloc) == Ok(None) && other.read(alloc).is_err();
    let is_kept = one.replace(NONE).is_ok() && one.replace(ONE).is_ok();
    is_locked && is_kept && other.replace(NONE).is_err() && other.read(alloc).is_err()
}

/// A file that one run holds is not read or replaced by another run, until it is removed.
#[test]
fn a_file_that_is_held(rt: HostRuntime) -> Result<(), Fail> {
    let mut one = ReplacedFile::held(&rt, rt.alloc(), "held");
    let mut other = ReplacedFile::held(&rt, rt.alloc(), "held");
    let is_held = is_held_by(rt.alloc(), &mut one, &mut other);
    let read = fs::read(&rt, "held")?;
    let is_removed = one.remove().is_ok() && !fs::exists(&rt, "held").unwrap_or(true);
    assert!(rt; is_held && is_removed && read.as_slice() == ONE);
    assert!(rt; other.replace(NONE).is_ok() && other.remove().is_ok());
    Ok(())
}
