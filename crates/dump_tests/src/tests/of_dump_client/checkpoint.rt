//! The checkpoint of a client as a text, and a client that is resumed from it.

ghost use Rattle.std.specs.Prelude.{List};
ghost use Rattle.dump_run.specs.Checkpoint.{SpellsCheckpoint};
ghost use Rattle.dump_client.specs.Standing.{VolumeCount};

use super::play::Move::{Goes, Saves, Stands, Starts, Writes};
use super::play::{Case, Move, USR, check_cases, payload};
use super::script::Volume::{FirstTwo, LastBlock};
use super::script::{TWO, TWO_AND_ONE};
use dump_client::{Client, ListBlocks, Run, State, VolumeCount};
use dump_run::one_checkpoint;
use std::alloc::Global;
use std::test::Fail;

/// The checkpoint before anything is counted.
const NOTHING: &[u8] =
    b"rdump 1\ndevice /dev/st0\nfs /usr\nlevel 0\ndate 951782400\nsince 0\nblock 1024\nblocks 3\n";

/// The checkpoint after the first count.
const ONE: &[u8] =
    b"rdump 1\ndevice /dev/st0\nfs /usr\nlevel 0\ndate 951782400\nsince 0\nblock 1024\nblocks 3\ncounted 1 0 2\n";

/// The checkpoint after both counts.
const BOTH: &[u8] =
    b"rdump 1\ndevice /dev/st0\nfs /usr\nlevel 0\ndate 951782400\nsince 0\nblock 1024\nblocks 3\ncounted 1 0 2\ncounted 2 2 1\n";

/// The checkpoint is saved before each attempt, in the middle of one, and after the last.
const SAVED: &[Move] = &[
    Writes(FirstTwo),
    Saves(NOTHING),
    Starts(Ok(())),
    Goes(0, 6),
    Saves(NOTHING),
    Goes(6, 11),
    Stands(State::Ready, &[TWO], (2, 2)),
    Saves(ONE),
    Writes(LastBlock),
    Starts(Ok(())),
    Goes(0, 9),
    Stands(State::Finished, TWO_AND_ONE, (3, 3)),
    Saves(BOTH),
];

static CASES: [Case; 1] = [Case {
    name: "a checkpoint as a text",
    dumped: USR,
    blocks: 3,
    moves: SAVED,
}];

#[test]
fn a_checkpoint_as_a_text(rt: HostRuntime) -> Result<(), Fail> {
    check_cases(&rt, rt.alloc(), &CASES)
}

/// Resumes a client from a text of this run. Each byte of a block is its number modulo 256.
fn resumed(alloc: Global, bytes: &[u8], run: &Run) -> Result<Client<ListBlocks>, Fail>
    requires { (counts : List VolumeCount) × SpellsCheckpoint bytes.now run.now counts }
{
    one_checkpoint();
    let size = run.block_bytes();
    let payload = payload(alloc, run.blocks(), size)?;
    if (run.blocks() as usize).checked_mul(size) != Some(payload.len()) {
        return Err(Fail::new("the payload has another size"));
    }
    let source = ListBlocks::new(payload, size, run.blocks());
    match Client::resume(alloc, bytes, source) {
        Ok(client) => Ok(client),
        Err(_) => Err(Fail::new("not resumed")),
    }
}

/// A client's state, its counts, and the next volume and block.
type Place = (State, &'static [VolumeCount], (u32, u32));

/// Whether a client is at `place`, and its checkpoint is `wanted`.
fn stands(client: &Client<ListBlocks>, place: Place, text: &mut Vec<u8>, wanted: &[u8]) -> bool {
    (client.state(), client.checkpoint()) == (place.0, place.2)
        && client.counted() == place.1
        && client.checkpoint_text(text) == Ok(())
        && text.as_slice() == wanted
}

/// Whether a client resumed from the text is at `place`, and saves the same text.
fn comes_back_so(alloc: Global, bytes: &[u8], place: Place) -> Result<bool, Fail> {
    let Ok(run) = Run::spelled(alloc, bytes) else {
        return Ok(false);
    };
    let client = resumed(alloc, bytes, &run)?;
    Ok(stands(&client, place, &mut Vec::new(alloc), bytes))
}

#[test]
fn a_client_comes_back(rt: HostRuntime) -> Result<(), Fail> {
    let alloc = rt.alloc();
    assert!(rt; comes_back_so(alloc, NOTHING, (State::Ready, &[], (1, 0)))?);
    assert!(rt; comes_back_so(alloc, ONE, (State::Ready, &[TWO], (2, 2)))?);
    assert!(rt; comes_back_so(alloc, BOTH, (State::Finished, TWO_AND_ONE, (3, 3)))?);
    Ok(())
}
