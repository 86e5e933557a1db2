//! Runs the commands of a schedule in a world.
ghost use Rattle.rsim_schedule.specs.Playing.{IsPlayed, is_whole};

use crate::byte_count::ByteCount;
use crate::halt::Halt;
use crate::hex_text::HexText;
use crate::line::{Action, End, ScheduleLine, read_command};
use crate::lines::ScheduleLines;
use crate::making::{arrival, make, pump};
use crate::names::Names;
use dump_client::{Run, State};
use rmt_wire::Counted;
use std::alloc::{AllocError, Global};
use std::io::Write;
use tape_world::{Event, World};

/// Runs all remaining commands, up to the first that fails.
pub(crate) fn play_all<W: Write>(
    alloc: Global,
    world: &mut World,
    lines: &mut ScheduleLines<'_>,
    out: &mut Counted<W>,
) -> Result<(), Halt>
    ensures { IsPlayed W.contents world.old out.old (is_whole result) world.new out.new }
{
    while let Some(text) = lines.command() {
        play(alloc, world, text, out)?;
    }
    Ok(())
}

/// Runs the command in a line. A `drive` command is a bad line here, since the world exists
/// already.
fn play<W: Write>(
    alloc: Global,
    world: &mut World,
    text: &[u8],
    out: &mut Counted<W>,
) -> Result<(), Halt>
    ensures { IsPlayed W.contents world.old out.old (is_whole result) world.new out.new }
{
    match read_command(text) {
        None => Err(Halt::BadLine),
        Some(ScheduleLine::Drive { .. }) => Err(Halt::BadLine),
        Some(
            ScheduleLine::Run {
                device,
                name,
                numbers,
            },
        ) => begin_run(alloc, world, device, name, numbers, out),
        Some(ScheduleLine::Arrange { device, reels }) => arrange(alloc, world, device, reels, out),
        Some(ScheduleLine::Says { connection, text }) => say(alloc, world, connection, text, out),
        Some(ScheduleLine::Action { act }) => play_act(world, act, out),
    }
}

/// Runs a command that has no device and no bytes.
fn play_act<W: Write>(world: &mut World, act: Action, out: &mut Counted<W>) -> Result<(), Halt>
    ensures { IsPlayed W.contents world.old out.old (is_whole result) world.new out.new }
{
    match act {
        Action::Arrives {
            end,
            connection,
            count,
        } => arrive(world, end, connection, count, out),
        Action::Pump { connection, rounds } => pump(world, connection, rounds, out),
        Action::Event { event } => make(world, event, out),
    }
}

/// Starts the run with these values. It is a bad line if they do not make a run.
fn begin_run<W: Write>(
    alloc: Global,
    world: &mut World,
    device: &[u8],
    name: &str,
    numbers: [u64; 5],
    out: &mut Counted<W>,
) -> Result<(), Halt>
    ensures { IsPlayed W.contents world.old out.old (is_whole result) world.new out.new }
{
    let [level, date, since, block, blocks] = numbers;
    match Run::new(device, name, level, date, since, block, blocks) {
        Ok(run) => start_run(alloc, world, &run, out),
        Err(_) => Err(Halt::BadLine),
    }
}

/// Starts a run with its payload. Not possible while another run is under way.
fn start_run<W: Write>(
    alloc: Global,
    world: &mut World,
    run: &Run,
    out: &mut Counted<W>,
) -> Result<(), Halt>
    ensures { IsPlayed W.contents world.old out.old (is_whole result) world.new out.new }
{
    if !can_start(world) {
        return Err(Halt::NotPossible);
    }
    let Ok(payload) = payload_of(alloc, run) else {
        return Err(Halt::OutOfMemory);
    };
    let payload = payload.as_slice();
    make(world, Event::StartRun { run, payload }, out)
}

/// Whether a run can start: there is no client, or its run is finished or abandoned.
fn can_start(world: &World) -> bool {
    match world.client() {
        Some(client) => matches!(client.state(), State::Finished | State::Abandoned),
        None => true,
    }
}

/// Returns the payload of a run: each byte of block i is i modulo 256.
fn payload_of(alloc: Global, run: &Run) -> Result<Vec<u8>, AllocError> {
    let bytes = run.block_bytes();
    let mut payload = Vec::with_capacity(alloc, run.blocks() as usize * bytes)?;
    for block in 0..run.blocks() {
        push_block(&mut payload, block, bytes)?;
    }
    Ok(payload)
}

fn push_block(payload: &mut Vec<u8>, block: u32, bytes: usize) -> Result<(), AllocError> {
    let end = payload.len().saturating_add(bytes);
    payload.resize(end, (block % 256) as u8)
}

/// Has the operator put reels on the stack of a drive.
fn arrange<W: Write>(
    alloc: Global,
    world: &mut World,
    drive: &[u8],
    reels: Names<'_>,
    out: &mut Counted<W>,
) -> Result<(), Halt>
    ensures { IsPlayed W.contents world.old out.old (is_whole result) world.new out.new }
{
    match reels.list(alloc) {
        Ok(reels) => make(
            world,
            Event::Arrange {
                drive,
                reels: &reels,
            },
            out,
        ),
        Err(_) => Err(Halt::OutOfMemory),
    }
}

/// Has a stranger send bytes.
fn say<W: Write>(
    alloc: Global,
    world: &mut World,
    connection: usize,
    text: HexText<'_>,
    out: &mut Counted<W>,
) -> Result<(), Halt>
    ensures { IsPlayed W.contents world.old out.old (is_whole result) world.new out.new }
{
    let Ok(bytes) = text.bytes(alloc) else {
        return Err(Halt::OutOfMemory);
    };
    let bytes = bytes.as_slice();
    make(world, Event::Says { connection, bytes }, out)
}

/// Has bytes on the way reach this end.
fn arrive<W: Write>(
    world: &mut World,
    end: End,
    connection: usize,
    count: ByteCount,
    out: &mut Counted<W>,
) -> Result<(), Halt>
    ensures { IsPlayed W.contents world.old out.old (is_whole result) world.new out.new }
{
    let event = arrival(world, end, connection, count);
    make(world, event, out)
}
