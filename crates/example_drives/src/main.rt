//! A tape server of two drives in memory, on its standard streams: an example to copy.
#![tactic(auto)]

ghost use Rattle.std.specs.Prelude.{◌≡◌, IfSome, length};

use drives::{DriveTable, ListStacks, LocalHolds};
use rmt_server::{Served, Session, serve};
use rmt_wire::{Counted, RequestReader};
use std::alloc::Global;
use std::process::ExitCode;

/// The capacity of each reel, in bytes.
const CAPACITY: u64 = 1 << 20;

/// Makes two drives, each with an empty reel. Returns `None` if an allocation fails.
fn two_drives(alloc: Global) -> Option<ListStacks>
    ensures { IfSome result (λ stacks. length stacks.library.drives ≡ 2) }
{
    let mut stacks = ListStacks::new(alloc);
    let first = stacks.add_drive(b"/dev/st0").ok()?;
    stacks.add_reel(first, b"reel0", CAPACITY).ok()?;
    let second = stacks.add_drive(b"/dev/st1").ok()?;
    stacks.add_reel(second, b"reel1", CAPACITY).ok()?;
    Some(stacks)
}

/// Serves standard input and standard output with one session. Returns `None` if a stream or an
/// allocation fails.
fn serve_streams(rt: &HostRuntime) -> Option<Served> {
    let stacks = two_drives(rt.alloc())?;
    let mut holds = LocalHolds::new(rt.alloc(), 2).ok()?;
    let seat = holds.seat()?;
    let Ok(mut session) = Session::new(rt.alloc(), seat) else {
        return None;
    };
    let mut requests = RequestReader::new(rt.alloc()).ok()?;
    let mut drives = DriveTable { holds, stacks };
    let (mut input, mut output) = (Counted::new(rt.stdin()), Counted::new(rt.stdout()));
    serve(
        &mut input,
        &mut output,
        &mut requests,
        &mut session,
        &mut drives,
    )
    .ok()
}

/// Exits with 0 if the input ended between two requests, else with 1.
fn main(rt: HostRuntime) -> ExitCode {
    ExitCode::from(u8::from(serve_streams(&rt) != Some(Served::End)))
}
