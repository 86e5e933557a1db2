//! A record that is written and read back, by a stream at a drive in memory and by a stream at
//! other drives.

ghost use Rattle.std.specs.Prelude.{◌≡◌, IfOk, length};

use drives::ListStacks;
use rmt_server::Served;
use rmt_wire::Counted;
use rmtd_serve::{TapeServer, run_stdio};
use std::alloc::Global;
use std::test::Fail;

const WRITTEN: &[u8] = b"O/dev/st0\n2\nW5\nhelloI0\n1\nI5\n1\nR10\nR10\nC\n";

const ANSWERED: &[u8] = b"A0\nA5\nA1\nA1\nA5\nhelloA0\nA0\n";

#[test]
fn a_stream_at_the_drive_in_memory(rt: HostRuntime) {
    let mut taken = Vec::new(rt.alloc());
    let mut input = Counted::new(WRITTEN);
    let mut output = Counted::new(&mut taken);
    let status = run_stdio(rt.alloc(), &mut input, &mut output, 1024);
    assert!(rt; status == 0 && taken.as_slice() == ANSWERED);
}

/// Whether a record is read back from a drive of these stacks.
fn keeps_a_record(alloc: Global, server: &mut TapeServer<ListStacks>) -> bool {
    let mut taken = Vec::new(alloc);
    let mut input = Counted::new(WRITTEN);
    let mut output = Counted::new(&mut taken);
    server.serve(&mut input, &mut output) == Ok(Served::End) && taken.as_slice() == ANSWERED
}

/// Makes one drive with one reel.
fn one_drive(alloc: Global) -> Result<ListStacks, Fail>
    ensures { IfOk result (λ stacks. length stacks.library.drives ≡ 1) }
{
    let mut stacks = ListStacks::new(alloc);
    let drive = stacks.add_drive(b"/dev/st0")?;
    stacks.add_reel(drive, b"r1", 1024)?;
    Ok(stacks)
}

#[test]
fn a_stream_at_drives(rt: HostRuntime) -> Result<(), Fail> {
    let stacks = one_drive(rt.alloc())?;
    let mut server = TapeServer::new(rt.alloc(), 1, stacks)?;
    assert!(rt; keeps_a_record(rt.alloc(), &mut server));
    Ok(())
}
