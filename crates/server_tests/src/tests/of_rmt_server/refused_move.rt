//! The replies of a session if the bin refuses its reel.

ghost use Rattle.std.specs.Prelude.{◌≤◌, length};

use super::fixture::{END, serve_once};
use super::full_bin::FullBin;
use super::pieces::Expected;
use drives::{DriveTable, LocalHolds};
use std::alloc::Global;
use std::test::Fail;

/// Requests that try to move the reel to the bin twice, and then read it.
const REQUESTS: &[u8] = b"O/dev/st0\n2\nW3\nabcI6\n1\nI6\n1\nR5\n";

/// The moves fail with out of memory, then because the name is taken. After each the reel is still
/// open, at its beginning.
const ANSWERS: &[u8] = b"A0\nA3\nE12\nCannot allocate memory\nE5\nInput/output error\nA3\nabc";

/// Whether one drive with such a bin gives these replies.
fn is_refused(alloc: Global, holds: LocalHolds) -> bool
    requires { 1 ≤ length holds.numbers }
{
    let stacks = FullBin::new(alloc);
    let mut drives = DriveTable { holds, stacks };
    let mut output = Expected::all(ANSWERS);
    serve_once(alloc, &mut drives, REQUESTS, &mut output) == END && output.is_met()
}

#[test]
fn a_refused_move_leaves_the_reel_open(rt: HostRuntime) -> Result<(), Fail> {
    let holds = LocalHolds::new(rt.alloc(), 1)?;
    assert!(rt; is_refused(rt.alloc(), holds));
    Ok(())
}
