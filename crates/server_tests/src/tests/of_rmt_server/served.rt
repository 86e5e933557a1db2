//! The replies to a whole stream, how serving it ends, and what is left on the drive.

ghost use Rattle.std.specs.Prelude.{◌≤◌, length};

use super::CAPACITY;
use super::fixture::{Drives, END, NO_OUTPUT, TRUNCATED, serve_once, two_drives};
use super::pieces::{Expected, Pieces};
use rmt_server::ServeFault;
use std::alloc::Global;

/// A stream, the replies, how serving ends, and the replies to another session that then opens the
/// first drive and reads 8 bytes. An input that fails does so after the stream, and an output that
/// fails does so after the replies. If the output fails, or bytes come that are not a request, the
/// input would fail too if it was read again: the server must not read it again.
pub(crate) type Row<'a> = (&'a [u8], &'a [u8], u8, &'a [u8]);

/// Whether a stream gets its replies, if the input gives and the output accepts at most `most`
/// bytes per call.
fn is_served(alloc: Global, drives: &mut Drives, row: &Row<'_>, most: usize) -> bool
    requires { length drives.old.stacks.library.drives ≤ length drives.old.holds.numbers }
    ensures { length drives.new.stacks.library.drives ≤ length drives.new.holds.numbers }
{
    let input = Pieces {
        bytes: row.0,
        most,
        fails: row.2 != END && row.2 != TRUNCATED,
    };
    let mut output = if row.2 == NO_OUTPUT {
        Expected::narrow(row.1, row.1.len(), most)
    } else {
        Expected::narrow(row.1, usize::MAX, most)
    };
    let status = serve_once(alloc, drives, input, &mut output);
    status == row.2 && output.is_met()
}

/// Whether both sessions get their replies.
fn are_served(alloc: Global, drives: &mut Drives, row: &Row<'_>, most: usize) -> bool
    requires { length drives.old.stacks.library.drives ≤ length drives.old.holds.numbers }
{
    let served = is_served(alloc, drives, row, most);
    let reads: Row<'_> = (b"O/dev/st0\n0\nR8\n", row.3, END, b"");
    is_served(alloc, drives, &reads, most) && served
}

/// Runs `are_served` with new drives.
fn are_served_anew(alloc: Global, row: &Row<'_>, most: usize) -> bool {
    match two_drives(alloc, CAPACITY) {
        Some(mut drives) => are_served(alloc, &mut drives, row, most),
        None => false,
    }
}

/// Whether both sessions get their replies, in one piece and byte by byte.
pub(crate) fn is_answered(alloc: Global, row: &Row<'_>) -> bool {
    are_served_anew(alloc, row, usize::MAX) && are_served_anew(alloc, row, 1)
}

/// Whether the fault prints its name.
fn is_named(alloc: Global, fault: ServeFault, name: &str) -> bool {
    match fault.to_string(alloc) {
        Ok(printed) => printed.as_str() == name,
        Err(_) => false,
    }
}

#[test]
fn faults_print_their_names(rt: HostRuntime) {
    assert!(rt; is_named(rt.alloc(), ServeFault::Input, "Input"));
    assert!(rt; is_named(rt.alloc(), ServeFault::Output, "Output"));
}
