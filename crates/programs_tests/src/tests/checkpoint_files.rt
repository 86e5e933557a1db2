//! Dumps that are resumed from a checkpoint file, at the system that runs the tests. There is no
//! server.

use super::check_row;
use super::commands::{NO_TERMINAL, NOWHERE};
use console::ExitStatus;
use rdump_commands::run_arguments;
use std::fs;
use std::test::Fail;

/// A dump of two blocks of three bytes with a checkpoint, to an address without a server.
static ARGUMENTS: [&str; 20] = [
    "rdump",
    "dump",
    "--to",
    NOWHERE,
    "--device",
    "d",
    "--fs",
    "/home",
    "--level",
    "0",
    "--payload",
    "payload-of-two",
    "--block",
    "3",
    "--dumpdates",
    "no-dumpdates",
    "--date",
    "951868800",
    "--checkpoint",
    "checkpoint",
];

/// The checkpoint of that dump after one volume, and after both.
const FIRST: &[u8] =
    b"rdump 1\ndevice d\nfs /home\nlevel 0\ndate 951868800\nsince 0\nblock 3\nblocks 2\ncounted 1 0 1\n";

const COMPLETE: &[u8] =
    b"rdump 1\ndevice d\nfs /home\nlevel 0\ndate 951868800\nsince 0\nblock 3\nblocks 2\ncounted 1 0 1\ncounted 2 1 1\n";

/// A text whose counts are out of order.
const TWICE: &[u8] =
    b"rdump 1\ndevice d\nfs /home\nlevel 0\ndate 951868800\nsince 0\nblock 3\nblocks 2\ncounted 1 0 1\ncounted 1 0 1\n";

/// The checkpoint of a dump of another device.
const OF_ANOTHER: &[u8] =
    b"rdump 1\ndevice e\nfs /home\nlevel 0\ndate 951868800\nsince 0\nblock 3\nblocks 2\n";

/// The checkpoint file at the start, the exit status, and whether the file is there at the end.
static STARTS: [(&[u8], ExitStatus, bool); 5] = [
    (b"", ExitStatus::StartupError, true),
    (TWICE, ExitStatus::StartupError, true),
    (OF_ANOTHER, ExitStatus::StartupError, true),
    (FIRST, ExitStatus::Abnormal, false),
    (COMPLETE, ExitStatus::Success, false),
];

/// Whether a dump with such a file ends as the row says.
fn starts_so(rt: &HostRuntime, text: &[u8], status: ExitStatus, stays: bool) -> Result<bool, Fail> {
    fs::write(rt, "checkpoint", text)?;
    let ended = run_arguments(rt, &ARGUMENTS, NO_TERMINAL);
    let is_left = fs::exists(rt, "checkpoint")?;
    if is_left {
        fs::remove_file(rt, "checkpoint")?;
    }
    Ok(ended == status && is_left == stays)
}

/// A file that is not a checkpoint stays, and so does one of another dump. The checkpoint of an
/// abandoned dump is removed, and so is that of a complete dump, without a server.
#[test]
fn dumps_from_a_checkpoint_file(rt: HostRuntime) -> Result<(), Fail> {
    fs::write(&rt, "payload-of-two", b"abcdef")?;
    for (at, (text, status, stays)) in STARTS.iter().enumerate() {
        let right = starts_so(&rt, text, *status, *stays)?;
        check_row(&rt, at, right);
    }
    fs::remove_file(&rt, "payload-of-two")?;
    Ok(())
}
