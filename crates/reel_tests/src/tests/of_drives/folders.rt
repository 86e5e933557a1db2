//! Drives in folders that the test makes and removes.

ghost use Rattle.std.specs.Prelude.{◌≡◌, length};

use drives::{DriveFault, Stacks};
use reel_files::{FolderDrive, FolderStacks, NoLog};
use std::fs;
use std::io::{self, ErrorKind};
use tape::Reel;

type Folders = FolderStacks<HostRuntime, NoLog>;

/// A parent folder, both stacks, and the bin.
static FOLDERS: [&str; 4] = ["folders", "folders/st0", "folders/st1", "folders/bin"];

/// The reels of the first stack.
static REELS: [&str; 4] = [
    "folders/st0/a9",
    "folders/st0/é",
    "folders/st0/a10",
    "folders/st0/B",
];

/// The paths to which the reels are moved, in the byte order of their names.
const IN_BYTE_ORDER: &[&str] = &[
    "folders/bin/B",
    "folders/bin/a10",
    "folders/bin/a9",
    "folders/bin/é",
];

/// Makes the folders, and reels without records.
fn make_all(rt: &HostRuntime) -> io::Result<()> {
    for path in &FOLDERS {
        fs::create_dir(rt, *path)?;
    }
    for path in &REELS {
        fs::write(rt, *path, "")?;
    }
    Ok(())
}

static DRIVES: [FolderDrive; 2] = [
    FolderDrive {
        name: "/dev/st0",
        folder: "folders/st0",
    },
    FolderDrive {
        name: "/dev/st1",
        folder: "folders/st1",
    },
];

/// Whether the first folder that cannot be used is that of the first stack, because it is missing.
fn is_missing(stacks: &Folders) -> bool {
    match stacks.find_fault() {
        Some(fault) => fault.folder == "folders/st0" && fault.reason.kind() == ErrorKind::NotFound,
        None => false,
    }
}

/// Whether a record is written to the first drive's reel. The reel is unlatched afterwards.
fn is_written(stacks: &mut Folders) -> bool
    requires { length stacks.old.rows ≡ 2 }
    ensures { length stacks.new.rows ≡ 2 }
{
    let Ok(mut reel) = stacks.latch(0) else {
        return false;
    };
    let written = reel.write(b"hello").is_ok();
    stacks.unlatch(0, reel);
    written
}

/// Whether the first drive's first reel is moved to this path of the bin.
fn moves(rt: &HostRuntime, stacks: &mut Folders, path: &str) -> bool
    requires { length stacks.old.rows ≡ 2 }
    ensures { length stacks.new.rows ≡ 2 }
{
    let Ok(reel) = stacks.latch(0) else {
        return false;
    };
    stacks.offline(0, reel).is_ok() && matches!(fs::exists(rt, path), Ok(true))
}

/// Whether the first drive has no reel, and no call failed.
fn is_empty(stacks: &mut Folders) -> bool
    requires { length stacks.old.rows ≡ 2 }
{
    let none = matches!(stacks.latch(0), Err(DriveFault::NoReel));
    none && stacks.failures() == 0
}

/// Whether the first drive has exactly these reels, in this order. They are moved to the bin.
fn has_reels(rt: &HostRuntime, stacks: &mut Folders) -> bool
    requires { length stacks.old.rows ≡ 2 }
{
    for path in IN_BYTE_ORDER {
        if !moves(rt, stacks, path) {
            return false;
        }
    }
    is_empty(stacks)
}

/// Whether the folder is there, the first reel takes a record, and all reels are moved to the bin.
fn go_round(rt: &HostRuntime, stacks: &mut Folders) -> bool
    requires { length stacks.old.rows ≡ 2 }
{
    !is_missing(stacks) && is_written(stacks) && has_reels(rt, stacks)
}

/// Whether the first folder is missing, and the reels can be used once the folders are made. The
/// folders are removed afterwards.
fn are_used(rt: &HostRuntime, stacks: &mut Folders) -> io::Result<bool>
    requires { length stacks.old.rows ≡ 2 }
{
    let missing = is_missing(stacks);
    make_all(rt)?;
    let round = go_round(rt, stacks);
    fs::remove_dir_all(rt, "folders")?;
    Ok(missing && round)
}

/// Runs `are_used` with new drives whose reels hold 100 bytes each. It first removes what an
/// interrupted run has left.
fn are_used_anew(rt: HostRuntime) -> io::Result<bool> {
    let _ = fs::remove_dir_all(&rt, "folders");
    let mut stacks = FolderStacks::open(rt, &DRIVES, "folders/bin", 100)?;
    are_used(&rt, &mut stacks)
}

#[test]
fn reels_go_round_in_folders(rt: HostRuntime) -> io::Result<()> {
    let right = are_used_anew(rt)?;
    assert!(rt; right);
    Ok(())
}
