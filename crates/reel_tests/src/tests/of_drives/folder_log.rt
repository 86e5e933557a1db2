//! The lines that drives in folders log.

ghost use Rattle.std.specs.Prelude.{◌≡◌, length};

use drives::{DriveFault, Stacks};
use reel_files::{FolderDrive, FolderStacks, Log};
use std::cell::Cell;
use std::{fs, io};
use tape::Reel;

/// A log that compares each line with the next expected one.
#[derive(Clone, Copy)]
struct Compared<'a> {
    /// The number of expected lines so far; `None` after another line.
    right: &'a Cell<Option<usize>>,
}

impl Log for Compared<'_> {
    fn note(&self, line: &str) {
        let number = self.right.get().unwrap_or(WANTED.len());
        let is_right = WANTED.get(number) == Some(&line);
        self.right.set(if is_right {
            number.checked_add(1)
        } else {
            None
        });
    }
}

type Logged<'a> = FolderStacks<HostRuntime, Compared<'a>>;

static WANTED: [&str; 10] = [
    "/dev/st0: r1 opened",
    "/dev/st1: open refused: logged/st0/r1: lock: another has the lock",
    "/dev/st0: r1 closed, synced",
    "/dev/st0: r1 opened, to read only: the bin has the name",
    "/dev/st0: move refused: r1: the bin has the name",
    "/dev/st0: r1 closed, synced, a read or write failed: the reel may only be read",
    "/dev/st1: r0 moved to the bin: a stop had cut the move short",
    "/dev/st1: r1 opened",
    "/dev/st1: r1 moved to the bin",
    "a line of another",
];

/// A parent folder, the stack of both drives, and the bin.
static FOLDERS: [&str; 3] = ["logged", "logged/st0", "logged/bin"];

static DRIVES: [FolderDrive; 2] = [
    FolderDrive {
        name: "/dev/st0",
        folder: "logged/st0",
    },
    FolderDrive {
        name: "/dev/st1",
        folder: "logged/st0",
    },
];

/// Makes the folders and the reel.
fn make_all(rt: &HostRuntime) -> io::Result<()> {
    for path in &FOLDERS {
        fs::create_dir(rt, *path)?;
    }
    fs::write(rt, "logged/st0/r1", "")
}

/// Makes a reel with one name in the stack and one in the bin, as a stop in the middle of a move
/// leaves it.
fn make_both_names(rt: &HostRuntime) -> io::Result<()> {
    fs::write(rt, "logged/st0/r0", "")?;
    fs::hard_link(rt, "logged/st0/r0", "logged/bin/r0")
}

/// Whether a record is written to the first drive's reel, while the second drive cannot open it.
fn is_written(stacks: &mut Logged<'_>) -> bool
    requires { length stacks.old.rows ≡ 2 }
    ensures { length stacks.new.rows ≡ 2 }
{
    let Ok(mut reel) = stacks.latch(0) else {
        return false;
    };
    let other = matches!(stacks.latch(1), Err(DriveFault::Device));
    let written = reel.write(b"hello").is_ok();
    stacks.unlatch(0, reel);
    other && written
}

/// Whether the first drive's reel can be neither written nor moved, because the bin has its name.
fn is_refused(stacks: &mut Logged<'_>) -> bool
    requires { length stacks.old.rows ≡ 2 }
    ensures { length stacks.new.rows ≡ 2 }
{
    let Ok(mut reel) = stacks.latch(0) else {
        return false;
    };
    let unwritten = reel.write(b"hello").is_err();
    match stacks.offline(0, reel) {
        Ok(()) => false,
        Err((reel, fault)) => {
            stacks.unlatch(0, reel);
            unwritten && fault == DriveFault::NameTaken
        }
    }
}

/// Whether the second drive's reel is moved to the bin.
fn is_moved(stacks: &mut Logged<'_>) -> bool
    requires { length stacks.old.rows ≡ 2 }
{
    let Ok(reel) = stacks.latch(1) else {
        return false;
    };
    stacks.offline(1, reel).is_ok()
}

/// Runs three steps with the reel, and returns whether each had the expected outcome:
/// - it is written to.
/// - it is neither written nor moved while the bin has its name.
/// - it is moved, after another reel whose move was cut short.
fn go_round(rt: &HostRuntime, stacks: &mut Logged<'_>) -> io::Result<bool>
    requires { length stacks.old.rows ≡ 2 }
{
    let written = is_written(stacks);
    fs::write(rt, "logged/bin/r1", "")?;
    let refused = is_refused(stacks);
    fs::remove_file(rt, "logged/bin/r1")?;
    make_both_names(rt)?;
    let moved = is_moved(stacks);
    stacks.note("a line of another");
    Ok(written && refused && moved)
}

/// Runs `go_round` in new folders, and removes them afterwards.
fn go_round_anew(rt: HostRuntime, right: &Cell<Option<usize>>) -> io::Result<bool> {
    let _ = fs::remove_dir_all(&rt, "logged");
    make_all(&rt)?;
    let log = Compared { right };
    let mut stacks = FolderStacks::with_log(rt.clone()?, &DRIVES, "logged/bin", 100, log)?;
    let round = go_round(&rt, &mut stacks)?;
    fs::remove_dir_all(&rt, "logged")?;
    Ok(round)
}

#[test]
fn what_is_done_is_noted(rt: HostRuntime) -> io::Result<()> {
    let right = Cell::new(Some(0));
    let round = go_round_anew(rt.clone()?, &right)?;
    assert!(rt; round && right.get() == Some(WANTED.len()));
    Ok(())
}
