//! A move to the bin that the system refuses.

ghost use Rattle.std.specs.Prelude.{◌≡◌, length};

use drives::{DriveFault, Stacks};
use reel_files::{FolderDrive, FolderStacks, FolderSystem, NoLog};
use std::alloc::Allocator;
use std::fs::{self, File, Files, Metadata, OpenOptions};
use std::io::{self, ErrorKind};
use std::rt::Clock;
use std::time::Duration;

/// A runtime whose renames fail. It passes on every other call that the stacks make.
#[derive(Clone, Copy)]
struct Stuck<R> {
    rt: R,
}

impl<R: Alloc> Alloc for Stuck<R> {
    type A = R::A;

    fn alloc(&self) -> R::A {
        self.rt.alloc()
    }
}

impl<R: Files<File = File>> Files for Stuck<R> {
    type File = File;

    type Dir = R::Dir;

    fn open_file(&self, how: &OpenOptions, path: &str) -> io::Result<File> {
        self.rt.open_file(how, path)
    }

    fn open_dir(&self, path: &str) -> io::Result<R::Dir> {
        self.rt.open_dir(path)
    }

    fn metadata(&self, path: &str) -> io::Result<Metadata> {
        self.rt.metadata(path)
    }

    fn symlink_metadata(&self, path: &str) -> io::Result<Metadata> {
        self.rt.symlink_metadata(path)
    }

    fn copy(&self, from: &str, to: &str) -> io::Result<u64> {
        self.rt.copy(from, to)
    }

    fn rename(&self, _from: &str, _to: &str) -> io::Result<()> {
        Err(io::Error::from(ErrorKind::Unsupported))
    }

    fn remove_file(&self, path: &str) -> io::Result<()> {
        self.rt.remove_file(path)
    }

    fn create_dir(&self, path: &str) -> io::Result<()> {
        self.rt.create_dir(path)
    }

    fn remove_dir(&self, path: &str) -> io::Result<()> {
        self.rt.remove_dir(path)
    }

    fn remove_dir_all<B: Allocator>(&self, alloc: B, path: &str) -> io::Result<()> {
        self.rt.remove_dir_all(alloc, path)
    }
}

impl<R: Clock> Clock for Stuck<R> {
    fn monotonic(&self) -> io::Result<Duration> {
        self.rt.monotonic()
    }

    fn since_1970(&self) -> io::Result<Duration> {
        self.rt.since_1970()
    }

    fn sleep(&self, duration: Duration) {
        self.rt.sleep(duration)
    }
}

/// A parent folder, the stack, and the bin.
static FOLDERS: [&str; 3] = ["renames", "renames/st0", "renames/bin"];

static DRIVES: [FolderDrive; 1] = [FolderDrive {
    name: "/dev/st0",
    folder: "renames/st0",
}];

/// Makes the folders, and a reel without records.
fn make_all(rt: &HostRuntime) -> io::Result<()> {
    for path in &FOLDERS {
        fs::create_dir(rt, *path)?;
    }
    fs::write(rt, "renames/st0/r1", "")
}

/// Whether the move of the first reel fails with this fault, and the reel is still in its folder.
fn stands<R: FolderSystem>(
    rt: &HostRuntime,
    stacks: &mut FolderStacks<R, NoLog>,
    wanted: DriveFault,
) -> bool
    requires { length stacks.old.rows ≡ 1 }
{
    let Ok(reel) = stacks.latch(0) else {
        return false;
    };
    match stacks.offline(0, reel) {
        Err((reel, fault)) => {
            stacks.unlatch(0, reel);
            fault == wanted && matches!(fs::exists(rt, "renames/st0/r1"), Ok(true))
        }
        Ok(()) => false,
    }
}

/// Whether a failed rename is reported as `Device`, and a name that the bin has as `NameTaken`.
fn are_refused(rt: HostRuntime) -> io::Result<bool> {
    let _ = fs::remove_dir_all(&rt, "renames");
    make_all(&rt)?;
    let mut stuck = FolderStacks::open(Stuck { rt }, &DRIVES, "renames/bin", 100)?;
    let failed = stands(&rt, &mut stuck, DriveFault::Device) && stuck.failures() == 1;
    fs::write(&rt, "renames/bin/r1", "")?;
    let mut stacks = FolderStacks::open(rt, &DRIVES, "renames/bin", 100)?;
    let taken = stands(&rt, &mut stacks, DriveFault::NameTaken) && stacks.failures() == 0;
    fs::remove_dir_all(&rt, "renames")?;
    Ok(failed && taken)
}

#[test]
fn refused_moves_leave_the_reel(rt: HostRuntime) -> io::Result<()> {
    let right = are_refused(rt)?;
    assert!(rt; right);
    Ok(())
}
