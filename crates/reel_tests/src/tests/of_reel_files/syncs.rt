//! A file of which one sync fails. It is not taken offline until it is written again from its
//! beginning.

ghost use Rattle.std.specs.Prelude.{◌≡◌};

use reel_files::{FileMedium, MovableFile, Syncs, take_offline};
use std::fs::{self, OpenOptions};
use std::test::Fail;
use std::{io, process};
use tape::{FileReel, Reel, TapeFault};

/// A reel in a file whose first `fails` syncs fail.
#[derive(Drop)]
struct Failing {
    reel: FileReel<FileMedium>,
    fails: u32,
    syncs: u32,
    moves: u32,
}

/// A sync failed.
#[derive(Clone, Copy)]
struct NotSynced;

impl MovableFile for Failing {
    type Moved = ();

    type Refusal = NotSynced;

    ghost told = { λ _ _. ⊥ };

    ghost truncations = { λ f. f.reel.medium.truncations };

    ghost written = { λ f. f.reel.medium.written };

    fn truncations(&self) -> u64 {
        self.reel.medium().truncations()
    }

    fn is_written(&self) -> bool {
        self.reel.medium().is_written()
    }

    fn sync(&mut self) -> Result<(), NotSynced> {
        self.syncs = self.syncs.saturating_add(1);
        if self.syncs <= self.fails {
            return Err(NotSynced);
        }
        Ok(())
    }

    fn rename(&mut self) -> Result<(), NotSynced> {
        self.moves = self.moves.saturating_add(1);
        Ok(())
    }
}

impl Failing {
    /// Whether the file is taken offline, and how many syncs and moves it was asked for so far.
    fn goes(&mut self, syncs: &mut Syncs<NotSynced>) -> (bool, u32, u32) {
        let done = take_offline(self, syncs).is_ok();
        (done, self.syncs, self.moves)
    }

    /// Writes records, and asks for the file to be taken offline after each. Returns whether that
    /// succeeds only after the file is written again from its beginning.
    fn answers(&mut self) -> Result<bool, TapeFault> {
        let mut syncs = Syncs::new();
        self.reel.write(b"hello")?;
        let failed = self.goes(&mut syncs) == (false, 1, 0);
        let again = self.goes(&mut syncs) == (false, 1, 0);
        self.reel.write(b"more")?;
        let after_more = self.goes(&mut syncs) == (false, 1, 0);
        self.reel.rewind();
        self.reel.write(b"hello")?;
        let anew = self.goes(&mut syncs) == (true, 2, 1);
        Ok(failed && again && after_more && anew)
    }
}

/// Makes a reel in a new file at this path. Its first sync is to fail.
fn reel_in_a_file(rt: &HostRuntime, path: &str) -> io::Result<Failing> {
    let file = OpenOptions::new()
        .read(true)
        .append(true)
        .create_new(true)
        .open(rt, path)?;
    Ok(Failing {
        reel: FileReel::open(FileMedium::new(file), 100),
        fails: 1,
        syncs: 0,
        moves: 0,
    })
}

/// Runs `answers` with a reel in a new file at this path.
fn file_of_path_answers(rt: &HostRuntime, path: &str) -> Result<bool, Fail> {
    let mut reel = reel_in_a_file(rt, path)?;
    Ok(matches!(reel.answers(), Ok(true)))
}

#[test]
fn is_written_anew_after_a_failed_sync(rt: HostRuntime) -> Result<(), Fail> {
    let id = process::id(rt.process());
    let path = format!(in rt.alloc(); "syncs_{id}")?;
    let right = file_of_path_answers(&rt, path.as_str())?;
    fs::remove_file(&rt, path.as_str())?;
    assert!(rt; right);
    Ok(())
}
