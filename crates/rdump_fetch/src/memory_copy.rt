//! A copy in memory.
ghost use Rattle.std.specs.Prelude.{◌≡◌, ◌++◌, ◌↔◌, IsOk, IsTrue, None, Some, is_ok, option_map};
ghost use Rattle.tape.specs.Failures.{Steps};
ghost use Rattle.rdump_fetch.specs.Copy.{IsCopyAdded, IsCopyBegun, PlainCopy};
ghost use Rattle.rdump_fetch.specs.Memory.{HasCopy, HasCopyAt};
ghost use Rattle.rdump_fetch.specs.declared.memory_copy.CopyStage.TheVariants.{Made, Synced, Placed, Kept};

use crate::CopyFile;
use dump_run::VolumeLabel;
use std::alloc::Global;
use std::io::{self, ErrorKind};
use std::marker::Model;

/// How far a copy has come.
#[derive(Clone, Copy, Debug, PartialEq, Eq)]
pub enum CopyStage {
    /// It is made.
    Made,
    /// Its bytes are on the disk.
    Synced,
    /// It has its name.
    Placed,
    /// Its name is on the disk.
    Kept,
}

#[derive(Drop)]
struct MadeCopy {
    label: VolumeLabel,
    bytes: Vec<u8>,
}

impl Model for MadeCopy {
    ghost use Rattle.rdump_fetch.specs.Copy.{PlainCopy, plain_copy};

    ghost Value = { PlainCopy };

    ghost view = { λ c. plain_copy c.label c.bytes.items };
}

/// A copy in memory, and how far it has come. Contracts always know what it contains.
///
/// `place` fails with `InvalidInput` if the copy is not synced, and `sync_name` if it is not
/// placed.
#[derive(Drop)]
pub struct MemoryCopy {
    alloc: Global,
    copy: Option<MadeCopy>,
    stage: CopyStage,
}

impl Model for MemoryCopy {
    ghost use Rattle.rdump_fetch.specs.Memory.{HeldCopy};

    ghost Value = { HeldCopy };

    ghost view = { λ m. record { copy = m.copy; stage = m.stage } };
}

impl MemoryCopy {
    /// Makes one without a copy. Allocates nothing.
    pub fn new(alloc: Global) -> MemoryCopy
        ensures { result.copy ≡ None }
    {
        MemoryCopy {
            alloc,
            copy: None,
            stage: CopyStage::Made,
        }
    }

    /// Returns the bytes of the copy, if one was begun.
    pub fn bytes(&self) -> Option<&[u8]>
        ensures { option_map (λ bytes. bytes.now) result ≡ option_map (λ copy. copy.bytes) self.now.copy }
    {
        match &self.copy {
            Some(copy) => Some(copy.bytes.as_slice()),
            None => None,
        }
    }

    /// Whether the copy is kept.
    pub fn is_kept(&self) -> bool
        ensures { IsTrue result ↔ (self.now.stage ≡ Kept) }
    {
        self.stage == CopyStage::Kept
    }

    fn move_on(&mut self, before: CopyStage, after: CopyStage) -> io::Result<()>
        ensures { IsOk result → (copy : PlainCopy) → HasCopyAt before self.old copy → HasCopyAt after self.new copy }
    {
        if self.stage != before {
            return Err(ErrorKind::InvalidInput.into());
        }
        self.stage = after;
        Ok(())
    }
}

impl CopyFile for MemoryCopy {
    ghost holds = { HasCopy };

    ghost synced = { HasCopyAt Synced };

    ghost placed = { HasCopyAt Placed };

    ghost kept = { HasCopyAt Kept };

    fn begin(&mut self, label: &VolumeLabel) -> io::Result<()> {
        let (volume, first) = (label.volume(), label.first());
        let (date, since) = (label.date(), label.since());
        let made = VolumeLabel::new(label.name(), label.level(), date, since, volume, first);
        let Some(label) = made else {
            return Err(ErrorKind::InvalidInput.into());
        };
        self.copy = Some(MadeCopy {
            label,
            bytes: Vec::new(self.alloc),
        });
        self.stage = CopyStage::Made;
        Ok(())
    }

    /// Fails with `OutOfMemory`, or with `InvalidInput` if no copy was begun.
    fn append_framed(&mut self, frame: &[u8], bytes: &[u8]) -> io::Result<()> {
        self.stage = CopyStage::Made;
        let Some(copy) = &mut self.copy else {
            return Err(ErrorKind::InvalidInput.into());
        };
        copy.bytes.extend_from_slice(frame)?;
        copy.bytes.extend_from_slice(bytes)?;
        copy.bytes.extend_from_slice(frame)?;
        Ok(())
    }

    fn sync(&mut self) -> io::Result<()> {
        self.stage = CopyStage::Synced;
        Ok(())
    }

    fn place(&mut self) -> io::Result<()> {
        self.move_on(CopyStage::Synced, CopyStage::Placed)
    }

    fn sync_name(&mut self) -> io::Result<()> {
        self.move_on(CopyStage::Placed, CopyStage::Kept)
    }

    fn leave(&mut self) {}
}
