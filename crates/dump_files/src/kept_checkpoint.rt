//! Keeps a checkpoint in a file.
ghost use Rattle.std.specs.Prelude.{◌≡◌, IfOk};
ghost use Rattle.dump_run.specs.Checkpoint.{checkpoint_text};
ghost use Rattle.dump_files.specs.Keeping.{IsKept};
ghost use Rattle.whole_files.specs.WholeFile.{whole_file};

use dump_run::{Run, VolumeCount, push_checkpoint};
use std::alloc::{AllocError, Global};
use thiserror::Error;
use whole_files::{FileFailed, WholeFile};

/// Why a checkpoint was not kept.
#[derive(Clone, Copy, Debug, PartialEq, Eq, Error)]
pub enum KeepFault {
    /// The file could not be replaced.
    #[error("it could not be replaced")]
    Unwritten,
    /// An allocation failed. No replacement was tried.
    #[error("out of memory")]
    OutOfMemory,
}

/// Replaces a file with the text of the checkpoint of this run, with these counted volumes.
pub fn keep_checkpoint<F: WholeFile>(
    alloc: Global,
    file: &mut F,
    run: &Run,
    counts: &[VolumeCount],
) -> Result<(), KeepFault>
    ensures { IsKept (whole_file F.gives F.takes) (checkpoint_text run.now counts.now) file.old file.new result }
{
    let Ok(text) = text_of(alloc, run, counts) else {
        return Err(KeepFault::OutOfMemory);
    };
    match file.replace(&text) {
        Ok(()) => Ok(()),
        Err(FileFailed) => Err(KeepFault::Unwritten),
    }
}

fn text_of(alloc: Global, run: &Run, counts: &[VolumeCount]) -> Result<Vec<u8>, AllocError>
    ensures { IfOk result (λ text. text.items ≡ checkpoint_text run.now counts.now) }
{
    let mut text = Vec::new(alloc);
    push_checkpoint(run, counts, &mut text)?;
    Ok(text)
}
