//! Compares a record file with a catalog.
ghost use Rattle.std.specs.Prelude.{◌≡◌, ◌<◌, List, ℕ, IfOk, IfSome, IsNone, OnErr, OnOk, length};
ghost use Rattle.tape.specs.Tape.{PlainEntry};
ghost use Rattle.tape.specs.Failures.{HasRisen, Steps};
ghost use Rattle.tape.specs.RecordFile.{SpellsReel};
ghost use Rattle.volume_check.specs.Contents.{IsContents};
ghost use Rattle.dump_run.specs.Label.{PlainLabel};
ghost use Rattle.rdump_list.specs.ComparedReel.{IsReelCompared, IsWholeVolume};

use crate::verdict::is_one_mark;
use catalog::{Catalog, SumVerdict};
use dump_run::VolumeLabel;
use tape::{Medium, MediumFailed};
use volume_check::{Holding, ReelContents, check_reel, medium_sum};

/// Reads a reel, as `check_reel` does, and compares the SHA-256 of its bytes with the lines of a
/// catalog, as `Catalog::compare` does. Returns what the reel holds, and what the comparison found.
/// If the reel is not whole, nothing is compared.
///
/// The bytes of each record are read, in pieces as long as `room`, so that a read error of the disk
/// is noticed. `room` must not be empty. The medium is not changed. Allocates nothing.
///
/// Fails with `MediumFailed` if a call of the medium failed.
pub fn compare_reel<M: Medium>(
    medium: &mut M,
    room: &mut [u8],
    catalog: &Catalog,
) -> Result<(ReelContents, Option<SumVerdict>), MediumFailed>
    requires { 0 < length room.old }
    ensures compared { (bytes : List ℕ) (entries : List PlainEntry) → M.holds medium.old bytes → SpellsReel bytes entries →
        IfOk result (λ found. IsContents found.0 bytes entries × IsReelCompared catalog.now bytes found.0 found.1) }
    ensures same { Steps M.holds medium.old medium.new (λ old new. new ≡ old) }
    ensures failed { OnErr result (HasRisen (M.failures medium.old) (M.failures medium.new)) }
    ensures able { OnErr result (M.can_fail medium.old) }
    ensures quiet { OnOk result (M.failures medium.new ≡ M.failures medium.old) }
{
    let contents = check_reel(medium, &mut [])?;
    let verdict = match whole_label(&contents) {
        Some(label) => Some(catalog.compare(label, &medium_sum(medium, room)?)),
        None => {
            // The bytes of the records are read too.
            check_reel(medium, room)?;
            None
        }
    };
    Ok((contents, verdict))
}

pub(crate) fn whole_label(contents: &ReelContents) -> Option<&VolumeLabel>
    ensures some { IfSome result (λ label. IsWholeVolume contents.now label.now) }
    ensures none { IsNone result → (label : PlainLabel) → IsWholeVolume contents.now label → ⊥ }
{
    match &contents.holding {
        Holding::Volume(volume) if contents.tail == 0 && is_one_mark(volume.end) => {
            Some(&volume.label)
        }
        _ => None,
    }
}
