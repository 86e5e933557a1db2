//! A law of restores.
ghost use Rattle.std.specs.Prelude.{◌≡◌, ◌≤◌, ℕ, List, None, Some, length, take};
ghost use Rattle.std.specs.List.{concat};
ghost use Rattle.dump_run.specs.Counts.{Covers};
ghost use Rattle.dump_run.specs.Run.{PlainRun, IsRun, id_of_run};
ghost use Rattle.dump_run.specs.declared.count.VolumeCount.{VolumeCount};
ghost use Rattle.catalog.specs.declared.line.CatalogLine.{CatalogLine};
ghost use Rattle.restore.specs.Dumped.{AreKnown, AreThere, IsPayloadOf};
ghost use Rattle.restore.specs.Restored.{Fits, IsRestored, PlainWanted};

use volume_check::one_holding;

/// What was dumped comes back: if a shelf has the record file of each counted volume of a dump that
/// is wanted, nothing but the dump's payload is restored from it.
///
/// It does nothing: its contract is a law of the definitions.
pub fn what_was_dumped_comes_back()
    // Without a catalog, if the run's dump is wanted and the wanted length is at most that of its
    // joined blocks: whatever other reels the shelf has, and in any order of the reels, `restore`
    // restores nothing but the beginning of the joined blocks that has the wanted length.
    ensures from_reels { (run : PlainRun) (payload : List (List ℕ)) (counts : List VolumeCount) (reels : List (List ℕ)) (wanted : PlainWanted) (bytes : List ℕ) →
        wanted.lines ≡ None →
        IsRun run → IsPayloadOf run payload → Covers run counts → AreThere reels run payload counts → Fits wanted (id_of_run run) →
        wanted.length ≤ length (concat payload) → IsRestored reels wanted bytes → bytes ≡ take wanted.length (concat payload) }
    // With a catalog: the same, if each counted volume has a line in force with its label and sum.
    ensures from_catalog { (run : PlainRun) (payload : List (List ℕ)) (counts : List VolumeCount) (reels : List (List ℕ)) (wanted : PlainWanted) (bytes : List ℕ)
        (lines : List CatalogLine) → wanted.lines ≡ Some lines → AreKnown lines run payload counts →
        IsRun run → IsPayloadOf run payload → Covers run counts → AreThere reels run payload counts → Fits wanted (id_of_run run) →
        wanted.length ≤ length (concat payload) → IsRestored reels wanted bytes → bytes ≡ take wanted.length (concat payload) }
{
    one_holding();
}
