//! Laws of what a reel holds. Each is the contract of a function that does nothing.

ghost use Rattle.std.specs.Prelude.{◌≡◌, ◌≢◌, ◌≤◌, ℕ, All, List, [], ◌∷◌, ◌++◌, length, map};
ghost use Rattle.std.specs.Int.{IsInRange};
ghost use Rattle.tape.specs.Tape.{PlainEntry};
ghost use Rattle.tape.specs.Tape.PlainEntry.{Record, Mark};
ghost use Rattle.dump_run.specs.Run.{PlainRun, IsRun, blocks_limit};
ghost use Rattle.dump_run.specs.Label.{PlainLabel, label, label_of};
ghost use Rattle.volume_check.specs.Holding.{IsVolume, IsHolding};
ghost use Rattle.volume_check.specs.declared.holding.Holding.{Holding};
ghost use Rattle.volume_check.specs.declared.holding.VolumeEnd.{VolumeEnd};
ghost use Rattle.volume_check.specs.declared.holding.VolumeEnd.TheVariants.{OneMark};

use dump_run::one_label;

/// A list of entries has at most one description (`Holding`).
pub fn one_holding()
    ensures { (h k : Holding) (entries : List PlainEntry) → IsHolding h entries → IsHolding k entries → h ≡ k }
{
    one_label();
}

/// A volume's description (`Holding`) depends only on the label, the number and length of the
/// blocks, and what follows them, and not on their bytes.
pub fn one_volume()
    ensures { (label : PlainLabel) (count size : ℕ) (end : VolumeEnd) (entries others : List PlainEntry) (h k : Holding) →
        IsVolume label count size end entries → IsVolume label count size end others → IsHolding h entries → IsHolding k others → h ≡ k }
{
    one_label();
}

/// A check describes a volume as whole if a dump has written and counted it: its label, blocks of
/// the run's size, or none, and one mark.
pub fn dumped_volume()
    ensures some { (run : PlainRun) (volume first : ℕ) (blocks : List (List ℕ)) → IsRun run → IsInRange 1 blocks_limit volume → first ≤ blocks_limit →
        All (λ block. length block ≡ run.block_bytes) blocks → blocks ≢ [] →
        IsVolume (label_of run volume first) (length blocks) run.block_bytes OneMark (Record (label run volume first) ∷ (map Record blocks ++ Mark ∷ [])) }
    ensures none { (run : PlainRun) (volume first : ℕ) → IsRun run → IsInRange 1 blocks_limit volume → first ≤ blocks_limit →
        IsVolume (label_of run volume first) 0 0 OneMark (Record (label run volume first) ∷ Mark ∷ []) }
{
    one_label();
}
