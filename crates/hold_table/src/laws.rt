//! Laws of the definitions. Each function does nothing: its contract is the law.
ghost use Rattle.std.specs.Prelude.{◌≡◌, ℕ, ◌<◌, ◌≤◌, ◌==◌, cond, List, length, slice_index};
ghost use Rattle.drives.specs.declared.view.StepKind.TheVariants.{Take, Give, Look};
ghost use Rattle.drives.specs.declared.view.View.{View};
ghost use Rattle.hold_table.specs.declared.rule.Seated.{Seated};
ghost use Rattle.hold_table.specs.declared.table.TheConstants.{SEAT_LIMIT};
ghost use Rattle.hold_table.specs.Moves.{StepMoves};
ghost use Rattle.hold_table.specs.Rule.{IsHeldAt, IsHolder, HoldRule};

/// If the hold rule is true, no two seats hold the same drive.
pub fn one_holder()
    ensures { (words : List ℕ) (seats : List Seated) (d j k : ℕ) → HoldRule words seats → d < length words →
        IsHeldAt seats j d → IsHeldAt seats k d → j ≡ k }
{}

/// How a step changes a drive's holder. A take makes the seat the holder of a free drive, and
/// leaves a held drive. A give leaves the seat's drive free, and a look changes nothing. Each step
/// leaves all other drives. If the hold rule is true, a drive's word is the number of its holder,
/// at most `SEAT_LIMIT`, or 0 if nobody holds it.
pub fn holders_move()
    ensures known { (words : List ℕ) (seats : List Seated) (d n : ℕ) → HoldRule words seats → d < length words → IsHolder seats d n →
        (n ≤ SEAT_LIMIT) × (slice_index words d ≡ n) }
    ensures takes { (d made found : ℕ) (old new : View) →
        StepMoves Take d old made found (cond (found == 0) old.number found) new }
    ensures gives { (d made : ℕ) (old new : View) → StepMoves Give d old made old.number 0 new }
    ensures looks { (d made found : ℕ) (old new : View) → StepMoves Look d old made found found new }
{}
