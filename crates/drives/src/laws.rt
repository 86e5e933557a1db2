//! Laws of stacks in memory. Each function does nothing: its contract is the law.

ghost use Rattle.std.specs.Prelude.{◌≡◌, ℕ, ◌<◌, List, length, Result};
ghost use Rattle.tape.specs.Trouble.{TroubledTape};
ghost use Rattle.drives.specs.declared.fault.DriveFault.{DriveFault};
ghost use Rattle.drives.specs.ListLibrary.{ListLibrary, library_of, IsListStacksCall, MovesTroubles, HasReelAt};
ghost use Rattle.drives.specs.Arranging.{may_arrange};
ghost use Rattle.drives.specs.Calls.{StacksCall};
ghost use Rattle.drives.specs.Calls.StacksCall.{Latch, LayBack, Move};

/// How a call of `latch`, `unlatch` or `offline` changes the number of reels with a trouble on the
/// stacks and in the bin. A latch takes its reel and the reel's trouble away. A reel that is laid
/// back, or moved to the bin, brings its own. A call that fails changes nothing. No call changes
/// the number of drives.
pub fn lying_troubles()
    ensures latched { (old new : ListLibrary) (d : ℕ) (result : Result TroubledTape DriveFault) →
        d < length old.library.drives → MovesTroubles old (Latch d result) new }
    ensures laid_back { (old new : ListLibrary) (d : ℕ) (reel : TroubledTape) →
        HasReelAt old d → MovesTroubles old (LayBack d reel) new }
    ensures moved { (old new : ListLibrary) (d : ℕ) (reel : TroubledTape) (result : Result Unit DriveFault) →
        HasReelAt old d → MovesTroubles old (Move d reel result) new }
    ensures same_drives { (old new : ListLibrary) (call : StacksCall TroubledTape) →
        IsListStacksCall old new call → length new.library.drives ≡ length old.library.drives }
{}

/// Stacks in memory can be rearranged if and only if their library can be rearranged in the same
/// way.
pub fn arranged_at_rest()
    ensures { (s : ListLibrary) (d : ℕ) (names : List (List ℕ)) → may_arrange s.library d names ≡ may_arrange (library_of s) d names }
{}
