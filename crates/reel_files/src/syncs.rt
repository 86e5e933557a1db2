//! Syncs of an open file, and its move offline.

ghost use Rattle.std.specs.Prelude.{◌≡◌, ◌⊎◌, ℕ, Bool, List, [], ◌∷◌, false, true, Some, None, Ok, is_ok, IfOk, IsErr, OnErr, MatchResult};
ghost use Rattle.tape.specs.Failures.{Steps};
ghost use Rattle.reel_files.specs.Syncs.{FileStep, Makes, IsUnsynced, IsLeft};
ghost use Rattle.reel_files.specs.Syncs.FileStep.{Sync, Move};

use std::marker::Model;

/// An open file that can be synced, and moved to another folder. Clauses about its steps apply only
/// if an implementation specifies them.
pub trait MovableFile {
    /// The outcome of a move.
    type Moved: Drop;

    /// Why a step failed.
    type Refusal: Copy;

    /// The steps of the file so far, if they are specified.
    ghost told: { Self → List FileStep → Type 0 };

    ghost truncations: { Self → ℕ };

    ghost written: { Self → Bool };

    /// Returns how often the file was cut to length 0.
    fn truncations(&self) -> u64
        ensures { result ≡ truncations self.now };

    /// Returns whether a write or a cut was tried after the file was opened, even one that failed.
    fn is_written(&self) -> bool
        ensures { result ≡ written self.now };

    /// Writes the file's cached data to the device.
    fn sync(&mut self) -> Result<(), Self::Refusal>
        ensures step { Makes told self.old self.new (Sync (is_ok result) ∷ []) }
        ensures same { truncations self.new ≡ truncations self.old };

    /// Moves the file to another folder.
    fn rename(&mut self) -> Result<Self::Moved, Self::Refusal>
        ensures { Makes told self.old self.new (Move (is_ok result) ∷ []) };
}

/// Whether a sync of an open file has failed since the file was last cut to length 0, and why.
#[derive(Drop)]
pub struct Syncs<E: Copy> {
    failed: Option<FailedSync<E>>,
}

#[derive(Clone, Copy)]
struct FailedSync<E: Copy> {
    /// How many times the file had been cut to length 0.
    truncations: u64,
    reason: E,
}

impl<E: Copy> Model for Syncs<E> {
    ghost use Rattle.std.specs.Prelude.{ℕ, Option};
    ghost use Rattle.std.specs.Option.{option_map};

    ghost Value = { Option ℕ };

    ghost view = { λ s. option_map (λ f. f.truncations) s.failed };
}

impl<E: Copy> Syncs<E> {
    /// Makes a record without a failed sync.
    pub fn new() -> Syncs<E>
        // The types allow no other body, so no wrong body is tried.
        ensures { result ≡ None }
    {
        Syncs { failed: None }
    }

    /// Syncs the file, unless an earlier sync failed after the file's last cut to length 0.
    ///
    /// Fails with the reason of that earlier sync, or of this one. The system reports only once
    /// what it could not write, so a sync after a failed one would not report it again.
    pub fn sync<F: MovableFile<Refusal = E>>(&mut self, file: &mut F) -> Result<(), E>
        ensures again { self.old ≡ Some (F.truncations file.old) → IsErr result }
        ensures noted { MatchResult result (λ _. self.new ≡ self.old) (λ _. self.new ≡ Some (F.truncations file.old)) }
        ensures done { IfOk result (λ _. Makes F.told file.old file.new (Sync true ∷ [])) }
        ensures refused { OnErr result (Steps F.told file.old file.new (IsUnsynced (F.truncations file.old) self.old self.new)) }
        ensures same { F.truncations file.new ≡ F.truncations file.old }
    {
        let truncations = file.truncations();
        if let Some(failed) = &self.failed
            && failed.truncations == truncations
        {
            return Err(failed.reason);
        }
        match file.sync() {
            Ok(()) => Ok(()),
            Err(reason) => {
                self.failed = Some(FailedSync {
                    truncations,
                    reason,
                });
                Err(reason)
            }
        }
    }
}

/// Syncs a file and then moves it. A file that was moved was synced after its last change.
///
/// Fails with the reason if the file cannot be synced, as in `Syncs::sync`, or cannot be moved. A
/// file that cannot be synced is not moved.
pub fn take_offline<F: MovableFile>(
    file: &mut F,
    syncs: &mut Syncs<F::Refusal>,
) -> Result<F::Moved, F::Refusal>
    ensures done { IfOk result (λ _. Makes F.told file.old file.new (Sync true ∷ Move true ∷ [])) }
    ensures refused { OnErr result (Steps F.told file.old file.new (IsLeft (F.truncations file.old) syncs.old syncs.new)) }
    ensures again { syncs.old ≡ Some (F.truncations file.old) → IsErr result }
    ensures noted { MatchResult result (λ _. syncs.new ≡ syncs.old)
        (λ _. (syncs.new ≡ syncs.old) ⊎ (syncs.new ≡ Some (F.truncations file.old))) }
{
    syncs.sync(file)?;
    file.rename()
}

/// Syncs a file before it is closed, as `Syncs::sync` does, if a write or a cut was tried after it
/// was opened. Returns whether it was synced.
pub fn sync_at_close<F: MovableFile>(
    file: &mut F,
    syncs: &mut Syncs<F::Refusal>,
) -> Result<bool, F::Refusal>
    ensures written { F.written file.old ≡ true → MatchResult result
        (λ synced. (synced ≡ true) × Makes F.told file.old file.new (Sync true ∷ []))
        (λ _. Steps F.told file.old file.new (IsUnsynced (F.truncations file.old) syncs.old syncs.new)) }
    ensures unwritten { F.written file.old ≡ false → (result ≡ Ok false) × (file.new ≡ file.old) × (syncs.new ≡ syncs.old) }
    ensures again { F.written file.old ≡ true → syncs.old ≡ Some (F.truncations file.old) → IsErr result }
    ensures noted { MatchResult result (λ _. syncs.new ≡ syncs.old) (λ _. syncs.new ≡ Some (F.truncations file.old)) }
{
    if !file.is_written() {
        return Ok(false);
    }
    syncs.sync(file).and(Ok(true))
}
