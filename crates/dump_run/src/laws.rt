//! Laws of checkpoint texts and of labels. Each is the contract of a function that does nothing.

ghost use Rattle.std.specs.Prelude.{◌≡◌, ℕ, ◌≤◌, List};
ghost use Rattle.std.specs.Int.{IsInRange};
ghost use Rattle.dump_run.specs.Run.{PlainRun, IsRun, blocks_limit};
ghost use Rattle.dump_run.specs.Label.{PlainLabel, IsLabel, label, label_of, label_record};
ghost use Rattle.dump_run.specs.Checkpoint.{SpellsCheckpoint, HasResumeFault};
ghost use Rattle.dump_run.specs.declared.count.VolumeCount.{VolumeCount};
ghost use Rattle.dump_run.specs.declared.fault.ResumeFault.{ResumeFault};
ghost use Rattle.dump_run.specs.declared.fault.ResumeFault.TheVariants.{OutOfMemory};

/// A checkpoint's text determines its run and counts. Reading such a text fails only with
/// `OutOfMemory`.
pub fn one_checkpoint()
    ensures run { (bytes : List ℕ) (r s : PlainRun) (counts others : List VolumeCount) → SpellsCheckpoint bytes r counts →
        SpellsCheckpoint bytes s others → r ≡ s }
    ensures counts { (bytes : List ℕ) (r s : PlainRun) (counts others : List VolumeCount) → SpellsCheckpoint bytes r counts →
        SpellsCheckpoint bytes s others → counts ≡ others }
    ensures fault { (bytes : List ℕ) (r : PlainRun) (counts : List VolumeCount) (fault : ResumeFault) →
        SpellsCheckpoint bytes r counts → HasResumeFault bytes fault → fault ≡ OutOfMemory }
{}

/// Two labels with different values are different records. The label of each volume of a run is
/// valid, and contains the run's and the volume's values.
#[tactic(auto, using(crate::proofs::LabelReading::one_record))]
pub fn one_label()
    ensures one { (l m : PlainLabel) → IsLabel l → IsLabel m → label_record l ≡ label_record m → l ≡ m }
    ensures lawful { (run : PlainRun) (volume first : ℕ) → IsRun run → IsInRange 1 blocks_limit volume → first ≤ blocks_limit →
        IsLabel (label_of run volume first) }
    ensures same { (run : PlainRun) (volume first : ℕ) → label run volume first ≡ label_record (label_of run volume first) }
{}
