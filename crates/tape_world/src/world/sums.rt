//! The sum of a counted volume and the file of its reel.
ghost use Rattle.std.specs.Prelude.{ℕ, List, IfSome};
ghost use Rattle.tape_world.specs.Files.{IsSumOfFiles};

use super::World;
use dump_run::{Blocks, Run, VolumeCount};
use volume_check::Summed;

impl World {
    /// Returns what `Summed::sum` returns for a volume of the run. No clause says when this is a
    /// sum.
    ///
    /// Suppose that the source's blocks are known, and that the run was begun in this world with
    /// these blocks. Suppose also that the volume was counted on a reel that no foreign session
    /// reopened. Then a sum is the SHA-256 of the record file that has the reel's entries and
    /// nothing else.
    pub fn counted_sum<B: Blocks>(
        &self,
        source: &Summed<B>,
        run: &Run,
        count: VolumeCount,
    ) -> Option<[u8; 32]>
        ensures { IfSome result (λ sum. (payload : List (List ℕ)) → B.holds source.now payload →
            IsSumOfFiles self.now run.now payload count sum) }
    {
        self.kept();
        source.sum(run, count)
    }
}
