//! A shelf of reels.
ghost use Rattle.std.specs.Prelude.{◌≡◌, ◌<◌, ℕ, List, [], IfOk, get_or, length};
ghost use Rattle.tape.specs.Failures.{Steps};

use catalog::SumVerdict;
use tape::Medium;

/// A reel could not be opened.
#[derive(Clone, Copy, Debug, PartialEq, Eq)]
pub struct OpenFailed;

/// Reels, numbered from 0, that can be opened again and again.
pub trait Shelf {
    /// An open reel.
    type Reel: Medium + Drop;

    /// Relates a shelf to the bytes of its reels, in their order, if they are known. If they are
    /// unknown, it relates the shelf to nothing, and no clause about bytes applies.
    ghost holds: { Self → List (List ℕ) → Type 0 };

    /// Returns how many reels there are.
    fn count(&self) -> usize
        ensures { (reels : List (List ℕ)) → holds self.now reels → result ≡ length reels };

    /// Opens a reel. The number is less than `count`.
    fn open(&mut self, number: usize) -> Result<Self::Reel, OpenFailed>
        ensures same { Steps holds self.old self.new (λ old new. new ≡ old) }
        ensures opened { (reels : List (List ℕ)) → holds self.old reels → number < length reels →
            IfOk result (λ reel. Self.Reel.holds reel (get_or reels number [])) };

    /// Closes a reel that was opened.
    fn close(&mut self, reel: Self::Reel)
        ensures { Steps holds self.old self.new (λ old new. new ≡ old) };

    /// Called if a reel of the dump is set aside, because its volume has this verdict. The reel is
    /// closed.
    fn set_aside(&mut self, number: usize, verdict: SumVerdict)
        ensures { Steps holds self.old self.new (λ old new. new ≡ old) };
}
