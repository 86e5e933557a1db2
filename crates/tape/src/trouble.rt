//! An injected fault.

ghost use Rattle.std.specs.Prelude.{◌≡◌, ◌≢◌, ◌≤◌, IfSome, MatchResult};
ghost use Rattle.tape.specs.Trouble.{IsTroubleLeft};
ghost use Rattle.tape.specs.declared.trouble.Trouble.TheVariants.{None};
ghost use Rattle.tape.specs.declared.fault.TapeFault.TheVariants.{Device};

use crate::TapeFault;

/// How the next device call of a `TroubledReel` fails.
///
/// A failed call leaves the place and the entries before it unchanged. The kinds differ only in
/// what a write leaves from the place on.
#[derive(Clone, Copy, Debug, PartialEq, Eq)]
pub enum Trouble {
    /// The call does not fail.
    None,
    /// The call fails. A write leaves the old entries.
    Kept,
    /// The call fails. A write leaves nothing.
    Lost,
    /// The call fails. A write leaves this many of its entries, or all if it has fewer.
    ///
    /// A record remains whole if this is at least 1.
    Written(u32),
}

impl Trouble {
    /// Returns how many of `count` written entries remain, or `None` if the old ones remain.
    pub(crate) fn left(self, count: u32) -> Option<u32>
        ensures within { IfSome result (λ n. n ≤ count) }
        ensures left { IsTroubleLeft self count result }
    {
        match self {
            Trouble::None => Some(count),
            Trouble::Kept => None,
            Trouble::Lost => Some(0),
            Trouble::Written(written) => Some(count.min(written)),
        }
    }

    pub(crate) fn answer(self) -> Result<(), TapeFault>
        ensures { MatchResult result (λ _. self ≡ None) (λ fault. (fault ≡ Device) × (self ≢ None)) }
    {
        match self {
            Trouble::None => Ok(()),
            _ => Err(TapeFault::Device),
        }
    }
}
