//! Why bytes are not a catalog.

use std::alloc::AllocError;
use thiserror::Error;

/// Why bytes are not a catalog. Lines are counted from 1.
#[derive(Clone, Copy, Debug, PartialEq, Eq, Error)]
pub enum CatalogFault {
    /// The line with this number is the first that does not have its form or breaks a limit.
    #[error("line {0}: bad line")]
    BadLine(usize),
    /// An allocation failed.
    #[error("out of memory")]
    OutOfMemory,
}

impl From<AllocError> for CatalogFault {
    ghost use Rattle.std.specs.Prelude.{◌≡◌};
    ghost use Rattle.catalog.specs.declared.fault.CatalogFault.TheVariants.{OutOfMemory};

    ghost from_gives = { λ _ e. e ≡ OutOfMemory };

    fn from(_: AllocError) -> CatalogFault {
        CatalogFault::OutOfMemory
    }
}
