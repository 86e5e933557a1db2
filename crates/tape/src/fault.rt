//! Errors of a reel's calls.

use crate::MediumFailed;
use std::alloc::AllocError;
use thiserror::Error;

/// Why a call of a reel failed. After each but `EndOrMark`, the place and the entries before it are
/// unchanged.
#[derive(Clone, Copy, Debug, PartialEq, Eq, Error)]
pub enum TapeFault {
    /// The medium failed in the call.
    ///
    /// After a read or spacing, the entries from the place on are unchanged too. After a write they
    /// are unchanged, or gone, or replaced by the record, or by some or all of the marks.
    #[error("Device")]
    Device,
    /// The record and a mark after it, or the marks, exceed the capacity. Nothing changed.
    ///
    /// A write checks this first: without room it never fails with `Device` or `OutOfMemory`.
    #[error("Full")]
    Full,
    /// Spacing met the end, the beginning or a mark before its count was reached. The entries are
    /// unchanged. The place is the end or the beginning, or just past the mark in the direction of
    /// spacing.
    #[error("EndOrMark")]
    EndOrMark,
    /// The number is not an operation of a reel. Nothing changed.
    #[error("BadOperation")]
    BadOperation,
    /// An allocation failed. Nothing changed.
    #[error("OutOfMemory")]
    OutOfMemory,
}

impl From<AllocError> for TapeFault {
    ghost use Rattle.std.specs.Prelude.{◌≡◌};
    ghost use Rattle.tape.specs.declared.fault.TapeFault.TheVariants.{OutOfMemory};

    ghost from_gives = { λ _ e. e ≡ OutOfMemory };

    fn from(_: AllocError) -> TapeFault {
        TapeFault::OutOfMemory
    }
}

impl From<MediumFailed> for TapeFault {
    ghost use Rattle.std.specs.Prelude.{◌≡◌};
    ghost use Rattle.tape.specs.declared.fault.TapeFault.TheVariants.{Device};

    ghost from_gives = { λ _ e. e ≡ Device };

    fn from(_: MediumFailed) -> TapeFault {
        TapeFault::Device
    }
}
