//! The names of faults, as they are printed.

use dump_client::{AttemptFault, StartFault};
use dump_run::SourceFailed;
use std::alloc::Global;
use std::fmt::Display;
use std::test::Fail;

static NAMES: [(AttemptFault, &str); 8] = [
    (AttemptFault::Refused(16), "Refused 16"),
    (AttemptFault::Botched, "Botched"),
    (AttemptFault::ConnectionEnded, "ConnectionEnded"),
    (AttemptFault::ShortWrite, "ShortWrite"),
    (AttemptFault::ReelTooSmall, "ReelTooSmall"),
    (AttemptFault::SourceFault, "SourceFault"),
    (AttemptFault::OutOfMemory, "OutOfMemory"),
    (AttemptFault::CountedReel(1), "CountedReel 1"),
];

/// Whether the fault is printed as this name.
fn is_named<F: Display>(alloc: Global, fault: &F, name: &str) -> Result<bool, Fail> {
    let printed = fault.to_string(alloc)?;
    Ok(printed.as_str() == name)
}

/// Only `Refused` and `CountedReel` are printed with a number.
#[test]
fn names_of_attempt_faults(rt: HostRuntime) -> Result<(), Fail> {
    for (fault, name) in &NAMES {
        assert!(rt; is_named(rt.alloc(), fault, name)?, "{name}");
    }
    Ok(())
}

#[test]
fn names_of_other_faults(rt: HostRuntime) -> Result<(), Fail> {
    assert!(rt; is_named(rt.alloc(), &StartFault::WrongState, "WrongState")?);
    assert!(rt; is_named(rt.alloc(), &StartFault::OutOfMemory, "OutOfMemory")?);
    assert!(rt; is_named(rt.alloc(), &SourceFailed, "SourceFailed")?);
    Ok(())
}
