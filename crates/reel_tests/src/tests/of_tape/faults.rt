//! The texts that faults print, and the fault that a failure below a reel becomes.

use std::alloc::{AllocError, Global};
use std::fmt::Display;
use std::test::Fail;
use tape::{MediumFailed, TapeFault};

/// Each fault, and the name that it prints.
static NAMES: [(TapeFault, &str); 5] = [
    (TapeFault::Device, "Device"),
    (TapeFault::Full, "Full"),
    (TapeFault::EndOrMark, "EndOrMark"),
    (TapeFault::BadOperation, "BadOperation"),
    (TapeFault::OutOfMemory, "OutOfMemory"),
];

/// Whether the fault prints that name.
fn prints<F: Display>(alloc: Global, fault: &F, name: &str) -> Result<bool, AllocError> {
    Ok(fault.to_string(alloc)?.as_str() == name)
}

#[test]
fn faults_print_their_names(rt: HostRuntime) -> Result<(), Fail> {
    for (fault, name) in &NAMES {
        assert!(&rt; prints(rt.alloc(), fault, name)?);
    }
    assert!(&rt; prints(rt.alloc(), &MediumFailed, "MediumFailed")?);
    Ok(())
}

#[test]
fn failures_below_a_reel_have_their_faults(rt: HostRuntime) {
    assert!(rt; TapeFault::from(AllocError) == TapeFault::OutOfMemory);
    assert!(rt; TapeFault::from(MediumFailed) == TapeFault::Device);
}
