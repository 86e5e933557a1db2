//! The texts that faults print.

use drives::DriveFault;
use std::test::Fail;

/// Each fault, and the name that it prints.
static NAMES: [(DriveFault, &str); 6] = [
    (DriveFault::NoSuchDrive, "NoSuchDrive"),
    (DriveFault::Busy(7), "Busy"),
    (DriveFault::NoReel, "NoReel"),
    (DriveFault::Device, "Device"),
    (DriveFault::OutOfMemory, "OutOfMemory"),
    (DriveFault::NameTaken, "NameTaken"),
];

#[test]
fn faults_print_their_names(rt: HostRuntime) -> Result<(), Fail> {
    for (fault, name) in &NAMES {
        let printed = format!(in rt.alloc(); "{fault}")?;
        assert!(rt; printed.as_str() == *name);
    }
    Ok(())
}
