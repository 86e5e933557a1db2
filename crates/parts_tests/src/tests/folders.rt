//! Stacks of drives in folders.

use drives::Stacks;
use rmtd_args::DriveArgument;
use rmtd_serve::{LineStart, folder_stacks, seat_stacks};
use std::alloc::AllocError;

/// Two drives whose folders do not exist.
static WORDS: [DriveArgument<'static>; 2] = [
    DriveArgument {
        device: "/dev/st0",
        folder: "none/st0",
    },
    DriveArgument {
        device: "tape",
        folder: "none/tape",
    },
];

#[test]
fn stacks_have_the_drives_of_the_arguments(rt: HostRuntime) -> Result<(), AllocError> {
    let stacks = folder_stacks(rt, &WORDS, "none/bin", 100)?;
    assert!(rt; stacks.drive(b"tape") == Some(1));
    Ok(())
}

#[test]
fn there_are_stacks_for_each_seat(rt: HostRuntime) -> Result<(), AllocError> {
    let all = seat_stacks(rt, &WORDS, "none/bin", 100, LineStart::Time)?;
    assert!(rt; all.len() == 32);
    Ok(())
}
