//! Commands, a peer in memory and exit statuses, against values worked out by hand.

mod checkpoint_files;
mod commands;
mod exit_codes;
mod fetched_stack;
mod fixture;
mod memory_peer;

use std::process::Abort;

/// Fails the test with the number of the row if `right` is false.
pub(crate) fn check_row(rt: &impl Abort, at: usize, right: bool) {
    assert!(rt; right, "row {at}");
}
