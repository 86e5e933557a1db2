//! Dumps, volumes that are read back, operations, lists and dumpdates files, against values worked
//! out by hand.

mod catalog_dumps;
mod checkpoints;
mod compared;
mod dates;
mod entering;
mod fake;
mod fetched;
mod fixture;
mod lines;
mod listing;
mod looks;
mod operations;
mod payload;
mod retries;
mod spools;
mod store;
mod tapes;
mod volumes;

use std::process::Abort;

/// Fails the test with the number of the row if `right` is false.
pub(crate) fn check_row(rt: &impl Abort, at: usize, right: bool) {
    assert!(rt; right, "row {at}");
}
