//! Arguments, printed text, errors of a server, served streams and restored files, against values worked out by hand.

mod arguments;
mod folders;
mod listening;
mod log_lines;
mod printing;
mod progress;
mod refused;
mod socket;
mod startup;
mod statuses;
mod streams;

use std::process::Abort;

/// Fails the test with the number of the row if `right` is false.
pub(crate) fn check_row(rt: &impl Abort, at: usize, right: bool) {
    assert!(rt; right, "row {at}");
}
