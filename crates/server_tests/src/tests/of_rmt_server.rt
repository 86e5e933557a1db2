//! Sessions and whole streams, against replies written by hand.
//!
//! If the capacity of the reels does not matter, it is a mebibyte.

mod ample;
mod fixture;
mod full_bin;
mod laws;
mod pieces;
mod refused_move;
mod rows;
mod served;
mod session;
mod shared;
mod stopped_medium;
mod troubled;
mod turns;
mod two;

use std::process::Abort;

/// A capacity in bytes that no row fills.
pub(crate) const CAPACITY: u64 = 1048576;

/// Fails the test with the number of the row if `right` is false.
pub(crate) fn check_row(rt: &impl Abort, at: usize, right: bool) {
    assert!(rt; right, "row {at}");
}
