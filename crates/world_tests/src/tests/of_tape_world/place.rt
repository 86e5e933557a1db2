//! Rows of tables.

use std::process::Abort;

/// Fails the test if a row is wrong.
pub(crate) fn expect_none(rt: &impl Abort, wrong: Option<usize>) {
    assert!(rt; wrong.is_none(), "row {wrong:?}");
}
