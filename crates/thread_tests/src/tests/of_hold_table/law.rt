//! The laws of the table, each called once.

use hold_table::{holders_move, one_holder};

#[test]
fn a_law_does_nothing(_rt: HostRuntime) {
    one_holder();
    holders_move();
}
