//! Tests of each crate against values worked out by hand.

mod of_hold_table;
mod of_rmtd_serve;
