//! Tests of each crate against values worked out by hand.

mod of_rmt_server;
mod of_tape_host;
