//! Tests of `rmt_wire` through its public functions. They are in a crate of their own so that
//! `rmt_wire` is proved once.
#![tactic(auto)]

#[cfg(test)]
mod tests;
