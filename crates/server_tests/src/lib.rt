//! Tests of `rmt_server` and `world_host`, by their public calls alone. They are a crate of their
//! own so that both are proved only once.
#![tactic(auto)]

#[cfg(test)]
mod tests;
