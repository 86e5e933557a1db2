//! Tests of `dumpdates`, `dump_run`, `volume_check`, `catalog`, `dump_client` and the examples, by
//! their public calls alone. They are a crate of their own so that each of these crates is proved
//! only once.
#![tactic(auto)]

#[cfg(test)]
mod tests;
