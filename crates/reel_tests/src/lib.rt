//! Tests of `tape`, `drives`, `file_medium`, `reel_files`, `volume_sum` and `restore`, by their
//! public calls alone. They are a crate of their own so that each of these crates is proved only
//! once.
#![tactic(auto)]

#[cfg(test)]
mod tests;
