//! Tests of what `tape_world` offers to others, of the laws of `world_model`, and of
//! `rsim_schedule`: lists of events with their outcome, and schedules with what they print. They
//! are a crate of their own so that each of these crates is proved only once.
#![tactic(auto)]

#[cfg(test)]
mod tests;
