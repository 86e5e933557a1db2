//! Tests of each crate against values worked out by hand.

mod of_schedules;
mod of_tape_world;
