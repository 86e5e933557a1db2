//! Tests of each crate against values worked out by hand.

mod of_drives;
mod of_reel_files;
mod of_restore;
mod of_tape;
mod of_volume_sum;
