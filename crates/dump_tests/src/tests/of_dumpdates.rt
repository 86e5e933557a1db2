//! Texts, lists and dates that were worked out by hand.

mod calls;
mod days;
mod lists;
mod memory;
mod rows;
