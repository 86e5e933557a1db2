//! Worlds, against values worked out by hand.

mod cuts;
mod dump;
mod laws;
mod line;
mod many;
mod moments;
mod place;
mod reels;
mod rows;
mod sums;
mod world;
