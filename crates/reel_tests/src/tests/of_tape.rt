//! Reels and media, by tables of calls that were written by hand.

mod entries;
mod faults;
mod file;
mod file_reel;
mod list_reel;
mod medium_calls;
mod memory_medium;
mod plain_medium;
mod records;
mod reel_calls;
mod runs;
mod stops;
mod troubled_reel;
