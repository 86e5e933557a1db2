//! Runs, labels, blocks and checkpoints against values worked out by hand, and the names of faults.

mod blocks;
mod checkpoint;
mod decoder;
mod run;
