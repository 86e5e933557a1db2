//! Drives: which seat holds which drive, and which reels are on the stacks and in the bin.
//!
//! `DriveTable` combines `Holds` (a drive has at most one holder) with `Stacks` (a reel is in
//! exactly one place). `LocalHolds` and `ListStacks` implement them in memory, for one thread.
//!
//! # Contracts
//!
//! A drive has a stack of reels, and all drives of a server share one bin. Each session has a
//! *seat* with a number. The *hold record* (a `Holds`) has a number for each drive: that of the
//! seat that holds it (its *holder*). A *free* drive has no holder and the number 0. A seat makes
//! one *step* when it takes a drive, gives a drive back, or looks at a drive's holder.
//!
//! To open a drive, a session takes the drive for its seat and *latches* (takes into the drive) the
//! first reel of the drive's stack. To close the drive, the session lays the reel back and gives
//! the drive back. To take the reel offline, the session moves it to the bin (a *move*, the call
//! `offline`). A latched reel stays the first of its stack until it is laid back or moved.
//!
//! *The stacks* (a `Stacks`) are all drives of a server with their stacks, and the bin. Their
//! *library* describes the drives, the reels and the bin as plain data. In it each reel is *at
//! rest*: it has entries and a capacity, but no position and no trouble (an injected fault).
#![tactic(auto)]

mod fault;
mod holds;
mod laws;
mod list;
mod list_drive;
mod listed;
mod local;
mod pick;
mod stacks;
mod table;
mod taken;
mod view;

pub use fault::{DriveFault, OpenRefusal};
pub use holds::{DRIVE_LIMIT, Holds};
pub use laws::{arranged_at_rest, lying_troubles};
pub use list::ListStacks;
pub use listed::ListedReel;
pub use local::{LocalHolds, LocalSeat};
pub use stacks::Stacks;
pub use table::DriveTable;
pub use taken::Taken;
pub use view::{LastStep, StepKind, View};
