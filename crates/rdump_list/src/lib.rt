//! The command `rdump ls` lists the contents of reels. It also lists which volumes of the dumps in
//! a dumpdates file or a catalog are on these reels.
//!
//! `run_ls` is the whole command; it uses the runtime through `ListSystem`. It reads record files
//! in place, or the first reel of a drive's stack over a connection, and writes to neither.
//! `push_verdict` appends the verdict on a reel, and `is_whole` decides whether that is `whole`.
//! `compare_reel` compares a record file with a catalog, and `dump_in` finds which volumes of a
//! dump are missing. `push_dated_volume` appends the text of a volume with the UTC text of its
//! dates.
//!
//! Other commands use `ReelPaths` to find the record files that the arguments name. They read these
//! files through a `MarkLimit` and a `ShownMedium`, which shows what is read by a `ListProgress`.
//!
//! # Contracts
//!
//! The *verdict* on a reel is a text that says what the reel holds. A *catalog* has lines: a dump
//! began, a volume with this label and this SHA-256 of its record file was counted, or a dump is
//! finished. The line of a volume is *in force* if it follows the last line with which its dump
//! began, and no line after it is that of the same volume of the dump, or of an earlier one.
//! `compare_reel` compares the SHA-256 of a reel with the lines of its volume and returns a
//! `SumVerdict`.
#![tactic(auto)]

mod catalog_dump;
mod catalog_dumps;
mod catalog_file;
mod compared_reel;
mod dated;
mod drive_reel;
mod dump_found;
mod dumps;
mod fault;
mod folder;
mod judged_reel;
mod line;
mod list_command;
mod lister;
mod mark_limit;
mod missing;
mod order;
mod printer;
mod progress;
mod reel;
mod reel_paths;
mod shown_medium;
mod status;
mod system;
mod undetermined;
mod verdict;

pub use catalog_dump::{CatalogDump, dump_in};
pub use catalog_file::read_catalog;
pub use compared_reel::compare_reel;
pub use dated::{push_date, push_dated_id, push_dated_volume};
pub use judged_reel::JudgedReel;
pub use list_command::run_ls;
pub use mark_limit::MarkLimit;
pub use missing::VolumeRange;
pub use progress::ListProgress;
pub use reel_paths::{ReelPath, ReelPaths, open_plain};
pub use shown_medium::ShownMedium;
pub use system::ListSystem;
pub use verdict::{is_whole, push_verdict};
