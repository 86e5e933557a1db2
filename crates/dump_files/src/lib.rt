//! What a dump reads and writes besides its reels, and the terminal line that shows its progress.
//!
//! `run_of`, `dumper_of` and `resume_dump` make the run and the client of a dump, and
//! `keep_checkpoint` keeps a checkpoint. `update` enters a dump in a dumpdates file, and `dates`
//! answers a query of it. `enter_begun`, `enter_line` and `enter_finished` enter in a catalog the
//! lines that `begun_line_of`, `sum_line_of` and `finished_line_of` make.
//!
//! # Contracts
//!
//! `dump_run` and `dump_client` explain *run*, *source*, *count*, *checkpoint* and *stage*.
//!
//! The *sum* of a volume is the SHA-256 of its record file: the label, the blocks and one mark. A
//! *catalog* has a line for each dump that began, for each counted volume, and for each finished
//! dump. The line of a volume is *in force* if it follows the last line with which its dump began,
//! and no later line is that of the same volume of the dump, or of an earlier one.
#![tactic(auto)]

mod catalog_update;
mod counted_line;
mod ctime;
mod dates_file;
mod dates_update;
mod dump_files;
mod kept_checkpoint;
mod payload;
mod payload_file;
mod progress;
mod resumed_dump;

pub use catalog_update::{EnterFault, Entered, enter_begun, enter_finished, enter_line};
pub use counted_line::{begun_line_of, finished_line_of, has_count, sum_line_of};
pub use ctime::{date_text, seconds_now};
pub use dates_file::dates;
pub use dates_update::{UpdateFault, update};
pub use dump_files::{DumpFile, DumpFiles, SameFile};
pub use kept_checkpoint::{KeepFault, keep_checkpoint};
pub use payload::{dumper_of, run_of};
pub use payload_file::PayloadFile;
pub use progress::{Clearing, ProgressLine};
pub use resumed_dump::{ResumedDumpFault, resume_dump};
