//! The lines of a catalog: which dumps began, the SHA-256 of each counted volume's record file, and
//! which dumps are finished.
//!
//! `CatalogLine` is one line, and `push_line` appends its text. `Catalog` has the lines of a file:
//! `Catalog::read` reads them, `Catalog::run` returns the lines after the last one with which a
//! dump began, those of other dumps included, and `Catalog::compare` compares a volume's sum with
//! the lines of its dump. To find them, both look only at lines with the dump's key: a catalog
//! keeps where its lines are, sorted by keys of their dumps.
//!
//! # Contracts
//!
//! The *record file* of a volume contains the label, the blocks and one mark. A length of 4 bytes
//! precedes and follows the label and each block. The mark takes 4 bytes. A *good line* has values
//! that are within their limits. The text of a line ends with a line feed. A catalog is the text of
//! good lines, one after the other. It may be empty.
//!
//! The lines of a dump are those with its name, its level and both of its dates. A dump that is
//! *begun anew* has one more line that says that it began. The line of a volume is *in force* if it
//! follows the last line with which its dump began, and no later line is that of the same volume of
//! the dump, or of an earlier one.
#![tactic(auto)]

mod begun;
mod catalog;
mod fault;
mod fields;
mod finished;
mod last_line;
mod laws;
mod line;
mod number;
mod place;
mod read_line;
mod run;
mod sum_line;
mod text;
mod verdict;

pub use begun::BegunLine;
pub use catalog::Catalog;
pub use fault::CatalogFault;
pub use finished::FinishedLine;
pub use laws::one_catalog;
pub use line::CatalogLine;
pub use run::CatalogRun;
pub use sum_line::SumLine;
pub use text::{push_line, push_volume};
pub use verdict::SumVerdict;
