//! The result of a check.

use crate::Holding;

/// The contents of a record file.
#[derive(Drop)]
pub struct ReelContents {
    /// What its entries are.
    pub holding: Holding,
    /// How many records there are, including the label and those after a mark.
    pub records: u64,
    /// How many marks there are.
    pub marks: u64,
    /// How many bytes the file has.
    pub bytes: u64,
    /// How many bytes follow the last entry that can be read from the front. They are what a
    /// stopped write left, or a damaged entry and all that follows it.
    pub tail: u64,
}
