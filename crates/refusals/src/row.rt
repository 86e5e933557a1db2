//! A row of the table.
use crate::request::TapeRequest;

/// What an error number means as the answer to a request, and what to do.
#[derive(Clone, Copy)]
pub struct Row {
    /// The error number.
    pub number: u32,
    /// The request. None means each request that has no row of its own with this number.
    pub asked: Option<TapeRequest>,
    /// The text, or its part before the drive's name.
    pub before: &'static str,
    /// Whether the text names the drive.
    pub names_drive: bool,
    /// The part of the text after the drive's name, or empty.
    pub after: &'static str,
}
