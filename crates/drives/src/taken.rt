//! The result of a take.

/// The result of taking a drive.
#[derive(Clone, Copy, Debug, PartialEq, Eq)]
pub enum Taken {
    /// No seat held the drive, and now this seat does.
    Held,
    /// The seat with this number holds the drive.
    Busy(u64),
}
