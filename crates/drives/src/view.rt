//! The view of a seat.

use crate::DRIVE_LIMIT;

/// The kind of a step at a drive.
#[derive(Clone, Copy, Debug, Drop)]
pub enum StepKind {
    /// Takes the drive if no seat holds it.
    Take,
    /// Gives the drive back.
    Give,
    /// Looks up which seat holds the drive.
    Look,
}

/// One step of a seat at a drive.
#[derive(Clone, Copy, Debug, Drop)]
pub struct LastStep {
    /// What the step does.
    pub kind: StepKind,
    /// The number of the drive, from 0.
    pub drive: usize,
    /// The number of the seat that held the drive before the step, or 0. For a `Give` it is the
    /// seat's own number.
    pub found: u64,
}

/// What a seat knows.
#[derive(Drop)]
pub struct View {
    /// The number of the seat, from 1.
    pub number: u64,
    /// For each possible drive, whether the seat holds it.
    pub held: [bool; DRIVE_LIMIT],
    /// How many steps the seat has made. The count stops at the greatest `u64`.
    pub steps: u64,
    /// The last step, if there was one.
    pub last: Option<LastStep>,
}
