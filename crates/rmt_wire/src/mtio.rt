//! The operations of mtio, by their numbers. The last three ignore the count.

/// Writes `count` file marks, of 4 bytes each.
pub const MTWEOF: u32 = 0;

/// Moves forward over `count` file marks, and stops after the last.
pub const MTFSF: u32 = 1;

/// Moves back over `count` file marks, and stops before the last.
pub const MTBSF: u32 = 2;

/// Moves forward over `count` records, but stops once it has passed a mark.
pub const MTFSR: u32 = 3;

/// Moves back over `count` records, but stops once it has passed a mark.
pub const MTBSR: u32 = 4;

/// Rewinds.
pub const MTREW: u32 = 5;

/// Rewinds and takes the reel off its drive. A reel alone cannot do this.
pub const MTOFFL: u32 = 6;

/// Does nothing.
pub const MTNOP: u32 = 7;
