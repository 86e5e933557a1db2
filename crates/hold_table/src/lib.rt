//! A table, shared by several threads, that records which seat holds which drive.
//!
//! The table has 32 (`SEAT_LIMIT`) seats, and one word (an atomic integer) for each drive. A word
//! is 0, or the number of the seat that holds the drive. Drives are counted from 0. The crate
//! `drives` explains what a seat is. `TableHand` is a shared reference to the table that implements
//! `Holds`.
//!
//! # Contracts
//!
//! Each call of `take`, `give` or `holder` is one atomic *step* of a seat on one drive's word. No
//! call of the table waits, and none gets the Rattle kit's handle for waiting. The page
//! docs/WORLD.md says what a table without locks means for a server. Between any two steps the
//! *hold rule* is true:
//!
//! - The numbers of the seats are distinct and from 1 to 32.
//! - A drive's word is 0 while no seat holds the drive, and n while seat n is the only seat that
//!   holds it.
//!
//! Each of `take`, `give` and `holder` gets only one seat. So their clause `rule` only says that
//! some words and other seats exist for which the hold rule is true before and after the step. A
//! wrong body could satisfy it with words and seats that the table does not have. But a call of
//! `apart`, `close`, `take_among` or `holder_among` gets several seats of one table. So its clauses
//! are about the table's own words and seats. These clauses rule out bodies with which two seats
//! hold one drive, or `take` never returns `Held`.
//!
//! `take_among` and `holder_among` lend other seats to the seat that makes the step. While a seat
//! is lent, it is a *witness* of that seat. For lent seats the clauses rule out a look or a `Busy`
//! with a wrong number, and a drive that stays busy after a `give`. If a drive's holder is not
//! among these seats, no clause says which other number is found.
#![tactic(auto)]

mod among;
mod hand;
mod laws;
mod rule;
mod seat;
mod steps;
mod table;
mod together;

pub use hand::TableHand;
pub use laws::{holders_move, one_holder};
pub use seat::HoldSeat;
pub use table::{HoldTable, SEAT_LIMIT};
