//! Seats at one table, in one thread and in many.

mod among;
mod ended;
mod law;
mod pair;
mod race;
mod rows;
