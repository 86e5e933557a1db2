//! What a refusal of a request by a server means, and what to do then.
//!
//! `TapeRequest` is the request, and `request_of` returns which request some bytes are. `Refusal`
//! prints what the error means, in the words of a table. The table has a row for each error number
//! of this protocol, and further rows for single requests.
//!
//! # Contracts
//!
//! A `Row` is a row of the table. Its text may name the drive, in a form that is safe to print (see
//! `console`).
#![tactic(auto)]

mod refusal;
mod request;
mod row;
mod table;

pub use refusal::Refusal;
pub use request::{TapeRequest, request_of};
pub use row::Row;
