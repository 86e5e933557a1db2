//! The commands of `rdump` share this crate.
//!
//! `ClientSystem` is the part of the runtime that they use. `print_fault`, `report` and `report_..`
//! print what failed, on standard error unless they say otherwise. They return the exit status,
//! also if printing fails.
#![tactic(auto)]

mod fault;
mod system;
mod terminal;

pub use fault::{
    NO_CATALOG, NO_DUMPDATES, print_fault, report, report_failed, report_no_dates,
    report_no_memory, report_unwritten,
};
pub use system::ClientSystem;
pub use terminal::may_be_terminal;
