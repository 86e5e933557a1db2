//! The arguments of `rmtd`, parsed by clap. `server_words` returns them or a fault. The program
//! calls `server_line`, which returns clap's text for the user in place of the fault.
#![tactic(auto)]

mod broken_rule;
mod drive_argument;
mod rmtd_line;

pub use drive_argument::DriveArgument;
pub use rmtd_line::{LineFault, ServerLine, server_line, server_words};
