//! Parses the arguments of `rdump` with clap, and makes the error for a value that exceeds a limit.
#![tactic(auto)]

mod argument;
mod cat_line;
mod dates_line;
mod drive;
mod dump_line;
mod fault;
mod fetch_line;
mod list_line;
mod mt_line;
mod rdump_line;
mod read_line;
mod retry;
mod timeout;

pub use cat_line::CatLine;
pub use dump_line::{DumpLine, STANDARD_INPUT};
pub use fetch_line::FetchLine;
pub use list_line::{ListLine, ListedReels, WantedDumps};
pub use mt_line::MtLine;
pub use rdump_line::{RdumpLine, dump_error, rdump_args};
pub use read_line::ReadLine;
pub use retry::{MOST_PAUSE, MOST_RETRIES};
