//! The file dumpdates of dump(8): which file systems were dumped at which levels, and when.
//!
//! `Dates` is the list of its entries. It reads and writes the file exactly, and returns the base
//! date of a dump. `date_text` returns a date as the file has it, and `utc_text` returns it as
//! numbers.
//!
//! # Contracts
//!
//! An *entry* records a dump: the name of the file system, the level and the date. A text *spells*
//! a list of entries if each line of the text is blank or contains one entry, and the list has
//! these entries in the order of the lines.
#![tactic(auto)]

mod ctime;
mod dates;
mod entry;
mod fault;
mod fields;
mod file;
mod laws;
mod line;
mod list;
mod moment;
mod names;
mod stored;
mod utc;
mod words;
mod writer;

pub use ctime::{DATE_TEXT_BYTES, date_text};
pub use dates::Dates;
pub use entry::{Entry, LAST_SECOND, as_name, is_name};
pub use fault::DatesFault;
pub use laws::{one_entry, one_reading, written_and_read};
pub use utc::utc_text;
