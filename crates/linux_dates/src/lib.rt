//! A dumpdates line of dump(8) of Linux, which is not one of `rdump`: `ZonedLine`.
#![tactic(auto)]

mod zoned_line;

pub use zoned_line::ZonedLine;
