//! What programs print at a terminal, and their exit status.
//!
//! Text from outside the program is printed with `?` for each control character and each byte
//! sequence that is not UTF-8. So it cannot control a terminal, and only in `PlainLines` can it end
//! a line.
#![tactic(auto)]

mod letter;
mod lines;
mod live_line;
mod status;
mod text;

pub use letter::{plain_char, plain_line_char};
pub use lines::PlainLines;
pub use live_line::{CLEAR, LiveLine, LiveText, Rate};
pub use status::ExitStatus;
pub use text::{PlainBytes, plain};
