//! A line of a log, built without allocation.

use arrayvec::ArrayString;
use console::plain_char;
use std::fmt::{self, Write};

/// The greatest number of bytes of a line. The time, the program's name and a seat are written
/// before it, all in one write.
const LINE_ROOM: usize = 980;

/// Control characters become question marks. Text that does not fit is left out.
#[derive(Clone, Copy)]
pub(super) struct Line {
    text: ArrayString<LINE_ROOM>,
}

impl Line {
    pub(super) fn new() -> Line {
        Line {
            text: ArrayString::new(),
        }
    }

    /// Adds `text` until the line has `room` bytes; the last character may exceed that. Fails if a
    /// part is left out.
    pub(super) fn add(&mut self, text: &str, room: usize) -> fmt::Result {
        for letter in text.chars() {
            if self.text.len() >= room || self.text.try_push(plain_char(letter)).is_err() {
                return Err(fmt::Error);
            }
        }
        Ok(())
    }

    pub(super) fn as_str(&self) -> &str {
        self.text.as_str()
    }
}

impl Write for Line {
    fn write_str(&mut self, text: &str) -> fmt::Result {
        self.add(text, LINE_ROOM)
    }
}
