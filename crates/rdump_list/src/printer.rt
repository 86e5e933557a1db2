//! Lines that are printed in large pieces.
use crate::fault::ListFault;
use std::alloc::{AllocError, Global};
use std::io::Write;

/// How many bytes are kept before they are printed.
const PIECE: usize = 65536;

#[derive(Drop)]
pub(crate) struct Printer<W> {
    out: W,
    /// The lines that are not printed yet, and the beginning of the next one.
    pub(crate) line: Vec<u8>,
    has_failed: bool,
}

impl<W: Write> Printer<W> {
    pub(crate) fn new(alloc: Global, out: W) -> Self {
        Printer {
            out,
            line: Vec::new(alloc),
            has_failed: false,
        }
    }

    /// Ends the line, and prints the buffer once it is full.
    pub(crate) fn end_line(&mut self) -> Result<(), AllocError> {
        self.line.push(b'\n')?;
        if self.line.len() >= PIECE {
            self.flush();
        }
        Ok(())
    }

    /// Prints what is left. Fails if something was not printed.
    pub(crate) fn end<'a>(&mut self) -> Result<(), ListFault<'a>> {
        self.flush();
        if self.has_failed {
            return Err(ListFault::Unwritten);
        }
        Ok(())
    }

    /// Writes nothing more after a failed write.
    fn flush(&mut self) {
        if !self.has_failed {
            self.has_failed = self.out.write_all(&self.line).is_err();
        }
        self.line.clear();
    }
}
