//! Reads an operator's answers, and prints the possible ones on a terminal.
use std::io::{self, Read, Write};

/// The text that the terminal shows after each question.
const ANSWERS: &[u8] = b"(yes, or anything else to abandon)\n";

/// The operator's input. Before each line is read, the possible answers are printed on the
/// terminal, if there is one.
#[derive(Drop)]
pub(crate) struct Asking<I, T> {
    input: I,
    terminal: Option<T>,
    is_at_line: bool,
}

impl<I: Read, T: Write> Asking<I, T> {
    pub(crate) fn new(input: I, terminal: Option<T>) -> Self {
        Asking {
            input,
            terminal,
            is_at_line: true,
        }
    }

    fn report(&mut self) {
        if !self.is_at_line {
            return;
        }
        self.is_at_line = false;
        if let Some(terminal) = &mut self.terminal {
            let _ = terminal.write_all(ANSWERS);
        }
    }
}

impl<I: Read, T: Write> Read for Asking<I, T> {
    fn read(&mut self, buf: &mut [u8]) -> io::Result<usize> {
        self.report();
        let count = self.input.read(buf)?;
        self.is_at_line = buf[..count].ends_with(b"\n");
        Ok(count)
    }
}
