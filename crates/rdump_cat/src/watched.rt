//! An output whose failures are remembered.
ghost use Rattle.std.specs.Io.{WritesAtMost};
ghost use Rattle.std.specs.Io.KnownBytes.{Keeps, WriteAppends};

use std::io::{self, ErrorKind, Write};

/// An output that remembers the error of the last write that failed.
#[derive(Drop)]
pub(crate) struct Watched<W> {
    out: W,
    fault: Option<io::Error>,
}

impl<W: Write> Watched<W> {
    pub(crate) fn new(out: W) -> Watched<W> {
        Watched { out, fault: None }
    }

    /// Returns the error of the last write that failed.
    pub(crate) fn fault(&self) -> Option<io::Error> {
        self.fault
    }

    /// Whether the last write that failed did so because the reader closed the output.
    pub(crate) fn is_closed(&self) -> bool {
        match self.fault {
            Some(error) => error.kind() == ErrorKind::BrokenPipe,
            None => false,
        }
    }
}

impl<W: Write> Write for Watched<W> {
    ghost contents = { λ w. W.contents w.out };

    fn write(&mut self, buf: &[u8]) -> io::Result<usize> {
        let taken = self.out.write(buf);
        if let Err(error) = taken {
            self.fault = Some(error);
        }
        taken
    }

    fn flush(&mut self) -> io::Result<()> {
        self.out.flush()
    }
}
