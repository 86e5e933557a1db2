//! A medium whose reads are shown.
ghost use Rattle.std.specs.Prelude.{length};

use crate::ListSystem;
use crate::progress::ListProgress;
use std::io::Write;
use std::marker::Model;
use tape::{Medium, MediumFailed};

/// A medium whose reads are shown on a terminal, if there is one. Contracts see only the medium.
#[derive(Drop)]
pub struct ShownMedium<'a, M, R: ListSystem, W: Write + Drop> {
    pub medium: M,
    /// The line that shows the reads, if there is one.
    pub progress: Option<ListProgress<'a, R, W>>,
}

impl<'a, M, R: ListSystem, W: Write + Drop> Model for ShownMedium<'a, M, R, W> {
    ghost Value = { M };

    ghost coded = { M.code };

    ghost view = { λ s. s.medium };
}

impl<'a, M: Medium, R: ListSystem, W: Write + Drop> Medium for ShownMedium<'a, M, R, W> {
    ghost holds = { M.holds };

    ghost failures = { M.failures };

    ghost can_fail = { M.can_fail };

    ghost spare = { M.spare };

    ghost single = { M.single };

    ghost bounded = { M.bounded };

    fn len(&mut self) -> Result<u64, MediumFailed> {
        self.medium.len()
    }

    fn read_at(&mut self, at: u64, into: &mut [u8]) -> Result<usize, MediumFailed> {
        let given = self.medium.read_at(at, into);
        if let (Some(progress), Ok(count)) = (&mut self.progress, given) {
            progress.add(count);
        }
        given
    }

    fn append(&mut self, bytes: &[u8]) -> Result<(), MediumFailed> {
        self.medium.append(bytes)
    }

    fn cut(&mut self, len: u64) -> Result<(), MediumFailed> {
        self.medium.cut(len)
    }

    fn failures(&self) -> u64 {
        self.medium.failures()
    }
}
