//! Stacks that log which opens are refused.
ghost use Rattle.std.specs.Prelude.{◌≡◌};

use drives::{DriveFault, OpenRefusal, Stacks};
use reel_files::{Log, RefusedOpens};
use std::marker::Model;

/// Stacks with a log of refused opens. Contracts see only the stacks.
#[derive(Drop)]
pub(crate) struct LoggedStacks<'l, S, L: Log> {
    stacks: S,
    log: &'l L,
    refused_opens: RefusedOpens,
}

impl<'l, S, L: Log> Model for LoggedStacks<'l, S, L> {
    ghost Value = { S };

    ghost coded = { S.code };

    ghost view = { λ s. s.stacks };
}

impl<'l, S, L: Log> LoggedStacks<'l, S, L> {
    pub(crate) fn new(stacks: S, log: &'l L) -> LoggedStacks<'l, S, L>
        ensures { result ≡ stacks }
    {
        LoggedStacks {
            stacks,
            log,
            refused_opens: RefusedOpens::new(),
        }
    }

    /// Forgets the last refused open, because another session begins.
    pub(crate) fn begin_session(&self) {
        self.refused_opens.clear();
    }
}

impl<'l, S: Stacks, L: Log> Stacks for LoggedStacks<'l, S, L> {
    type Reel = S::Reel;

    ghost holds = { S.holds };

    ghost drives = { S.drives };

    ghost failures = { S.failures };

    ghost can_fail = { S.can_fail };

    ghost makes = { S.makes };

    ghost single = { S.single };

    ghost once = { S.once };

    ghost sized = { S.sized };

    fn drive(&self, name: &[u8]) -> Option<usize> {
        self.stacks.drive(name)
    }

    fn latch(&mut self, drive: usize) -> Result<S::Reel, DriveFault> {
        let latched = self.stacks.latch(drive);
        if latched.is_ok() {
            self.refused_opens.clear();
        }
        latched
    }

    fn unlatch(&mut self, drive: usize, reel: S::Reel) {
        self.stacks.unlatch(drive, reel);
    }

    fn offline(&mut self, drive: usize, reel: S::Reel) -> Result<(), (S::Reel, DriveFault)> {
        self.stacks.offline(drive, reel)
    }

    fn failures(&self) -> u64 {
        self.stacks.failures()
    }

    fn note(&self, line: &str) {
        self.stacks.note(line);
    }

    fn note_refused(&self, name: &[u8], why: OpenRefusal) {
        self.refused_opens.log(self.log, name, why, "");
    }
}
