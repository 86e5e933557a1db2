//! The lines of a schedule.
ghost use Rattle.std.specs.Prelude.{◌<◌, ◌≤◌, ◌+◌, ◌^◌, OnSome};
ghost use Rattle.rsim_schedule.specs.Cut.{left_in};

use crate::cut::cut;

/// The lines that are still to be read, and `number`, the line of the last command that was read.
/// Lines count from 1. Before the first command `number` is 1.
#[derive(Clone, Copy)]
pub(crate) struct ScheduleLines<'a> {
    // The rest of the text; `None` after its last line.
    pub(crate) rest: Option<&'a [u8]>,
    // How many lines were read.
    passed: usize,
    pub(crate) number: usize,
    ghost fits: { passed + left_in rest ≤ 2 ^ 63 },
    ghost counted: { 1 ≤ number },
}

impl<'a> ScheduleLines<'a> {
    pub(crate) fn new(text: &'a [u8]) -> ScheduleLines<'a> {
        ScheduleLines {
            rest: Some(text),
            passed: 0,
            number: 1,
        }
    }

    /// Returns the next line, or `None` after the last.
    fn line(&mut self) -> Option<&'a [u8]>
        ensures shorter { OnSome result (left_in self.new.rest < left_in self.old.rest) }
        ensures counted { OnSome result (1 ≤ self.new.passed) }
    {
        let rest = self.rest?;
        let (line, behind) = cut(rest, b'\n');
        self.rest = behind;
        self.passed += 1;
        Some(line)
    }

    /// Returns the next line that is neither empty nor a comment, or `None` after the last.
    pub(crate) fn command(&mut self) -> Option<&'a [u8]>
        ensures { OnSome result (left_in self.new.rest < left_in self.old.rest) }
    {
        while let Some(line) = self.line() {
            if !matches!(line, [] | [b'#', ..]) {
                self.number = self.passed;
                return Some(line);
            }
        }
        None
    }
}
