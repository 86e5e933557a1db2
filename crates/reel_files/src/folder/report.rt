//! The report of a step, for the log.

use super::line::Line;
use crate::Log;
use std::fmt::{Display, Write};

/// Allocates nothing.
#[derive(Clone, Copy)]
pub(super) struct Report {
    line: Line,
    is_warning: bool,
}

impl Report {
    pub(super) fn new<D: Display + Drop>(what: D) -> Report {
        let mut line = Line::new();
        let _ = write!(line, "{what}");
        Report {
            line,
            is_warning: false,
        }
    }

    pub(super) fn warning<D: Display + Drop>(what: D) -> Report {
        let mut report = Report::new(what);
        report.is_warning = true;
        report
    }

    pub(super) fn add<D: Display + Drop>(&mut self, what: D) {
        let _ = write!(self.line, "{what}");
    }

    pub(super) fn add_warning<D: Display + Drop>(&mut self, what: D) {
        self.add(what);
        self.is_warning = true;
    }

    pub(super) fn text(&self) -> &str {
        self.line.as_str()
    }

    pub(super) fn write_to<L: Log>(&self, log: &L) {
        if self.is_warning {
            log.warn(self.line.as_str());
        } else {
            log.note(self.line.as_str());
        }
    }
}
