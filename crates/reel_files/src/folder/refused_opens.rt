//! The log lines of opens that were refused.

use super::report::Report;
use crate::Log;
use console::PlainBytes;
use drives::{DriveFault, OpenRefusal};
use std::cell::Cell;

/// Logs refused opens. If several opens in a row are refused for the same reason, it logs only the
/// first.
#[derive(Drop)]
pub struct RefusedOpens {
    /// The last line, if no open succeeded after it in this session.
    last: Cell<Option<Report>>,
}

impl RefusedOpens {
    /// Returns the state before the first open.
    pub fn new() -> RefusedOpens {
        RefusedOpens {
            last: Cell::new(None),
        }
    }

    /// Forgets the last line: an open succeeded, or another session begins.
    pub fn clear(&self) {
        self.last.set(None);
    }

    /// Logs that an open of the drive with this name was refused. `no_reel` ends the line if the
    /// stack has no reel. A reel that could not be latched has no line here: the latch knows the
    /// reason.
    pub fn log<L: Log>(&self, log: &L, name: &[u8], why: OpenRefusal, no_reel: &str) {
        if let Some(report) = report_of(name, why, no_reel) {
            self.write(&report, log);
        }
    }

    /// Logs the report, unless it has the text of the last one.
    pub(super) fn write<L: Log>(&self, report: &Report, log: &L) {
        if let Some(last) = self.last.get()
            && last.text() == report.text()
        {
            return;
        }
        self.last.set(Some(*report));
        report.write_to(log);
    }
}

fn report_of(name: &[u8], why: OpenRefusal, no_reel: &str) -> Option<Report> {
    let drive = PlainBytes(name);
    match why {
        OpenRefusal::BadMode(mode) => Some(Report::warning(format_args!(
            "open refused: the mode {mode} for {drive} asks for no access"
        ))),
        OpenRefusal::Drive(DriveFault::NoSuchDrive) => Some(Report::warning(format_args!(
            "open refused: there is no drive {drive}"
        ))),
        OpenRefusal::Drive(DriveFault::Busy(seat)) => Some(Report::warning(format_args!(
            "open refused: {drive} is held by seat {seat}"
        ))),
        OpenRefusal::Drive(DriveFault::NoReel) => Some(Report::warning(format_args!(
            "open refused: no reel is on the stack of {drive}{no_reel}"
        ))),
        OpenRefusal::Drive(_) => None,
    }
}
