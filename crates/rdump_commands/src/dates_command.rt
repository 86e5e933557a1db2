//! `rdump dates`.
ghost use Rattle.rdump_commands.specs.Status.{IsDatesStatus};

use console::ExitStatus;
use dump_files::dates;
use dumpdates::{Dates, DatesFault};
use linux_dates::ZonedLine;
use rdump_system::{ClientSystem, report, report_no_dates, report_unwritten};
use rmt_wire::Counted;
use std::io;
use whole_files::read_named;

/// Prints the text of the dumpdates file at the path `file` again or, for the name and level in
/// `asked`, the base date of a dump, as `dump_files::dates` does. If it is not a dumpdates file,
/// standard error says so.
///
/// Returns `Success` if the answer was printed. Returns `StartupError` if the file cannot be read
/// or is not a dumpdates file, an allocation fails, or a write fails.
pub fn run_dates<R: ClientSystem>(rt: &R, file: &str, asked: Option<(&str, u8)>) -> ExitStatus
    ensures { IsDatesStatus result }
{
    let bytes = match read_named(rt, rt.alloc(), file) {
        Ok(bytes) => bytes,
        Err(error) => return report(rt, file, error),
    };
    let mut out = Counted::new(io::writer(rt));
    let status = dates(rt.alloc(), &bytes, asked, &mut out);
    if status == ExitStatus::StartupError {
        match Dates::read(rt.alloc(), &bytes) {
            Ok(_) | Err(DatesFault::OutOfMemory) => {}
            Err(fault) => {
                report_no_dates(rt, file, ZonedLine::find(rt.alloc(), &bytes, fault));
            }
        }
    }
    if out.failures() > 0 {
        report_unwritten(rt, status);
    }
    status
}
