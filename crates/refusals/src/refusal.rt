//! The refusal of a request, in words.
ghost use Rattle.std.specs.Prelude.{◌≡◌, IfSome};
ghost use Rattle.std.specs.Fmt.{WritesOnOk};
ghost use Rattle.refusals.specs.Row.{IsRowOf, drive_text, row_text};
ghost use Rattle.refusals.specs.Refusal.{refusal_text};

use crate::request::TapeRequest;
use crate::row::Row;
use crate::table::find_row;
use console::plain;
use std::fmt::{self, Display, Formatter, Write};
use std::io;

/// The refusal of a request by a server. It prints what the error means and what to do, in the
/// words of the table, or without a row the system's text for the number. Control characters in the
/// drive's name are printed as `?`. Printing allocates nothing.
#[derive(Clone, Copy)]
pub struct Refusal<'a> {
    /// The row of the table, if there is one.
    pub row: Option<Row>,
    /// The error number.
    pub number: u32,
    /// The name of the drive that was to be used.
    pub device: &'a str,
}

impl<'a> Refusal<'a> {
    /// Makes the refusal of the request `asked` with this error number.
    pub fn new(asked: TapeRequest, number: u32, device: &'a str) -> Refusal<'a>
        ensures fits { IfSome result.row (IsRowOf asked number) }
        ensures number { result.number ≡ number }
        ensures device { result.device.now ≡ device.now }
    {
        Refusal {
            row: find_row(asked, number),
            number,
            device,
        }
    }
}

impl Display for Refusal<'_> {
    ghost output = { refusal_text };

    fn fmt<W: Write>(&self, f: &mut Formatter<W>) -> fmt::Result {
        match &self.row {
            Some(row) => write_row(row, self.device, f),
            None => write!(f, "{}", system_error(self.number)),
        }
    }
}

fn write_row<W: Write>(row: &Row, device: &str, f: &mut Formatter<W>) -> fmt::Result
    ensures { WritesOnOk W.write_str_gives f.old result (row_text row.now device.now) f.new }
{
    f.write_str(row.before)?;
    write_drive(row.names_drive, device, f)?;
    f.write_str(row.after)
}

fn write_drive<W: Write>(names_drive: bool, device: &str, f: &mut Formatter<W>) -> fmt::Result
    ensures { WritesOnOk W.write_str_gives f.old result (drive_text names_drive device.now) f.new }
{
    if names_drive {
        plain(device).fmt(f)
    } else {
        Ok(())
    }
}

/// Returns the system's error of this number.
fn system_error(number: u32) -> io::Error {
    io::Error::from_raw_os_error(i32::try_from(number).unwrap_or(i32::MAX))
}
