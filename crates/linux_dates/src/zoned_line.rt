//! A dumpdates line of dump(8) of Linux.
ghost use Rattle.std.specs.Prelude.{◌≡◌, IfSome};
ghost use Rattle.dumpdates.specs.declared.fault.DatesFault.TheVariants.{BadLine};

use dumpdates::{Dates, DatesFault};
use std::alloc::Global;
use std::fmt::{self, Display, Formatter, Write};

/// A zone offset, with the space before it: ` +0000`.
const OFFSET_BYTES: usize = 6;

/// A dumpdates line with a zone offset after the year, as dump(8) of Linux writes it. It prints
/// what is wrong. Printing allocates nothing.
#[derive(Clone, Copy, Debug, PartialEq, Eq)]
pub struct ZonedLine {
    /// Counted from 1.
    pub number: usize,
}

impl ZonedLine {
    /// Returns the line of a dumpdates `file` that `fault` names, if it would be an entry without
    /// its zone offset. Returns None if an allocation fails.
    pub fn find(alloc: Global, file: &[u8], fault: DatesFault) -> Option<ZonedLine>
        ensures { IfSome result (λ line. fault ≡ BadLine line.number) }
    {
        let DatesFault::BadLine(number) = fault else {
            return None;
        };
        let line = line_at(file, number)?;
        let entry = without_offset(line)?;
        let dates = Dates::read(alloc, entry).ok()?;
        (dates.len() == 1).then_some(ZonedLine { number })
    }
}

impl Display for ZonedLine {
    fn fmt<W: Write>(&self, f: &mut Formatter<W>) -> fmt::Result {
        let number = self.number;
        write!(
            f,
            "line {number} has a zone offset after the year, as dump(8) of Linux writes it: rdump keeps \
             a file of its own"
        )
    }
}

fn line_at(file: &[u8], number: usize) -> Option<&[u8]> {
    let before = number.checked_sub(1)?;
    file.split(|b| *b == b'\n').nth(before)
}

fn without_offset(line: &[u8]) -> Option<&[u8]> {
    let at = line.len().checked_sub(OFFSET_BYTES)?;
    let (entry, offset) = line.split_at(at);
    is_offset(offset).then_some(entry)
}

fn is_offset(bytes: &[u8]) -> bool {
    match bytes {
        [b' ', b'+' | b'-', digits @ ..] => digits.iter().all(|b| b.is_ascii_digit()),
        _ => false,
    }
}
