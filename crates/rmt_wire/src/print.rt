//! Prints a whole text.
ghost use Rattle.rmt_wire.specs.Print.{IsPrinted};

use crate::counted::Counted;
use crate::reply::output;
use std::io::Write;

/// Prints a text, and returns whether all of it was printed. If not, a beginning of it was, and the
/// failed or empty write is counted.
pub fn print_text<W: Write>(out: &mut Counted<W>, text: &[u8]) -> bool
    ensures { IsPrinted W.contents text.now out.old out.new result }
{
    match output(out, text) {
        Ok(()) => true,
        Err(_) => false,
    }
}
