//! Several lines that are safe to print.
ghost use Rattle.std.specs.Prelude.{◌≡◌, Some};
ghost use Rattle.std.specs.Fmt.{WritesOnOk};
ghost use Rattle.console.specs.Printing.{plain_lines};

use crate::letter::plain_line_char;
use std::fmt::{self, Display, Formatter, Write};

/// Lines from others, printed with `?` for each control character but the line feed. Printing
/// allocates nothing.
#[derive(Clone, Copy)]
pub struct PlainLines<'a>(pub &'a str);

impl Display for PlainLines<'_> {
    ghost output = { λ p. Some (plain_lines p.0.now) };

    fn fmt<W: Write>(&self, f: &mut Formatter<W>) -> fmt::Result {
        write_lines(self.0, f)
    }
}

fn write_lines<W: Write>(text: &str, f: &mut Formatter<W>) -> fmt::Result
    ensures { WritesOnOk W.write_str_gives f.old result (plain_lines text.now) f.new }
{
    for letter in text.chars() {
        f.write_char(plain_line_char(letter))?;
    }
    Ok(())
}
